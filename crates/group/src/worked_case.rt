//! The worked case, computed from the definitions.
ghost use Rattle.std.specs.Prelude.{◌≡◌, length};
ghost use Rattle.group.specs.Model.WorkedCase.{AnswersWorkedCase, worked_events};

/// How many calls the worked case has. That the definitions answer them as they should is part of the contract.
pub fn worked_case_calls() -> usize
    ensures count { result ≡ length worked_events }
    ensures answers { AnswersWorkedCase }
{
    compute_answers();
    19
}

// Does nothing: the checker computes the answers.
fn compute_answers()
    ensures { AnswersWorkedCase }
{}
