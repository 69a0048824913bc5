//! The worked case, computed from the definitions.
ghost use Rattle.std.specs.Prelude.{◌≡◌, length};
ghost use Rattle.script.specs.WorkedListing.{ListsWorkedCase, worked_script};

/// How many bytes the script of the worked case has. That its listing is what it should be is part of the contract.
pub fn worked_case_bytes() -> usize
    ensures count { result ≡ length worked_script }
    ensures listing { ListsWorkedCase }
{
    compute_listing();
    86
}

/// Does nothing: the checker computes the listing.
fn compute_listing()
    ensures { ListsWorkedCase }
{}
