//! What a command does to a group.
ghost use Rattle.std.specs.Prelude.{◌≡◌, MatchResult};
ghost use Rattle.group.specs.Groups.{view};
ghost use Rattle.script.specs.CommandCalls.{perform, view_both};

use crate::answer::Answer;
use crate::command::Command;
use group::group::Group;
use stamps::clock_rule::ClockRule;
use stamps::mark_kind::MarkKind;
use stamps::refusal::Refusal;

/// What a command answers to a group. It has its layout already, so a second one ends the listing.
pub(crate) fn perform<C: ClockRule, K: MarkKind>(
    group: &mut Group<C, K>,
    command: Command,
) -> Result<Answer, Refusal>
    ensures { (result, view group.new) ≡ perform C.answer K.kind (view group.old) command }
{
    let answer = match command {
        Command::Layout { .. } => return Err(Refusal::LayoutMisplaced),
        Command::OpenSession { site } => answer_of(
            group.open_session(site),
            |session| Answer::Count(u64::from(session)),
        ),
        Command::Tell {
            site,
            partition,
            time,
        } => answer_of(group.tell(site, partition, time), |()| Answer::Done),
        Command::Put {
            session,
            key,
            kind,
            amount,
        } => answer_of(group.put(session, key, kind, amount), Answer::Stamped),
        Command::Get { session, key } => answer_of(group.get(session, key), Answer::Shown),
        Command::Heartbeat { site, partition } => answer_of(
            group.heartbeat(site, partition),
            Answer::Stamped,
        ),
        Command::Deliver {
            from,
            to,
            partition,
        } => answer_of(group.deliver(from, to, partition), |()| Answer::Done),
        Command::Report { site, partition } => answer_of(
            group.report(site, partition),
            |()| Answer::Done,
        ),
        Command::Stabilise { site, partition } => answer_of(
            group.stabilise(site, partition),
            |()| Answer::Done,
        ),
        Command::Tidy { site, partition } => answer_of(
            group.tidy(site, partition),
            |dropped| Answer::Count(dropped as u64),
        ),
        Command::Lead { site, partition } => answer_of(group.lead(site, partition), Answer::Number),
        Command::View {
            session,
            partition,
            first,
            second,
        } => view_both(group, session, partition, first, second),
    };
    Ok(answer)
}

/// The answer that is made of what a call gives, or its refusal.
fn answer_of<T, F: FnOnce(T) -> Answer>(res: Result<T, Refusal>, make: F) -> Answer
    requires { F.IsAlwaysCallable make }
    ensures { MatchResult res (λ x. F.post make x result) (λ why. result ≡ Answer.Refused why) }
{
    res.map_or_else(Answer::Refused, make)
}

/// A snapshot is opened, two keys are read, and it is closed.
fn view_both<C: ClockRule, K: MarkKind>(
    group: &mut Group<C, K>,
    session: u8,
    partition: u8,
    first: u16,
    second: u16,
) -> Answer
    ensures { (result, view group.new) ≡
        view_both C.answer K.kind (view group.old) session partition first second }
{
    let ticket = match group.open_snapshot(session, partition) {
        Ok(ticket) => ticket,
        Err(why) => return Answer::Refused(why),
    };
    let first = group.read(&ticket, first);
    let second = group.read(&ticket, second);
    // Its snapshot is still open, as reads close none.
    group.close(ticket).unwrap();
    Answer::Both(first, second)
}
