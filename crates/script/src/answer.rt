//! What a command answers.
use group::shown::Shown;
use stamps::refusal::Refusal;
use stamps::stamp::Stamp;

/// What a command answers. A line prints it after the command's number and letter.
#[derive(Clone, Copy, Debug, PartialEq, Eq)]
pub enum Answer {
    /// It was done, and there is nothing to say of it.
    Done,
    /// The number of a session, or how many versions were dropped.
    Count(u64),
    /// How far a last stamp is ahead of its clock. Below 0 it is printed with a minus in front.
    Number(i64),
    /// The stamp of a put or a heartbeat.
    Stamped(Stamp),
    /// What a get shows, or none.
    Shown(Option<Shown>),
    /// What the two reads of a snapshot answer.
    Both(Result<Option<Shown>, Refusal>, Result<Option<Shown>, Refusal>),
    /// Why it was not done.
    // A case and no `Err`: a refusal is printed like any answer, whether or not the listing goes on.
    Refused(Refusal),
}
