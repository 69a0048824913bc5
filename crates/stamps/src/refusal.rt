//! Why a call says no.
ghost use Rattle.std.specs.Prelude.{◌≡◌};
ghost use Rattle.stamps.specs.Refusals.{number_of};

use thiserror::Error;

/// One case for each reason of the whole store. Each has a number and a text for people.
#[derive(Clone, Copy, Debug, PartialEq, Eq, Hash, Error)]
pub enum Refusal {
    /// A site or a partition is not in the layout, a site number is above 3, or an entry comes from its taker's own
    /// site or from none of the layout.
    #[error("no such site or partition here, or an entry from a site to itself")]
    NotInLayout = 1,
    /// The session was not opened.
    #[error("no such session has been opened")]
    NoSession = 2,
    /// A value, a reading or a stamp is outside its range.
    #[error("a value, a reading or a stamp out of its range")]
    Unlawful = 3,
    /// The reading is below the present one.
    #[error("the clock's reading is below the present one")]
    ReadingBehind = 4,
    /// The server holds as many versions as it can.
    #[error("the server holds as many versions as it can")]
    TableFull = 5,
    /// Some other site has as many entries still to take as an outbox keeps for it.
    #[error("another site has too many entries still to take")]
    OutboxFull = 6,
    /// The clock rule: the reading is not far enough yet.
    #[error("too early: the clock is not ahead of the latest stamp yet")]
    Early = 7,
    /// The clock rule: there is no later stamp. Also: there is no later serial number.
    #[error("no later stamp or serial number is left")]
    End = 8,
    /// No entry waits for that site.
    #[error("no entry waits for that site")]
    NothingWaits = 9,
    /// All sessions, or all seats of snapshots, are in use.
    #[error("all sessions or all snapshots are in use")]
    NoneFree = 10,
    /// The ticket's seat is not open under its serial number.
    #[error("the ticket's snapshot is not open")]
    NotOpen = 11,
    /// The layout's counts or letters are outside the rules.
    #[error("the layout's counts or letters are outside the rules")]
    BadLayout = 12,
    /// The script ends within a command.
    #[error("the script ends within a command")]
    ShortCommand = 13,
    /// No command has this letter.
    #[error("no command has this letter")]
    UnknownLetter = 14,
    /// The first command is no layout, or a later one is.
    #[error("a layout must be the first command, and only the first")]
    LayoutMisplaced = 15,
    /// The buffer for a line, or for a whole listing, is too short.
    #[error("the buffer is too short")]
    ShortBuffer = 16,
}

impl Refusal {
    /// Its number in a listing, from 1 to 16.
    pub fn number(self) -> u8
        ensures { result ≡ number_of self }
    {
        self as u8
    }
}
