//! What a server sends to the other sites.
ghost use Rattle.std.specs.Prelude.{◌≡◌};
ghost use Rattle.servers.specs.Entries.{entry_stamp};

use crate::version::Version;
use stamps::issued_stamp::IssuedStamp;

/// An entry of an outbox.
#[derive(Clone, Copy, Debug, PartialEq, Eq, Hash)]
pub enum Entry {
    /// A version that was put.
    Update(Version),
    /// The server has reached this stamp: what it makes from here on has a higher one.
    Heartbeat(IssuedStamp),
}

/// What stands in an unused place of an outbox.
impl Default for Entry {
    fn default() -> Entry {
        Entry::Update(Version::default())
    }
}

impl Entry {
    pub(crate) fn stamp(&self) -> IssuedStamp
        ensures { result ≡ entry_stamp self.now }
    {
        match self {
            Entry::Update(version) => version.stamp,
            Entry::Heartbeat(stamp) => *stamp,
        }
    }
}
