//! One value of a key, as it was put.
ghost use Rattle.std.specs.Prelude.{◌≡◌};
ghost use Rattle.servers.specs.Versions.{is_later, full_mark};

use crate::value::Value;
use stamps::issued_stamp::IssuedStamp;
use stamps::mark_kind::MarkKind;
use stamps::row::Row;
use stamps::site::Site;
use stamps::stamp::Stamp;

/// A version: a value of a key, as one put made it.
#[derive(Clone, Copy, Debug, Default, PartialEq, Eq, Hash)]
pub struct Version {
    /// The key.
    pub key: u16,
    /// What it says of its key.
    pub value: Value,
    /// The stamp that its put was answered.
    pub stamp: IssuedStamp,
    /// The site of its put.
    pub source: Site,
    /// Its mark, as the row: what its writer depended on.
    pub mark: Row,
}

impl Version {
    /// The stamp that its put was answered, as any stamp.
    pub fn stamp(&self) -> Stamp
        ensures { result ≡ self.now.stamp }
    {
        self.stamp.into()
    }

    // Whether this is the later of two versions of a key: by stamp, and at equal stamps by source.
    pub(crate) fn is_later(&self, other: &Version) -> bool
        ensures { result ≡ is_later self.now other.now }
    {
        let (stamp, others) = (self.stamp(), other.stamp());
        stamp > others || stamp == others && self.source > other.source
    }

    /// The mark of the version and of what its writer depended on: whoever has seen it depends on these.
    pub fn full_mark<K: MarkKind>(&self) -> K::Mark
        ensures { K.meaning result ≡ full_mark K.kind self.now }
    {
        K::join(K::floor(self.mark), K::lift(self.source, self.stamp()))
    }
}
