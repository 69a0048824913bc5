//! The versions that a server holds, in order of arrival.
ghost use Rattle.std.specs.Prelude.{◌≡◌, ◌+◌, ◌<◌, ◌≤◌, false, [], ◌∷◌, ◌++◌, length, IfSome};
ghost use Rattle.servers.specs.Tables.{latest as latest_of, is_table_full, table_tidy, version_at, versions_of};
ghost use Rattle.servers.specs.Laws.{IsLatest, IsTidied};

use crate::version::Version;
use crate::version_test::VersionTest;
use arrayvec::ArrayVec;
use stamps::mark_kind::MarkKind;

mod needed;

use needed::Needed;

/// A server holds at most this many versions.
pub const MOST_VERSIONS: usize = 32;

#[derive(Clone, Drop)]
pub(crate) struct VersionTable {
    versions: ArrayVec<Version, MOST_VERSIONS>,
}

impl VersionTable {
    pub(crate) fn new() -> VersionTable
        ensures { versions_of result ≡ [] }
    {
        VersionTable {
            versions: ArrayVec::new(),
        }
    }

    pub(crate) fn is_full(&self) -> bool
        ensures { result ≡ is_table_full (versions_of self.now) }
    {
        self.versions.is_full()
    }

    // One version more, at the end.
    pub(crate) fn keep(&mut self, version: &Version)
        requires { is_table_full (versions_of self.old) ≡ false }
        ensures { versions_of self.new ≡ versions_of self.old ++ version.now ∷ [] }
    {
        self.versions.push(*version);
    }

    // Drops every version that has a later one of its key that the safe mark covers, and answers how many.
    pub(crate) fn tidy<K: MarkKind>(&mut self, safe: K::Mark) -> usize
        ensures step { (result, versions_of self.new)
            ≡ table_tidy K.kind (K.meaning safe) (versions_of self.old) }
        ensures law { IsTidied K.kind (K.meaning safe)
            (versions_of self.old) (versions_of self.new) result }
    {
        let mut before = ArrayVec::new();
        append(&mut before, self.versions.as_slice());
        let needed = Needed::<K> {
            versions: before.as_slice(),
            safe,
        };
        self.versions.retain(|version| !needed.is_outdated(version));
        before.len() - self.versions.len()
    }

    // The versions, in order of arrival.
    pub(crate) fn versions(&self) -> &[Version]
        ensures { result.now ≡ versions_of self.now }
    {
        self.versions.as_slice()
    }

    // Where the latest version of a key stands that passes a test.
    pub(crate) fn latest<T: VersionTest>(&self, key: u16, test: &T) -> Option<usize>
        ensures value { version_at (versions_of self.now) result
            ≡ latest_of (T.passes test.now) key (versions_of self.now) }
        ensures within { IfSome result (λ index. index < length (versions_of self.now)) }
        ensures law { IsLatest (T.passes test.now) key
            (versions_of self.now) (version_at (versions_of self.now) result) }
    {
        let versions = self.versions.as_slice();
        let mut found = None;
        for (i, version) in versions.iter().enumerate() {
            if version.key == key && test.passes(version) {
                found = match found {
                    None => Some(i),
                    Some(best) => if version.is_later(&versions[best]) {
                        Some(i)
                    } else {
                        Some(best)
                    },
                };
            }
        }
        found
    }
}

// Puts versions at the end of others, where there is room.
fn append(held: &mut ArrayVec<Version, MOST_VERSIONS>, versions: &[Version])
    requires { length held.old.items + length versions.now ≤ 32 }
    ensures { held.new.items ≡ held.old.items ++ versions.now }
{
    held.try_extend_from_slice(versions).unwrap();
}
