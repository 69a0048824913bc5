//! Which versions tidying drops.
ghost use Rattle.std.specs.Prelude.{◌≡◌};
ghost use Rattle.servers.specs.Tables.{is_outdated, is_outdated_by};

use crate::version::Version;
use stamps::mark_kind::MarkKind;

// The versions as they were before tidying, and the safe mark.
#[derive(Drop)]
pub(crate) struct Needed<'a, K: MarkKind> {
    pub(crate) versions: &'a [Version],
    pub(crate) safe: K::Mark,
}

impl<'a, K: MarkKind> Needed<'a, K> {
    // Whether a version of the table replaces the item.
    #[inline(never)]
    pub(crate) fn is_outdated(&self, item: &Version) -> bool
        ensures { result
            ≡ is_outdated K.kind (K.meaning self.now.safe) self.now.versions.now item.now }
    {
        self.versions.iter().any(|other| self.replaces(other, item))
    }

    // Whether `other` is a later version of the item's key that the safe mark covers.
    fn replaces(&self, other: &Version, item: &Version) -> bool
        ensures { result ≡ is_outdated_by K.kind (K.meaning self.now.safe) item.now other.now }
    {
        other.key == item.key
            && other.is_later(item)
            && K::covers(self.safe, other.full_mark::<K>())
    }
}
