//! Which versions a reader is shown.
ghost use Rattle.std.specs.Prelude.{◌≡◌, Bool};
ghost use Rattle.servers.specs.declared.version.Version.{Version};
ghost use Rattle.servers.specs.Tables.{is_visible, is_covered};

use crate::version::Version;
use stamps::mark_kind::MarkKind;
use stamps::site::Site;

// A test of versions. A trait and no closure: tried, and at a call that passes a
// closure what it passes cannot be picked for the contract.
pub(crate) trait VersionTest {
    ghost passes: { Self → Version → Bool };

    fn passes(&self, version: &Version) -> bool
        ensures { result ≡ passes self.now version.now };
}

// Local versions, and those whose full mark the stable mark covers.
#[derive(Drop)]
pub(crate) struct Visible<K: MarkKind> {
    pub(crate) site: Site,
    pub(crate) stable: K::Mark,
}

impl<K: MarkKind> VersionTest for Visible<K> {
    ghost passes = { λ s. is_visible K.kind s.site (K.meaning s.stable) };

    fn passes(&self, version: &Version) -> bool {
        version.source == self.site || K::covers(self.stable, version.full_mark::<K>())
    }
}

// Versions whose full mark a cut covers, local or not.
#[derive(Drop)]
pub(crate) struct Covered<K: MarkKind> {
    pub(crate) cut: K::Mark,
}

impl<K: MarkKind> VersionTest for Covered<K> {
    ghost passes = { λ s. is_covered K.kind (K.meaning s.cut) };

    fn passes(&self, version: &Version) -> bool {
        K::covers(self.cut, version.full_mark::<K>())
    }
}
