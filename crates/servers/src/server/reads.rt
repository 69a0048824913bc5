//! Where a server stands, and its part of the calls that look for versions and drop them.
ghost use Rattle.std.specs.Prelude.{◌≡◌, ◌<◌, length, IfSome};
ghost use Rattle.servers.specs.Laws.{IsLatest, IsTidied};
ghost use Rattle.servers.specs.Tables.{is_covered, version_at};
ghost use Rattle.servers.specs.Servers.{view, sees, latest_visible, latest_covered, server_tidy};

use super::Server;
use crate::version::Version;
use crate::version_test::{Covered, Visible};
use stamps::clock_rule::ClockRule;
use stamps::mark_kind::MarkKind;
use stamps::site::Site;

impl<C: ClockRule, K: MarkKind> Server<C, K> {
    /// The site that it stands at.
    pub fn site(&self) -> Site
        ensures { result ≡ (view self.now).site }
    {
        self.outbox.own()
    }

    /// The versions held, in order of arrival.
    pub fn versions(&self) -> &[Version]
        ensures { result.now ≡ (view self.now).held }
    {
        self.table.versions()
    }

    /// Where among the versions held the latest one of a key stands that is local or that the stable mark covers. Were
    /// it held twice, which happens in no group, either place may be answered.
    pub fn latest_visible(&self, key: u16) -> Option<usize>
        ensures value { version_at (view self.now).held result ≡ latest_visible K.kind (view self.now) key }
        ensures within { IfSome result (λ index. index < length (view self.now).held) }
        ensures law { IsLatest (sees K.kind (view self.now)) key
            (view self.now).held (version_at (view self.now).held result) }
    {
        let test = Visible::<K> {
            site: self.outbox.own(),
            stable: K::floor(self.stable),
        };
        self.table.latest(key, &test)
    }

    /// Where among the versions held the latest one of a key stands that a cut covers. Were it held twice, which
    /// happens in no group, either place may be answered.
    pub fn latest_covered(&self, key: u16, cut: K::Mark) -> Option<usize>
        ensures value { version_at (view self.now).held result
            ≡ latest_covered K.kind (view self.now) key (K.meaning cut) }
        ensures within { IfSome result (λ index. index < length (view self.now).held) }
        ensures law { IsLatest (is_covered K.kind (K.meaning cut)) key
            (view self.now).held (version_at (view self.now).held result) }
    {
        let test = Covered::<K> { cut };
        self.table.latest(key, &test)
    }

    /// Drops the versions that are not needed any more under the safe mark, and answers how many.
    pub fn tidy(&mut self, safe: K::Mark) -> usize
        ensures step { (result, view self.new) ≡ server_tidy K.kind (view self.old) (K.meaning safe) }
        ensures law { IsTidied K.kind (K.meaning safe)
            (view self.old).held (view self.new).held result }
    {
        self.table.tidy::<K>(safe)
    }
}
