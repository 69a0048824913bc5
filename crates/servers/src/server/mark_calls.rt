//! A server's part of the calls on its marks.
ghost use Rattle.std.specs.Prelude.{◌≡◌};
ghost use Rattle.servers.specs.Servers.{view, server_raise, server_report};

use super::Server;
use stamps::clock_rule::ClockRule;
use stamps::mark_kind::MarkKind;
use stamps::row::Row;

impl<C: ClockRule, K: MarkKind> Server<C, K> {
    /// The row of the stable mark.
    pub fn stable(&self) -> Row
        ensures { result ≡ (view self.now).marks.stable }
    {
        self.stable
    }

    /// The row of the reported mark.
    pub fn reported(&self) -> Row
        ensures { result ≡ (view self.now).marks.reported }
    {
        self.reported
    }

    /// Reports the greatest mark that the received row covers.
    pub fn report(&mut self)
        ensures { view self.new ≡ server_report K.kind (view self.old) }
    {
        self.reported = K::row(K::floor(self.received));
    }

    /// Joins a mark into the stable mark.
    pub fn raise(&mut self, mark: K::Mark)
        ensures { view self.new ≡ server_raise K.kind (view self.old) (K.meaning mark) }
    {
        self.stable = K::row(K::join(K::floor(self.stable), mark));
    }
}
