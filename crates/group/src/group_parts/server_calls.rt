//! One server of a group, looked at or changed.
ghost use Rattle.std.specs.Prelude.{◌≡◌, ◌<◌};
ghost use Rattle.servers.specs.Servers.{view as server_view, server_hand_over, server_put, server_take, server_raise};
ghost use Rattle.servers.specs.Servers.{server_tidy};
ghost use Rattle.group.specs.Model.Calls.{with_ok};
ghost use Rattle.group.specs.Parts.{view, server_at, with_server_at, call_server_at};

use super::GroupParts;
use crate::place::Place;
use servers::entry::Entry;
use servers::server::Server;
use servers::value::Value;
use servers::version::Version;
use stamps::clock_rule::ClockRule;
use stamps::mark_kind::MarkKind;
use stamps::refusal::Refusal;
use stamps::site::Site;

// Calls that change a server go by a method each: a function that lends one of the array to be changed gets no proof.
impl<C: ClockRule, K: MarkKind> GroupParts<C, K> {
    pub(crate) fn server(&self, place: Place) -> &Server<C, K>
        requires { place.0 < (view self.now).sites }
        ensures { server_view result.now ≡ server_at (view self.now) place }
    {
        &self.servers[place.index()]
    }

    // A mark is joined into a server's stable mark.
    pub(crate) fn raise(&mut self, place: Place, mark: K::Mark)
        requires { place.0 < (view self.old).sites }
        ensures { let raised = server_raise K.kind (server_at (view self.old) place) (K.meaning mark) in
            view self.new ≡ with_server_at (view self.old) place raised }
    {
        self.servers[place.index()].raise(mark);
    }

    // A server takes an entry of another site's server.
    pub(crate) fn take(&mut self, place: Place, from: Site, entry: Entry) -> Result<(), Refusal>
        requires { place.0 < (view self.old).sites }
        ensures { (result, view self.new) ≡ call_server_at (view self.old) place (λ s. server_take s from entry) }
    {
        self.servers[place.index()].take(from, entry)
    }

    // A server makes, keeps and issues a new version.
    pub(crate) fn write(
        &mut self,
        place: Place,
        key: u16,
        value: Value,
        depends: K::Mark,
        knows: K::Mark,
    ) -> Result<Version, Refusal>
        requires { place.0 < (view self.old).sites }
        ensures { (result, view self.new) ≡ call_server_at (view self.old) place
            (λ s. server_put C.answer K.kind s key value (K.meaning depends) (K.meaning knows)) }
    {
        self.servers[place.index()].put(key, value, depends, knows)
    }

    // A server drops what is not needed any more under the safe mark.
    pub(crate) fn drop_outdated(&mut self, place: Place, safe: K::Mark) -> usize
        requires { place.0 < (view self.old).sites }
        ensures { (Ok result, view self.new) ≡ call_server_at (view self.old) place
            (λ s. with_ok (server_tidy K.kind s (K.meaning safe))) }
    {
        self.servers[place.index()].tidy(safe)
    }

    // A site has taken the next entry of a server's outbox.
    pub(crate) fn hand_over(&mut self, place: Place, to: Site)
        requires { place.0 < (view self.old).sites }
        ensures { view self.new ≡ with_server_at (view self.old) place
            (server_hand_over (server_at (view self.old) place) to) }
    {
        self.servers[place.index()].hand_over(to);
    }
}
