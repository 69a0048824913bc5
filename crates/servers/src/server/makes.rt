//! The making of a server.
ghost use Rattle.std.specs.Prelude.{◌≡◌};
ghost use Rattle.servers.specs.Laws.{StaysQueue, StampsRise};
ghost use Rattle.servers.specs.Servers.{view, new_server, first_received, first_entry};

use super::Server;
use crate::outbox::Outbox;
use crate::peers::Peers;
use crate::table::VersionTable;
use stamps::clock_rule::ClockRule;
use stamps::mark_kind::MarkKind;
use stamps::reading::Reading;
use stamps::row::Row;
use stamps::stamp::Stamp;
use std::marker::PhantomData;

impl<C: ClockRule, K: MarkKind> Server<C, K> {
    /// A server that holds nothing, and has received nothing from the sites of its layout. Never inlined: a group would
    /// hold sixteen copies of the code that fills its tables.
    #[inline(never)]
    pub fn new(peers: Peers) -> Self
        ensures state { view result ≡ new_server peers.own peers.sites }
        ensures queues { StaysQueue peers.own peers.sites }
        ensures rising { StampsRise C.answer K.kind peers.own peers.sites }
    {
        let zero = Row::same(Stamp::zero());
        Server {
            reading: Reading::zero(),
            received: first_received(peers.sites()),
            reported: zero,
            stable: zero,
            table: VersionTable::new(),
            outbox: Outbox::new(peers),
            rule: PhantomData,
            kind: PhantomData,
        }
    }
}

// What was received before anything was taken.
fn first_received(sites: u8) -> Row
    ensures { result ≡ first_received sites }
{
    Row::of(
        first_entry(sites, 0),
        first_entry(sites, 1),
        first_entry(sites, 2),
        first_entry(sites, 3),
    )
}

// 0.0 for a site of the layout; the greatest stamp for one that the layout lacks.
fn first_entry(sites: u8, site: u8) -> Stamp
    ensures { result ≡ first_entry sites site }
{
    if site < sites {
        Stamp::zero()
    } else {
        Stamp::top()
    }
}
