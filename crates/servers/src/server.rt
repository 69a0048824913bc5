//! One server: a site's replica of one partition.
use crate::outbox::Outbox;
use crate::table::VersionTable;
use stamps::clock_rule::ClockRule;
use stamps::mark_kind::MarkKind;
use stamps::reading::Reading;
use stamps::row::Row;
use std::marker::{Model, PhantomData};

// Marks are kept as their rows. The received row has the last stamp at the server's own site, at another site the stamp
// of the latest entry taken from there, and the greatest stamp at a site that the layout lacks.
/// A server: its clock, its marks, the versions that it holds and its outbox, under a clock rule and a kind of mark.
#[derive(Drop)]
#[derive_where(Clone)]
pub struct Server<C: ClockRule, K: MarkKind> {
    reading: Reading,
    received: Row,
    reported: Row,
    stable: Row,
    table: VersionTable,
    outbox: Outbox,
    rule: PhantomData<C>,
    kind: PhantomData<K>,
}

// In clauses a server is a record of plain data; `view` of specs/Servers.antt is its state.
impl<C: ClockRule, K: MarkKind> Model for Server<C, K> {
    ghost use Rattle.servers.specs.Servers.{ServerRecord};

    ghost Value = { ServerRecord };

    ghost use Rattle.servers.specs.Tables.{versions_of};

    ghost view = { λ s. record {
      site = s.outbox.peers.own;
      sites = s.outbox.peers.sites;
      reading = s.reading;
      received = s.received;
      reported = s.reported;
      stable = s.stable;
      versions = versions_of s.table;
      entries = s.outbox.entries.items;
      left = s.outbox.left;
    } };
}

mod calls;
mod makes;
mod mark_calls;
mod reads;
