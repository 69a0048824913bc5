//! What a group holds, and its calls on these parts.
ghost use Rattle.std.specs.Prelude.{length};
ghost use Rattle.group.specs.Sessions.{HasSessionsOf, HasSitesBelow};

use crate::layout::Layout;
use crate::seats::Seats;
use crate::session::Session;
use arrayvec::ArrayVec;
use servers::server::Server;
use stamps::clock_rule::ClockRule;
use stamps::mark_kind::MarkKind;

/// How many sessions may be opened.
pub const MOST_SESSIONS: usize = 8;

// Its calls take plain numbers, and refuse those that the layout lacks.
//
// The servers stand site by site, four to a site. Those in the places of sites and partitions that the layout lacks are
// never used.
// One array, as a call of an element of an array of arrays gets no proof where the element has ghost fields.
#[derive(Drop)]
pub(crate) struct GroupParts<C: ClockRule, K: MarkKind> {
    // In this order a new group is copied once: what stands by the servers, padding too, is copied with them.
    servers: [Server<C, K>; 16],
    next_serial: u32,
    layout: Layout,
    sessions: ArrayVec<Session, MOST_SESSIONS>,
    seats: Seats,
    ghost inside: { HasSitesBelow layout.sites sessions.items },
    ghost opened: { HasSessionsOf (length sessions.items) seats.places },
}

mod clocks;
mod delivery;
mod entries;
mod makes;
mod rows;
mod server_calls;
mod sessions;
mod snapshots;
mod stability;
mod tidying;
