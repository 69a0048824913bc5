//! The making of a group.
ghost use Rattle.std.specs.Prelude.{◌≡◌, ◌≤◌};
ghost use Rattle.group.specs.Model.Groups.{new_group};
ghost use Rattle.group.specs.Model.GroupStore.{group_store};
ghost use Rattle.group.specs.Model.Promises.{KeepsPromises};
ghost use Rattle.group.specs.Parts.{view};

use super::GroupParts;
use crate::layout::Layout;
use crate::place::site_of;
use crate::seats::Seats;
use arrayvec::ArrayVec;
use servers::peers::Peers;
use servers::server::Server;
use stamps::clock_rule::ClockRule;
use stamps::mark_kind::MarkKind;

impl<C: ClockRule, K: MarkKind> GroupParts<C, K> {
    // A group with nothing in it. It takes a checked layout, so it cannot be refused. From here on it keeps the
    // promises, whatever calls are made.
    pub(crate) fn new(layout: Layout) -> Self
        ensures state { view result ≡ new_group layout.sites layout.partitions }
        ensures promises { KeepsPromises (group_store C.answer K.kind layout.sites) (view result) }
    {
        let first = first_of(layout.sites());
        // All before the first server is made: a branch between them would have each server copied once more.
        let second = first.at(site_of(1));
        let third = first.at(site_of(2));
        let fourth = first.at(site_of(3));
        GroupParts {
            // Written out: a function of the index would have to be told which indices there are. In the places of a
            // site that the layout lacks stand servers of the first site, which are never used.
            servers: [
                Server::new(first),
                Server::new(first),
                Server::new(first),
                Server::new(first),
                Server::new(second),
                Server::new(second),
                Server::new(second),
                Server::new(second),
                Server::new(third),
                Server::new(third),
                Server::new(third),
                Server::new(third),
                Server::new(fourth),
                Server::new(fourth),
                Server::new(fourth),
                Server::new(fourth),
            ],
            next_serial: 0,
            layout,
            sessions: ArrayVec::new(),
            seats: Seats::new(),
        }
    }
}

// The first of so many sites, with its peers.
fn first_of(sites: u8) -> Peers
    requires { (2 ≤ sites) × (sites ≤ 4) }
    ensures { (result.own ≡ 0) × (result.sites ≡ sites) }
{
    match Peers::new(site_of(0), sites) {
        Ok(peers) => peers,
        Err(_) => unreachable(),
    }
}
