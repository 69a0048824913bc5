//! The rows of marks that a common floor is taken of.
ghost use Rattle.std.specs.Prelude.{◌≡◌, ◌<◌, ◌≤◌, ◌++◌, length};
ghost use Rattle.std.specs.Option.{ForSome};
ghost use Rattle.group.specs.Model.Groups.{reported_at, stable_at, cuts_at};
ghost use Rattle.group.specs.Parts.{view, IsServerList};
ghost use Rattle.group.specs.Sessions.{cut_in};

use super::GroupParts;
use crate::partition::Partition;
use crate::place::Place;
use crate::seat::Seat;
use arrayvec::ArrayVec;
use servers::server::Server;
use stamps::clock_rule::ClockRule;
use stamps::mark_kind::MarkKind;
use stamps::row::Row;
use stamps::site::Site;

// One for each partition of a site and one for each seat.
const MOST_ROWS: usize = 8;

impl<C: ClockRule, K: MarkKind> GroupParts<C, K> {
    // The reported marks of a site's servers, by partition.
    pub(crate) fn reported_rows(&self, site: Site) -> ArrayVec<Row, MOST_ROWS>
        requires { site < (view self.now).sites }
        ensures { result.items ≡ reported_at (view self.now) site }
    {
        let mut rows = ArrayVec::new();
        for server in self.servers_of(site) {
            rows.push(server.reported());
        }
        rows
    }

    // The stable marks of a site's servers, by partition.
    fn stable_rows(&self, site: Site) -> ArrayVec<Row, MOST_ROWS>
        requires { site < (view self.now).sites }
        ensures few { length result.items ≤ 4 }
        ensures rows { result.items ≡ stable_at (view self.now) site }
    {
        let mut rows = ArrayVec::new();
        for server in self.servers_of(site) {
            rows.push(server.stable());
        }
        rows
    }

    // The servers of a site, by partition.
    fn servers_of(&self, site: Site) -> &[Server<C, K>]
        requires { site < (view self.now).sites }
        ensures few { length result.now ≤ 4 }
        ensures servers { IsServerList self.now site result.now }
    {
        let place = Place {
            site,
            partition: Partition { number: 0 },
        };
        let first = place.index();
        let servers = &self.servers[..];
        &servers[first..first + self.layout.partitions() as usize]
    }

    // The stable marks of a site's servers, and the cuts of the open snapshots of its sessions.
    pub(crate) fn safe_rows(&self, site: Site) -> ArrayVec<Row, MOST_ROWS>
        requires { site < (view self.now).sites }
        ensures { result.items ≡ stable_at (view self.now) site ++ cuts_at (view self.now) site }
    {
        let mut rows = self.stable_rows(site);
        for seat in self.seats.as_slice() {
            if let Some(cut) = self.cut_of(*seat, site) {
                rows.push(cut);
            }
        }
        rows
    }

    // The cut of the open snapshot at a seat, if its session is at the site.
    fn cut_of(&self, seat: Option<Seat>, site: Site) -> Option<Row>
        requires { ForSome seat (λ y. y.session < length (view self.now).sessions) }
        ensures { result ≡ cut_in (view self.now) site seat }
    {
        let seat = seat?;
        if self.session_at(seat.session).site != site {
            return None;
        }
        Some(seat.cut)
    }
}
