//! Where a server stands, and the sites of plain numbers.
ghost use Rattle.std.specs.Prelude.{◌≡◌, ◌<◌};
ghost use Rattle.group.specs.Places.{place_of};

use crate::partition::Partition;
use stamps::site::Site;
use std::marker::Model;

/// The site of a server and its partition.
#[derive(Clone, Copy, Debug)]
pub(crate) struct Place {
    pub(crate) site: Site,
    pub(crate) partition: Partition,
}

// In clauses a place is the numbers of its site and its partition.
impl Model for Place {
    ghost use Rattle.std.specs.Prelude.{ℕ, ◌<◌};

    ghost Value = { ℕ × ℕ };

    ghost view = { λ p. (p.site, p.partition) };

    ghost invariant = { λ p. (p.site < 4) × (p.partition < 4) };

    ghost inverse = { λ n. record { site = n.0; partition = n.1 } };
}

impl Place {
    /// Where the server stands in the array of servers.
    pub(crate) fn index(self) -> usize
        ensures { result ≡ place_of self.0 self.1 }
    {
        self.site.number() as usize * 4 + self.partition.number as usize
    }
}

/// The site of a number that is known to be one.
pub(crate) fn site_of(number: u8) -> Site
    requires { number < 4 }
    ensures { result ≡ number }
{
    match Site::try_from(number) {
        Ok(site) => site,
        Err(_) => unreachable(),
    }
}
