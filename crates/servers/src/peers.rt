//! A site of a layout, and the others.
ghost use Rattle.std.specs.Prelude.{◌≡◌, ◌<◌, ◌≤◌};
ghost use Rattle.servers.specs.Others.{is_other};
ghost use Rattle.servers.specs.Peers.{checked_peers, peers_at, IsInLayout};

use stamps::refusal::Refusal;
use stamps::site::Site;
use std::marker::Model;

/// A site of a layout of 2 to 4 sites, with how many sites the layout has.
#[derive(Clone, Copy, Debug, PartialEq, Eq, Hash)]
pub struct Peers {
    own: Site,
    sites: u8,
}

// In clauses they are two numbers.
impl Model for Peers {
    ghost use Rattle.servers.specs.Peers.{PeersRecord, IsInLayout};

    ghost Value = { PeersRecord };

    ghost view = { λ p. record { own = p.own; sites = p.sites } };

    ghost invariant = { λ p. IsInLayout p.own p.sites };

    ghost inverse = { λ x. record { own = x.own; sites = x.sites } };
}

impl Peers {
    /// A site among so many.
    ///
    /// # Errors
    ///
    /// `BadLayout` unless there are 2 to 4 sites, and then `NotInLayout` unless the site is one of them.
    pub fn new(own: Site, sites: u8) -> Result<Peers, Refusal>
        ensures { result ≡ checked_peers own sites }
    {
        if sites < 2 || sites > 4 {
            return Err(Refusal::BadLayout);
        }
        if own.number() >= sites {
            return Err(Refusal::NotInLayout);
        }
        Ok(Peers { own, sites })
    }

    /// The site.
    pub fn own(self) -> Site
        ensures value { result ≡ self.own }
        ensures layout { IsInLayout self.own self.sites }
    {
        self.own
    }

    /// How many sites the layout has, 2 to 4.
    pub fn sites(self) -> u8
        ensures value { result ≡ self.sites }
        ensures layout { IsInLayout self.own self.sites }
    {
        self.sites
    }

    /// The same layout from another site; from this one if the layout lacks that site.
    pub fn at(self, site: Site) -> Peers
        ensures { result ≡ peers_at self site }
    {
        if site.number() < self.sites {
            Peers { own: site, ..self }
        } else {
            self
        }
    }

    // Whether a number is that of another site of the layout.
    pub(crate) fn has_other(self, site: u8) -> bool
        ensures { result ≡ is_other self.own self.sites site }
    {
        site < self.sites && site != self.own.number()
    }
}
