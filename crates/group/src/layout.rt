//! How many sites and partitions a group has.
ghost use Rattle.std.specs.Prelude.{◌≡◌, ◌<◌, ◌%◌, IfOk};
ghost use Rattle.group.specs.Model.GroupStore.{IsLayoutBounded};

use crate::partition::Partition;
use crate::place::Place;
use stamps::refusal::Refusal;
use stamps::site::Site;
use std::marker::Model;

/// Two counts that nobody has checked.
#[derive(Clone, Debug, PartialEq, Eq, Drop)]
pub struct Draft {
    /// How many sites; a layout has 2 to 4.
    pub sites: u8,
    /// How many partitions, each with a server at every site; a layout has 1 to 4.
    pub partitions: u8,
}

/// Two counts that the check has passed. Only [`Draft::check`] makes one.
#[derive(Clone, Copy, Debug, PartialEq, Eq)]
pub struct Layout {
    sites: u8,
    partitions: u8,
}

// In clauses a layout is the draft that has passed.
impl Model for Layout {
    ghost use Rattle.group.specs.declared.layout.Draft.{Draft};

    ghost Value = { Draft };

    ghost use Rattle.group.specs.Model.GroupStore.{IsLayoutBounded};

    ghost view = { λ l. record { sites = l.sites; partitions = l.partitions } };

    ghost invariant = { λ l. IsLayoutBounded l.sites l.partitions };

    ghost inverse = { λ d. record { sites = d.sites; partitions = d.partitions } };
}

impl Draft {
    ghost use Rattle.group.specs.Layouts.{checked_layout};

    /// The layout of these counts.
    ///
    /// # Errors
    ///
    /// `BadLayout` unless there are 2 to 4 sites and 1 to 4 partitions.
    pub fn check(self) -> Result<Layout, Refusal>
        ensures { result ≡ checked_layout self }
    {
        let Draft { sites, partitions } = self;
        if sites < 2 || sites > 4 || partitions < 1 || partitions > 4 {
            return Err(Refusal::BadLayout);
        }
        Ok(Layout { sites, partitions })
    }
}

impl Layout {
    ghost use Rattle.group.specs.Layouts.{below, checked_place, checked_line};

    /// How many sites there are.
    pub(crate) fn sites(&self) -> u8
        ensures value { result ≡ self.now.sites }
        ensures bounded { IsLayoutBounded self.now.sites self.now.partitions }
    {
        self.sites
    }

    /// How many partitions there are.
    pub(crate) fn partitions(&self) -> u8
        ensures value { result ≡ self.now.partitions }
        ensures bounded { IsLayoutBounded self.now.sites self.now.partitions }
    {
        self.partitions
    }

    /// A site of the layout.
    pub(crate) fn site(&self, number: u8) -> Result<Site, Refusal>
        ensures { result ≡ below self.now.sites number }
    {
        if number >= self.sites {
            return Err(Refusal::NotInLayout);
        }
        Site::try_from(number)
    }

    /// A partition of the layout.
    pub(crate) fn partition(&self, number: u8) -> Result<Partition, Refusal>
        ensures { result ≡ below self.now.partitions number }
    {
        if number >= self.partitions {
            return Err(Refusal::NotInLayout);
        }
        Ok(Partition { number })
    }

    /// The partition of a key.
    pub(crate) fn partition_of(&self, key: u16) -> Partition
        ensures { result ≡ key % self.now.partitions }
    {
        Partition {
            number: (key % self.partitions as u16) as u8,
        }
    }

    /// Where the server of a site and a partition stands.
    pub(crate) fn place(&self, site: u8, partition: u8) -> Result<Place, Refusal>
        ensures value { result ≡ checked_place self.now.sites self.now.partitions site partition }
        ensures inside { IfOk result (λ place. place.0 < self.now.sites) }
    {
        let site = self.site(site)?;
        let partition = self.partition(partition)?;
        Ok(Place { site, partition })
    }

    /// The two servers of a partition between which entries go from one site to the other.
    pub(crate) fn line(&self, from: u8, to: u8, partition: u8) -> Result<(Place, Place), Refusal>
        ensures value { result ≡ checked_line self.now.sites self.now.partitions from to partition }
        ensures inside { IfOk result (λ line. (line.0.0 < self.now.sites) × (line.1.0 < self.now.sites)) }
    {
        let sender = self.place(from, partition)?;
        let taker = self.place(to, partition)?;
        if from == to {
            return Err(Refusal::NotInLayout);
        }
        Ok((sender, taker))
    }
}
