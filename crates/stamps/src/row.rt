//! A row: a stamp for each site number.
ghost use Rattle.std.specs.Prelude.{◌≡◌};
ghost use Rattle.stamps.specs.Rows.{site_list, row_of, at, same, only, with_entry, covers, join, meet, greatest};
ghost use Rattle.stamps.specs.Rows.{HasStamps, least};
ghost use Rattle.stamps.specs.Checks.{checked_row};

use crate::refusal::Refusal;
use crate::site::Site;
use crate::stamp::Stamp;
use std::marker::Model;

/// Four stamps, one for each site number. The default has 0.0 at each.
#[derive(Clone, Copy, Debug, Default, PartialEq, Eq, Hash)]
pub struct Row {
    entries: [Stamp; 4],
}

// In clauses a row is its four numbers.
impl Model for Row {
    ghost use Rattle.std.specs.Prelude.{◌≡◌, length};
    ghost use Rattle.stamps.specs.Rows.{PerSite, HasStamps, per_site, site_list};
    ghost use Rattle.stamps.specs.RowLists.{site_list-per_site};

    ghost Value = { PerSite };

    ghost view = { λ r. per_site r.entries };

    ghost invariant = { λ r. (length r.entries ≡ 4) × HasStamps (per_site r.entries) };

    ghost inverse = { λ x. record { entries = site_list x } };

    ghost inverse_ok = { λ r h i. record { entries = site_list-per_site r.entries h.0 i } };
}

/// The row of four plain numbers. `Unlawful` if one of them is no stamp.
impl TryFrom<[u64; 4]> for Row {
    type Error = Refusal;

    ghost try_from_gives = { λ entries row. row ≡ checked_row entries };

    fn try_from(entries: [u64; 4]) -> Result<Row, Refusal> {
        let [a, b, c, d] = entries;
        Ok(Row::of(
            Stamp::try_from(a)?,
            Stamp::try_from(b)?,
            Stamp::try_from(c)?,
            Stamp::try_from(d)?,
        ))
    }
}

impl Row {
    /// The row of four stamps, by site number.
    pub fn of(a: Stamp, b: Stamp, c: Stamp, d: Stamp) -> Row
        ensures { result ≡ row_of a b c d }
    {
        Row {
            entries: [a, b, c, d],
        }
    }

    /// The row with this stamp at each site.
    pub fn same(stamp: Stamp) -> Row
        ensures { result ≡ same stamp }
    {
        Row {
            entries: [stamp; 4],
        }
    }

    /// The row with this stamp at one site and 0.0 at the others.
    pub fn only(site: Site, stamp: Stamp) -> Row
        ensures { result ≡ only site stamp }
    {
        Row::default().with_entry(site, stamp)
    }

    /// The four entries as plain numbers, by site number.
    pub fn entries(&self) -> [u64; 4]
        ensures value { result ≡ site_list self.now }
        ensures stamps { HasStamps self.now }
    {
        let [a, b, c, d] = self.entries;
        [a.value(), b.value(), c.value(), d.value()]
    }

    /// The entry of a site.
    pub fn at(&self, site: Site) -> Stamp
        ensures { result ≡ at self.now site }
    {
        self.entries[site.number() as usize]
    }

    /// The row with another stamp at one site.
    pub fn with_entry(&self, site: Site, stamp: Stamp) -> Row
        ensures { result ≡ with_entry self.now site stamp }
    {
        let mut entries = self.entries;
        entries[site.number() as usize] = stamp;
        Row { entries }
    }

    /// Whether each entry is at least the other's.
    pub fn covers(&self, other: &Row) -> bool
        ensures { result ≡ covers self.now other.now }
    {
        let [a, b, c, d] = self.entries;
        let [e, f, g, h] = other.entries;
        a >= e && b >= f && c >= g && d >= h
    }

    /// The greater at each entry.
    pub fn join(&self, other: &Row) -> Row
        ensures { result ≡ join self.now other.now }
    {
        let [a, b, c, d] = self.entries;
        let [e, f, g, h] = other.entries;
        Row::of(a.max(e), b.max(f), c.max(g), d.max(h))
    }

    /// The lesser at each entry.
    pub fn meet(&self, other: &Row) -> Row
        ensures { result ≡ meet self.now other.now }
    {
        let [a, b, c, d] = self.entries;
        let [e, f, g, h] = other.entries;
        Row::of(a.min(e), b.min(f), c.min(g), d.min(h))
    }

    /// The greatest of the four entries.
    pub fn greatest(&self) -> Stamp
        ensures { result ≡ greatest self.now }
    {
        let mut best = Stamp::zero();
        for entry in &self.entries {
            best = best.max(*entry);
        }
        best
    }

    /// The least of the four entries.
    pub fn least(&self) -> Stamp
        ensures { result ≡ least self.now }
    {
        let [a, b, c, d] = self.entries;
        a.min(b).min(c.min(d))
    }
}
