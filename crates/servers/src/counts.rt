//! A count for each site number. No generic type with `Row`, whose entries are stamps by its invariant.
ghost use Rattle.std.specs.Prelude.{◌≡◌, ◌-◌, ◌<◌};
ghost use Rattle.stamps.specs.Rows.{at, same, greatest, with_entry};
ghost use Rattle.servers.specs.Others.{one_more};

use crate::peers::Peers;
use stamps::site::Site;
use std::marker::Model;

#[derive(Clone, Copy)]
pub(crate) struct Counts {
    numbers: [u8; 4],
}

// In clauses the counts are their four numbers.
impl Model for Counts {
    ghost use Rattle.std.specs.Prelude.{◌≡◌, length};
    ghost use Rattle.stamps.specs.Rows.{PerSite, per_site, site_list};
    ghost use Rattle.stamps.specs.RowLists.{site_list-per_site};

    ghost Value = { PerSite };

    ghost view = { λ c. per_site c.numbers };

    ghost invariant = { λ c. length c.numbers ≡ 4 };

    ghost inverse = { λ x. record { numbers = site_list x } };

    ghost inverse_ok = { λ c h i. record { numbers = site_list-per_site c.numbers h i } };
}

impl Counts {
    pub(crate) fn zero() -> Counts
        ensures { result ≡ same 0 }
    {
        Counts { numbers: [0; 4] }
    }

    pub(crate) fn at(&self, site: Site) -> u8
        ensures { result ≡ at self.now site }
    {
        self.numbers[site.number() as usize]
    }

    pub(crate) fn greatest(&self) -> u8
        ensures { result ≡ greatest self.now }
    {
        let [a, b, c, d] = self.numbers;
        a.max(b).max(c.max(d))
    }

    // One more for each other site of a layout.
    pub(crate) fn one_more(&self, peers: Peers) -> Counts
        requires { greatest self.now < 255 }
        ensures { result ≡ one_more peers.own peers.sites self.now }
    {
        let [a, b, c, d] = self.numbers;
        Counts {
            numbers: [
                a + u8::from(peers.has_other(0)),
                b + u8::from(peers.has_other(1)),
                c + u8::from(peers.has_other(2)),
                d + u8::from(peers.has_other(3)),
            ],
        }
    }

    // One less for a site, and never below 0.
    pub(crate) fn one_less(&self, site: Site) -> Counts
        ensures { result ≡ with_entry self.now site (at self.now site - 1) }
    {
        let mut numbers = self.numbers;
        let index = site.number() as usize;
        numbers[index] = numbers[index].saturating_sub(1);
        Counts { numbers }
    }
}
