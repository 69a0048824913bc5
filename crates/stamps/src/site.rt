//! The number of a site.
ghost use Rattle.std.specs.Prelude.{◌≡◌, ◌<◌};
ghost use Rattle.stamps.specs.Checks.{checked_site};

use crate::refusal::Refusal;
use std::marker::Model;

/// A site's number, from 0 to 3: a row has an entry for each. The default is 0.
#[derive(Clone, Copy, Debug, Default, PartialEq, Eq, PartialOrd, Ord, Hash)]
pub struct Site {
    number: u8,
}

// In clauses a site is its number.
impl Model for Site {
    ghost use Rattle.std.specs.Prelude.{ℕ, ◌<◌};

    ghost Value = { ℕ };

    ghost view = { λ s. s.number };

    ghost invariant = { λ s. s.number < 4 };

    ghost inverse = { λ n. record { number = n } };
}

/// The site of a plain number. `NotInLayout` from 4 on.
impl TryFrom<u8> for Site {
    type Error = Refusal;

    ghost try_from_gives = { λ number site. site ≡ checked_site number };

    fn try_from(number: u8) -> Result<Site, Refusal> {
        if number >= 4 {
            return Err(Refusal::NotInLayout);
        }
        Ok(Site { number })
    }
}

impl Site {
    /// The number, from 0 to 3.
    pub fn number(self) -> u8
        ensures value { result ≡ self }
        ensures below { result < 4 }
    {
        self.number
    }
}
