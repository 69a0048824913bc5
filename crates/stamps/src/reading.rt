//! What a server's physical clock shows.
ghost use Rattle.std.specs.Prelude.{◌≡◌, ◌^◌, ◌<◌};
ghost use Rattle.stamps.specs.Checks.{checked_reading};

use crate::refusal::Refusal;
use std::marker::Model;

// No stamp of another range: a clock rule takes both, and they are not to be exchanged.
/// A time of 47 bits. The default is 0, which a clock shows before it was told a time.
#[derive(Clone, Copy, Debug, Default, PartialEq, Eq, PartialOrd, Ord, Hash)]
pub struct Reading {
    time: u64,
}

// In clauses a reading is its time.
impl Model for Reading {
    ghost use Rattle.std.specs.Prelude.{ℕ, ◌^◌, ◌<◌};

    ghost Value = { ℕ };

    ghost view = { λ r. r.time };

    ghost invariant = { λ r. r.time < 2 ^ 47 };

    ghost inverse = { λ n. record { time = n } };
}

/// The reading of a plain number. `Unlawful` from 2^47 on.
impl TryFrom<u64> for Reading {
    type Error = Refusal;

    ghost try_from_gives = { λ time reading. reading ≡ checked_reading time };

    fn try_from(time: u64) -> Result<Reading, Refusal> {
        if time >= 1 << 47 {
            return Err(Refusal::Unlawful);
        }
        Ok(Reading { time })
    }
}

impl Reading {
    /// What a clock shows before it was told a time.
    pub fn zero() -> Reading
        ensures { result ≡ 0 }
    {
        Reading { time: 0 }
    }

    /// The time, in the unit of a stamp's time: below 2^47.
    pub fn time(self) -> u64
        ensures value { result ≡ self }
        ensures below { result < 2 ^ 47 }
    {
        self.time
    }
}
