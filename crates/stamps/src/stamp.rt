//! A stamp: a time and a count within that time, as one number.
ghost use Rattle.std.specs.Prelude.{◌≡◌, ◌^◌, ◌<◌};
ghost use Rattle.stamps.specs.Stamps.{top_stamp, stamp_of, time_of, count_of};
ghost use Rattle.stamps.specs.Checks.{checked_stamp};

use crate::refusal::Refusal;
use std::marker::Model;

// So many stamps have one time.
pub(crate) const COUNTS: u64 = 65_536;

/// A time of 47 bits and a count of 16 bits, as the number time * 65,536 + count.
///
/// Stamps are ordered by time, then by count. The default is 0.0.
#[derive(Clone, Copy, Debug, Default, PartialEq, Eq, PartialOrd, Ord, Hash)]
pub struct Stamp {
    pub(crate) value: u64,
}

// In clauses a stamp is its number.
impl Model for Stamp {
    ghost use Rattle.std.specs.Prelude.{ℕ, ◌^◌, ◌<◌};

    ghost Value = { ℕ };

    ghost view = { λ s. s.value };

    ghost invariant = { λ s. s.value < 2 ^ 63 };

    ghost inverse = { λ n. record { value = n } };
}

/// The stamp of a plain number. `Unlawful` from 2^63 on.
impl TryFrom<u64> for Stamp {
    type Error = Refusal;

    ghost try_from_gives = { λ value stamp. stamp ≡ checked_stamp value };

    fn try_from(value: u64) -> Result<Stamp, Refusal> {
        if value >= 1 << 63 {
            return Err(Refusal::Unlawful);
        }
        Ok(Stamp { value })
    }
}

impl Stamp {
    pub(crate) fn of(time: u64, count: u64) -> Stamp
        requires { stamp_of time count < 2 ^ 63 }
        ensures { result ≡ stamp_of time count }
    {
        Stamp {
            value: time * COUNTS + count,
        }
    }

    /// The stamp 0.0, below which there is none.
    pub fn zero() -> Stamp
        ensures { result ≡ 0 }
    {
        Stamp { value: 0 }
    }

    /// The top stamp, above which there is none.
    pub fn top() -> Stamp
        ensures { result ≡ top_stamp }
    {
        Stamp {
            value: (1 << 63) - 1,
        }
    }

    /// The whole number, below 2^63.
    pub fn value(self) -> u64
        ensures value { result ≡ self }
        ensures below { result < 2 ^ 63 }
    {
        self.value
    }

    /// The time, in the unit of the readings: below 2^47.
    pub fn time(self) -> u64
        ensures value { result ≡ time_of self }
        ensures below { result < 2 ^ 47 }
    {
        self.value / COUNTS
    }

    /// The count within the time: below 65,536.
    pub fn count(self) -> u64
        ensures { result ≡ count_of self }
    {
        self.value % COUNTS
    }
}
