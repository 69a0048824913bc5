//! The stamp of an entry of an outbox.
ghost use Rattle.std.specs.Prelude.{◌≡◌, ◌≤◌};

use crate::stamp::Stamp;
use std::fmt;
use std::fmt::{Debug, Formatter};
use std::marker::Model;

/// A stamp that a clock rule may give: at least 1, since it is above the stamp before it.
///
/// The default is the least one, 0.1, for unused places of tables.
#[derive(Clone, Copy, Default, PartialEq, Eq, Hash)]
pub struct IssuedStamp {
    // One less than the stamp: so the default is all zero bits, and a table of them is cleared at once.
    before: u64,
}

// In clauses an issued stamp is its number.
impl Model for IssuedStamp {
    ghost use Rattle.std.specs.Prelude.{ℕ, ◌+◌, ◌-◌, ◌^◌, ◌<◌};

    ghost Value = { ℕ };

    ghost view = { λ s. s.before + 1 };

    ghost invariant = { λ s. s.before + 1 < 2 ^ 63 };

    ghost inverse = { λ n. record { before = n - 1 } };
}

impl IssuedStamp {
    pub(crate) fn of(stamp: Stamp) -> IssuedStamp
        requires { 1 ≤ stamp }
        ensures { result ≡ stamp }
    {
        IssuedStamp {
            before: stamp.value() - 1,
        }
    }
}

/// Shown as its stamp.
impl Debug for IssuedStamp {
    fn fmt<W: fmt::Write>(&self, f: &mut Formatter<W>) -> fmt::Result {
        Stamp::from(*self).fmt(f)
    }
}

impl From<IssuedStamp> for Stamp {
    ghost from_gives = { λ issued stamp. (stamp ≡ issued) × (1 ≤ stamp) };

    fn from(issued: IssuedStamp) -> Stamp {
        Stamp {
            value: issued.before + 1,
        }
    }
}
