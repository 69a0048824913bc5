//! The number of a partition.
use std::marker::Model;

/// A partition, 0 to 3: a site has at most four servers.
#[derive(Clone, Copy, Debug, PartialEq, Eq)]
pub(crate) struct Partition {
    pub(crate) number: u8,
}

// In clauses a partition is its number.
impl Model for Partition {
    ghost use Rattle.std.specs.Prelude.{ℕ, ◌<◌};

    ghost Value = { ℕ };

    ghost view = { λ p. p.number };

    ghost invariant = { λ p. p.number < 4 };

    ghost inverse = { λ n. record { number = n } };
}
