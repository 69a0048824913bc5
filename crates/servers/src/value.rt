//! What a version says of its key.
ghost use Rattle.std.specs.Prelude.{◌≡◌};
ghost use Rattle.servers.specs.Bases.{amount_of_basis};
ghost use Rattle.servers.specs.Values.{value_from, amount_of};

use crate::percent::Percent;
use stamps::refusal::Refusal;

/// What a percentage is measured against.
#[derive(Clone, Copy, Debug, PartialEq, Eq, Hash)]
pub enum Basis {
    /// The finished part.
    Part = 0,
    /// The whole sheet.
    Sheet = 1,
}

impl Basis {
    pub(crate) fn amount(self) -> u32
        ensures { result ≡ amount_of_basis self }
    {
        self as u32
    }
}

/// What is said of a key: one case for each kind.
#[derive(Clone, Copy, Debug, Default, PartialEq, Eq, Hash)]
pub enum Value {
    /// The key has no value any more.
    #[default]
    Gone,
    /// A price in cents.
    Price(u32),
    /// A percentage of scrap.
    Percent(Percent),
    /// What the percentages of a shop are measured against.
    Basis(Basis),
}

impl Value {
    /// The value of a kind byte and an amount, as a script has them; refused as `Unlawful` if there is none.
    pub fn new(kind: u8, amount: u32) -> Result<Value, Refusal>
        ensures { result ≡ value_from kind amount }
    {
        match (kind, amount) {
            (0, 0) => Ok(Value::Gone),
            (1, cents) => Ok(Value::Price(cents)),
            (2, hundredths) => Ok(Value::Percent(Percent::try_from(hundredths)?)),
            (3, 0) => Ok(Value::Basis(Basis::Part)),
            (3, 1) => Ok(Value::Basis(Basis::Sheet)),
            _ => Err(Refusal::Unlawful),
        }
    }

    /// Its amount in a script: cents, hundredths, 0 or 1 for a basis, and 0 where there is no value.
    pub fn amount(self) -> u32
        ensures { result ≡ amount_of self }
    {
        match self {
            Value::Gone => 0,
            Value::Price(cents) => cents,
            Value::Percent(percent) => percent.hundredths,
            Value::Basis(basis) => basis.amount(),
        }
    }
}
