//! Percentages.
ghost use Rattle.std.specs.Prelude.{◌≡◌, ◌≤◌};

use stamps::refusal::Refusal;

/// A percentage in hundredths, from 0 to 10,000.
#[derive(Clone, Copy, Debug, PartialEq, Eq, Hash)]
pub struct Percent {
    /// At most 10,000.
    pub hundredths: u32,
    ghost in_range: { hundredths ≤ 10000 },
}

/// The percentage of so many hundredths; refused as `Unlawful` above 10,000.
impl TryFrom<u32> for Percent {
    ghost use Rattle.servers.specs.Percents.{checked_percent};

    type Error = Refusal;

    ghost try_from_gives = { λ hundredths percent. percent ≡ checked_percent hundredths };

    fn try_from(hundredths: u32) -> Result<Percent, Refusal> {
        if hundredths > 10_000 {
            return Err(Refusal::Unlawful);
        }
        Ok(Percent { hundredths })
    }
}
