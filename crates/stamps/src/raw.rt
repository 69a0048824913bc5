//! The raw rule: the physical clock alone, refused while it is not ahead.
ghost use Rattle.stamps.specs.Clocks.{raw_rule};
ghost use Rattle.stamps.specs.BuiltRulesLawful.{raw_lawful};

use crate::clock_rule::ClockRule;
use crate::reading::Reading;
use crate::refusal::Refusal;
use crate::stamp::Stamp;

/// The first stamp of the reading; early while that is not above both stamps.
#[derive(Clone, Copy, Debug)]
pub struct Raw;

impl ClockRule for Raw {
    ghost answer = { raw_rule };

    ghost lawful = { raw_lawful };

    fn stamp(last: Stamp, reading: Reading, dependency: Stamp) -> Result<Stamp, Refusal> {
        let made = Stamp::of(reading.time(), 0);
        if made <= last || made <= dependency {
            return Err(Refusal::Early);
        }
        Ok(made)
    }
}
