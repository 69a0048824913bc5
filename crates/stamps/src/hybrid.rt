//! The hybrid logical clock: the greatest time known, and a count within it.
ghost use Rattle.std.specs.Prelude.{◌≡◌, ◌+◌, ◌^◌, ◌<◌, ◌≤◌};
ghost use Rattle.stamps.specs.Clocks.{hybrid_rule, carry};
ghost use Rattle.stamps.specs.Stamps.{stamp_of};
ghost use Rattle.stamps.specs.BuiltRulesLawful.{hybrid_lawful};

use crate::clock_rule::ClockRule;
use crate::reading::Reading;
use crate::refusal::Refusal;
use crate::stamp::{COUNTS, Stamp};

/// Never early; at its end once one of the two stamps is the top stamp.
#[derive(Clone, Copy, Debug)]
pub struct Hybrid;

impl ClockRule for Hybrid {
    ghost answer = { hybrid_rule };

    ghost lawful = { hybrid_lawful };

    fn stamp(last: Stamp, reading: Reading, dependency: Stamp) -> Result<Stamp, Refusal> {
        if last == Stamp::top() || dependency == Stamp::top() {
            return Err(Refusal::End);
        }
        let time = last.time().max(dependency.time()).max(reading.time());
        let count = match (last.time() == time, dependency.time() == time) {
            (true, true) => last.count().max(dependency.count()) + 1,
            (true, false) => last.count() + 1,
            (false, true) => dependency.count() + 1,
            (false, false) => 0,
        };
        Ok(carry(time, count))
    }
}

// The stamp of a time and a count; a count that passes its 16 bits becomes one more of the time.
fn carry(time: u64, count: u64) -> Stamp
    requires { (stamp_of time count < 2 ^ 63) × (count ≤ 65536) }
    ensures { result ≡ carry time count }
{
    if count >= COUNTS {
        Stamp::of(time + 1, 0)
    } else {
        Stamp::of(time, count)
    }
}
