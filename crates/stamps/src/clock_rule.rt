//! What a clock rule is.
ghost use Rattle.std.specs.Prelude.{◌≡◌};
ghost use Rattle.stamps.specs.Clocks.{IsAllowed, IsLawfulRule, Rule};

use crate::issued_stamp::IssuedStamp;
use crate::reading::Reading;
use crate::refusal::Refusal;
use crate::stamp::Stamp;

/// A way to make the next stamp of a server.
pub trait ClockRule {
    // What the rule answers to a last stamp, a reading and a dependency stamp.
    ghost answer: { Rule };

    /// The next stamp, above the server's last one and above what it depends on; or `Early`, or `End`.
    // The three are all that a rule is asked. No struct has them: nothing keeps them together before or after.
    fn stamp(last: Stamp, reading: Reading, dependency: Stamp) -> Result<Stamp, Refusal>
        ensures value { result ≡ answer last reading dependency }
        ensures allowed { IsAllowed last dependency result };

    // The whole meaning of a rule: an answered stamp is above both stamps, and a refusal is early or end.
    ghost lawful: { IsLawfulRule answer };
}

/// What a rule answers, as the stamp of an entry.
pub fn next_stamp<C: ClockRule>(
    last: Stamp,
    reading: Reading,
    dependency: Stamp,
) -> Result<IssuedStamp, Refusal>
    ensures value { result ≡ C.answer last reading dependency }
    ensures allowed { IsAllowed last dependency result }
{
    Ok(IssuedStamp::of(C::stamp(last, reading, dependency)?))
}
