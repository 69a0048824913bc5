//! Clock rules and kinds of mark, asked with plain numbers: these are checked first, stamps before readings and sites.
ghost use Rattle.std.specs.Prelude.{◌≡◌};
ghost use Rattle.std.specs.Result.{result_map_both};
ghost use Rattle.stamps.specs.Outside.{stamp_from, signed_number, floor_from, lift_from};

use crate::clock_rule::ClockRule;
use crate::mark_kind::MarkKind;
use crate::reading::Reading;
use crate::refusal::Refusal;
use crate::row::Row;
use crate::site::Site;
use crate::stamp::Stamp;

/// What a rule answers to three numbers. `Unlawful` if one of them is no stamp or no reading.
pub fn stamp_from<C: ClockRule>(last: u64, reading: u64, dependency: u64) -> Result<Stamp, Refusal>
    ensures { result ≡ stamp_from C.answer last reading dependency }
{
    let last = Stamp::try_from(last)?;
    let dependency = Stamp::try_from(dependency)?;
    let reading = Reading::try_from(reading)?;
    C::stamp(last, reading, dependency)
}

// An answer as one signed number, for callers in other languages.
fn signed_number(answer: Result<Stamp, Refusal>) -> i64
    ensures { result ≡ signed_number answer }
{
    match answer {
        Ok(stamp) => stamp.value() as i64,
        Err(why) => -i64::from(why.number()),
    }
}

/// The same as one signed number: the stamp, or minus the refusal's number.
pub fn signed_stamp<C: ClockRule>(last: u64, reading: u64, dependency: u64) -> i64
    ensures { result ≡ signed_number (stamp_from C.answer last reading dependency) }
{
    signed_number(stamp_from::<C>(last, reading, dependency))
}

/// The floor of four numbers as a row. `Unlawful` if one of them is no stamp.
pub fn floor_from<K: MarkKind>(entries: [u64; 4]) -> Result<K::Mark, Refusal>
    ensures { result_map_both K.meaning (λ why. why) result ≡ floor_from K.kind entries }
{
    Ok(K::floor(Row::try_from(entries)?))
}

/// The lift of a stamp at a site. `Unlawful` if it is no stamp; `NotInLayout` if it is no site.
pub fn lift_from<K: MarkKind>(site: u8, stamp: u64) -> Result<K::Mark, Refusal>
    ensures { result_map_both K.meaning (λ why. why) result ≡ lift_from K.kind site stamp }
{
    let stamp = Stamp::try_from(stamp)?;
    let site = Site::try_from(site)?;
    Ok(K::lift(site, stamp))
}
