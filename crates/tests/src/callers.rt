//! What a caller can prove: the range of a number that stands behind a reference, and of the rule and the kind that a
//! layout chooses.
ghost use Rattle.std.specs.Prelude.{◌≡◌, ◌<◌, ◌^◌};
ghost use Rattle.stamps.specs.Clocks.{raw_rule};
ghost use Rattle.script.specs.declared.choice.Clock.TheVariants.{Raw};
ghost use Rattle.script.specs.declared.choice.Marks.TheVariants.{Each};
ghost use Rattle.script.specs.ScriptGroups.{clock_rule_of, mark_kind_of};

use stamps::reading::Reading;
use stamps::site::Site;
use stamps::stamp::Stamp;

/// A stamp's whole number, below 2^63.
fn stamp_number(stamp: &Stamp) -> u64
    ensures { result < 2 ^ 63 }
{
    stamp.value()
}

/// A reading's time, below 2^47.
fn reading_time(reading: &Reading) -> u64
    ensures { result < 2 ^ 47 }
{
    reading.time()
}

/// A site's number, from 0 to 3.
fn site_number(site: &Site) -> u8
    ensures { result < 4 }
{
    site.number()
}

/// Does nothing. Its contract names the rule and the kind that a layout can choose.
fn choices_are_named()
    ensures rule { clock_rule_of Raw ≡ raw_rule }
    ensures kind { (mark_kind_of Each).columns ≡ 4 }
{}
