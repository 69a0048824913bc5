//! The promises of a group, for every clock rule and every kind of mark.
ghost use Rattle.group.specs.Model.GroupStore.{GroupKeepsPromises, IsLayoutBounded};

use stamps::clock_rule::ClockRule;
use stamps::mark_kind::MarkKind;

// Does nothing. Its contract is the theorem, for a layout of these counts.
fn promises_hold<C: ClockRule, K: MarkKind>(sites: u8, partitions: u8)
    ensures { IsLayoutBounded sites partitions → GroupKeepsPromises C.answer K.kind sites partitions }
{}
