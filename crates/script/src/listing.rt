//! A script over a group that the caller made, of any clock rule and kind of mark, listed line by line.
ghost use Rattle.std.specs.Prelude.{◌≡◌};
ghost use Rattle.script.specs.Scripts.{script_state};
ghost use Rattle.script.specs.Listings.{after_layout, GoesOnAsScript};
ghost use Rattle.group.specs.Groups.{view as group_view};

use crate::script::ScriptOver;
use crate::script_bytes::{MOST_SCRIPT_BYTES, first_bytes};
use group::group::Group;
use stamps::clock_rule::ClockRule;
use stamps::mark_kind::MarkKind;

/// The commands that follow a layout, over the group that it has made.
pub type Listing<'a, C, K> = ScriptOver<'a, Group<C, K>>;

// The bytes of a layout, which count among those of its script.
const LAYOUT_BYTES: usize = 5;

impl<'a, C: ClockRule, K: MarkKind> Listing<'a, C, K> {
    /// The commands that follow the layout of a group. Its line was the first, so theirs count from 2. Bytes past the
    /// first 65,530 are no part of the script.
    pub fn new(group: Group<C, K>, bytes: &'a [u8]) -> Self
        ensures state { script_state group_view result ≡ after_layout (group_view group) bytes.now }
        ensures continues { GoesOnAsScript }
    {
        ScriptOver {
            rest: first_bytes(bytes, MOST_SCRIPT_BYTES - LAYOUT_BYTES),
            lines: 1,
            group,
        }
    }
}
