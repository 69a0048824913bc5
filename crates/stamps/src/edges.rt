//! The worked edges of both clock rules and of floor.
ghost use Rattle.std.specs.List.{AllByRecursion};
ghost use Rattle.stamps.specs.Edges.{edges, Holds};

use crate::clock_rule::ClockRule;
use crate::each::Each;
use crate::hybrid::Hybrid;
use crate::mark_kind::MarkKind;
use crate::one::One;
use crate::raw::Raw;

/// Does nothing. Its contract says that each edge of the table holds: what a rule answers there, or what the floor of a
/// row is.
pub fn edges_hold()
    ensures { AllByRecursion Holds (edges ⟦<Raw as ClockRule>⟧.answer ⟦<Hybrid as ClockRule>⟧.answer
        ⟦<One as MarkKind>⟧.kind ⟦<Each as MarkKind>⟧.kind) }
{}
