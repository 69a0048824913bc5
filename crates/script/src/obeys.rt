//! What obeys the commands of a script.
ghost use Rattle.std.specs.Prelude.{◌≡◌, Result};
ghost use Rattle.stamps.specs.declared.refusal.Refusal.{Refusal};
ghost use Rattle.script.specs.declared.command.Command.{Command};
ghost use Rattle.group.specs.Groups.{view as group_view};
ghost use Rattle.group.specs.Model.Groups.{GroupState};
ghost use Rattle.script.specs.declared.answer.Answer.{Answer};
ghost use Rattle.script.specs.CommandCalls.{perform};

use crate::answer::Answer;
use crate::command::Command;
use crate::perform::perform;
use group::group::Group;
use stamps::clock_rule::ClockRule;
use stamps::mark_kind::MarkKind;
use stamps::refusal::Refusal;

/// A group, or one that a layout has still to make.
pub trait Obeys {
    // What is known of it.
    ghost State: { Type 0 };

    ghost state: { Self → State };

    // What a command answers, or the refusal that ends the listing, and the state after it.
    ghost obey_gives: { State → Command → Result Answer Refusal × State };

    /// Performs a command, and gives its answer.
    ///
    /// # Errors
    ///
    /// The refusal that ends the listing: of a first command that makes no group, or of a later layout.
    fn obey(&mut self, command: Command) -> Result<Answer, Refusal>
        ensures { (result, state self.new) ≡ obey_gives (state self.old) command };
}

impl<C: ClockRule, K: MarkKind> Obeys for Group<C, K> {
    ghost State = { GroupState };

    ghost state = { group_view };

    ghost obey_gives = { perform C.answer K.kind };

    fn obey(&mut self, command: Command) -> Result<Answer, Refusal> {
        perform(self, command)
    }
}
