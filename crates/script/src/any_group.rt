//! A group of any of the clock rules and kinds of mark that are built, or none yet.
ghost use Rattle.std.specs.Prelude.{◌≡◌, is_ok};
ghost use Rattle.script.specs.Promises.{KeepsAll, StillKeepsAll};
ghost use Rattle.script.specs.ScriptGroups.{ScriptGroup, answer_of_making, make_group, no_group, obey, script_group};

use crate::answer::Answer;
use crate::choice::{Choice, Clock, Marks};
use crate::command::Command;
use crate::obeys::Obeys;
use crate::perform::perform;
use group::group::Group;
use stamps::each::Each;
use stamps::hybrid::Hybrid;
use stamps::one::One;
use stamps::raw::Raw;
use stamps::refusal::Refusal;

/// A group of any of the clock rules and kinds of mark that are built, or none yet.
#[derive(Drop)]
pub enum AnyGroup {
    /// No group was made.
    // With an `Option` around the groups each command would be copied once more.
    NoGroup,
    /// The raw rule, and one stamp for all sites.
    RawOne(Group<Raw, One>),
    /// The raw rule, and a stamp for each site.
    RawEach(Group<Raw, Each>),
    /// The hybrid rule, and one stamp for all sites.
    HybridOne(Group<Hybrid, One>),
    /// The hybrid rule, and a stamp for each site.
    HybridEach(Group<Hybrid, Each>),
}

impl Obeys for AnyGroup {
    ghost State = { ScriptGroup };

    ghost state = { script_group };

    ghost obey_gives = { obey };

    fn obey(&mut self, command: Command) -> Result<Answer, Refusal> {
        // The pairs are all known; a `dyn` would need memory.
        match self {
            AnyGroup::NoGroup => self.make(command),
            AnyGroup::RawOne(group) => perform(group, command),
            AnyGroup::RawEach(group) => perform(group, command),
            AnyGroup::HybridOne(group) => perform(group, command),
            AnyGroup::HybridEach(group) => perform(group, command),
        }
    }
}

impl AnyGroup {
    /// Does nothing. Its contract is the theorem, for whichever group it is: calls lead to it, and it keeps the
    /// promises from here on.
    pub fn promises(&self)
        ensures { StillKeepsAll (script_group self.now) }
    {
        match self {
            AnyGroup::NoGroup => {}
            AnyGroup::RawOne(group) => group.promises(),
            AnyGroup::RawEach(group) => group.promises(),
            AnyGroup::HybridOne(group) => group.promises(),
            AnyGroup::HybridEach(group) => group.promises(),
        }
    }

    /// Makes the group of the first command.
    // It is kept out of `obey`, which would pay for its large locals at each command.
    #[inline(never)]
    fn make(&mut self, command: Command) -> Result<Answer, Refusal>
        requires { script_group self.old ≡ no_group }
        ensures step { (result, script_group self.new) ≡ answer_of_making (make_group command) }
        ensures promises { KeepsAll (script_group self.new) }
    {
        let Choice {
            layout,
            clock,
            marks,
        } = Choice::try_from(command)?;
        match (clock, marks) {
            (Clock::Raw, Marks::One) => *self = AnyGroup::RawOne(Group::new(layout)),
            (Clock::Raw, Marks::Each) => *self = AnyGroup::RawEach(Group::new(layout)),
            (Clock::Hybrid, Marks::One) => *self = AnyGroup::HybridOne(Group::new(layout)),
            (Clock::Hybrid, Marks::Each) => *self = AnyGroup::HybridEach(Group::new(layout)),
        }
        Ok(Answer::Done)
    }
}

/// Whether a script's first command makes a group.
pub(crate) fn makes_group(command: Command) -> bool
    ensures { result ≡ is_ok (make_group command) }
{
    Choice::try_from(command).is_ok()
}
