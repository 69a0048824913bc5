//! What a layout chooses: how large the group is, its clock rule and its kind of mark.
ghost use Rattle.std.specs.Prelude.{◌≡◌};
ghost use Rattle.std.specs.Result.{result_map_both};
ghost use Rattle.script.specs.ScriptGroups.{clock_of, group_of, make_group, marks_of};

use crate::command::Command;
use group::layout::{Draft, Layout};
use stamps::refusal::Refusal;

/// A clock rule that is built.
#[derive(Clone, Copy, Debug, PartialEq, Eq)]
pub enum Clock {
    /// The first stamp of the reading.
    Raw,
    /// The hybrid logical clock.
    Hybrid,
}

/// A kind of mark that is built.
#[derive(Clone, Copy, Debug, PartialEq, Eq)]
pub enum Marks {
    /// One stamp for all sites.
    One,
    /// A stamp for each site.
    Each,
}

/// A checked layout, with the clock rule and the kind of mark of its group.
#[derive(Clone, Copy)]
pub(crate) struct Choice {
    pub(crate) layout: Layout,
    pub(crate) clock: Clock,
    pub(crate) marks: Marks,
}

/// The clock rule of a letter. `BadLayout` if it is neither R nor H.
impl TryFrom<char> for Clock {
    type Error = Refusal;

    ghost try_from_gives = { λ letter r. r ≡ clock_of letter };

    fn try_from(letter: char) -> Result<Clock, Refusal> {
        match letter {
            'R' => Ok(Clock::Raw),
            'H' => Ok(Clock::Hybrid),
            _ => Err(Refusal::BadLayout),
        }
    }
}

/// The kind of mark of a letter. `BadLayout` if it is neither O nor E.
impl TryFrom<char> for Marks {
    type Error = Refusal;

    ghost try_from_gives = { λ letter r. r ≡ marks_of letter };

    fn try_from(letter: char) -> Result<Marks, Refusal> {
        match letter {
            'O' => Ok(Marks::One),
            'E' => Ok(Marks::Each),
            _ => Err(Refusal::BadLayout),
        }
    }
}

// The choice of a script's first command, which has to be a layout.
impl TryFrom<Command> for Choice {
    type Error = Refusal;

    ghost try_from_gives = { λ command r. result_map_both group_of (λ why. why) r ≡ make_group command };

    fn try_from(command: Command) -> Result<Choice, Refusal> {
        let Command::Layout {
            sites,
            partitions,
            clock,
            marks,
        } = command
        else {
            return Err(Refusal::LayoutMisplaced);
        };
        Ok(Choice {
            layout: Draft { sites, partitions }.check()?,
            clock: Clock::try_from(clock)?,
            marks: Marks::try_from(marks)?,
        })
    }
}
