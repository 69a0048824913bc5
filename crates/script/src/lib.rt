//! The step script: bytes to commands, commands to answers, answers to lines, a script to its listing.
#![tactic(auto)]

pub mod answer;
pub mod any_group;
pub mod choice;
pub mod command;
pub mod line;
pub mod list;
pub mod listing;
pub mod obeys;
mod perform;
pub mod reader;
pub mod script;
mod script_bytes;
pub mod worked_case;
