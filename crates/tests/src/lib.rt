//! Tests of all crates, through what they make public.
#![tactic(auto)]

mod callers;
#[cfg(test)]
mod groups;
#[cfg(test)]
mod one_server;
#[cfg(test)]
mod scripts;
#[cfg(test)]
mod snapshots;
#[cfg(test)]
mod stamps_and_marks;
#[cfg(test)]
mod worked_case;
