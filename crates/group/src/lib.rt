//! A group of sites, made from a checked layout, and the calls on it; the same in plain numbers, with its promises and
//! their proof.
#![tactic(auto)]

pub mod group;
mod group_parts;
pub mod layout;
mod partition;
mod place;
mod promises;
mod seat;
mod seats;
mod session;
pub mod shown;
pub mod ticket;
pub mod worked_case;
