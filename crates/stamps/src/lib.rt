//! Stamps, the clock rules that make them, rows of stamps, and kinds of mark with their common floor.
#![tactic(auto)]

pub mod clock_rule;
pub mod common_floor;
pub mod each;
pub mod edges;
pub mod hybrid;
pub mod issued_stamp;
pub mod mark_kind;
pub mod one;
pub mod outside;
pub mod raw;
pub mod reading;
pub mod refusal;
pub mod row;
pub mod site;
pub mod stamp;
