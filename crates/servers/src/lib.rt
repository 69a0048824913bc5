//! One server of one site: its versions, its outbox, its marks and its clock.
#![tactic(auto)]

mod counts;
pub mod entry;
mod outbox;
pub mod peers;
pub mod percent;
pub mod server;
mod table;
pub mod value;
pub mod version;
mod version_test;
