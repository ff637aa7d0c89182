//! The storage of one contract during a call: reads, writes and scans, each charged before its effect.
#![tactic(auto)]

mod access;
mod charge;
mod laws;
mod places;
mod scan;
mod scans;
mod scoped;
mod stop;

pub use laws::{storages_are_typed, storages_change_alone};
pub use scoped::Scoped;
pub use stop::StoreStop;
