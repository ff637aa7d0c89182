//! Single records of the chain's state over layers: each is read and written under its key.
#![tactic(auto)]

mod reading;
mod views;
mod writing;

pub use reading::{code_info, contract, counters, facts, is_there};
pub use writing::{remove_pin, set_contract, set_counters, set_facts, set_pin};
