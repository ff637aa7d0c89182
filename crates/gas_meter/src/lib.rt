//! Gas: a meter that counts what is used of a limit, and the schedule of what each step costs.
#![tactic(auto)]

mod meter;
mod schedule;

pub use meter::{Meter, OutOfGas};
pub use schedule::Schedule;
