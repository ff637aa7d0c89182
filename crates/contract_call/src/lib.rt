//! A contract's call: it is entered, runs, asks queries, and hands its result over.
#![tactic(auto)]

mod entering;
mod entry;
mod going;
mod handing;
mod running;
mod stage;
mod step;
mod stop;
mod turning;

pub use entry::Entry;
pub use host_imports::CallFault;
pub use running::Running;
pub use step::Step;
