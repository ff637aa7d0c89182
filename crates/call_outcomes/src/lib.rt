//! What a contract's call gives: the response or the failure that its result tells, the events of the call,
//! and what a reply is told of it.
#![tactic(auto)]

mod events;
mod replies;
mod results;
mod stop;

pub use events::{attribute, call_event, code_event, tell_events};
pub use replies::{address_told, data_told, failure_told, wants_reply};
pub use results::{fault_failure, read_result};
pub use stop::CallStop;
