//! What a query is answered on the state of the chain.
#![tactic(auto)]

mod answers;
mod bank;
mod calls;
mod charge;
mod codes;
mod contracts;
mod end;
mod entries;
mod forms;
mod records;
mod request;
mod router;
mod stop;

pub use end::CallEnd;
pub use entries::call_contract;
pub use router::query;
pub use stop::QueryStop;
