//! What the host does where a contract calls an import, and the Regions that it gives to a contract.
#![tactic(auto)]

mod abort;
mod address_stop;
mod addresses;
mod allocation;
mod answering;
mod charge;
mod exports;
mod fault;
mod given;
mod handled;
mod host;
mod regions;
mod request;
mod scans;
mod settled;
mod spelling;
mod steps;
mod stop;
mod storage;
mod text;

pub use allocation::{give, release};
pub use exports::exported_function;
pub use fault::CallFault;
pub use given::Given;
pub use handled::Handled;
pub use host::handle;
