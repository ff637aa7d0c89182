use chain_msgs::{Event, Response};
use contract_call::Entry;

/// A contract that is called.
#[derive(Drop)]
pub(crate) struct Callee {
    pub addr: Vec<u8>,
    /// The address as a text.
    pub text: String,
    pub code_id: u64,
}

/// A contract that was called, and what it told.
#[derive(Drop)]
pub(crate) struct Called {
    pub addr: Vec<u8>,
    /// The address as a text.
    pub contract: String,
    pub entry: Entry,
    /// The events of the call itself.
    pub own: Vec<Event>,
    pub response: Response,
}
