//! What comes of an import that a contract calls.

use crate::fault::CallFault;

/// What comes of an import that a contract calls.
#[derive(Debug, Drop, PartialEq, Eq)]
pub enum Handled {
    /// The machine has its answer, and can be run again.
    Answered,
    /// The contract asks the chain this, and waits for the answer.
    WantsQuery(Vec<u8>),
    Fault(CallFault),
    OutOfGas,
}
