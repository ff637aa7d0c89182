use crate::step::Step;
use host_imports::CallFault;

/// Why a part of a call gave nothing.
#[derive(Debug, Drop)]
pub(crate) enum Stop {
    Fault(CallFault),
    OutOfGas,
    NoMemory,
}

/// Where a call stands still.
#[derive(Debug, Drop)]
pub(crate) enum Pause {
    /// It is over, with this result.
    Finished(Vec<u8>),
    /// The contract waits for the answer to this query.
    Query(Vec<u8>),
}
