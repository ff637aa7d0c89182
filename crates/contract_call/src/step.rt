use host_imports::CallFault;

/// What a call comes to.
#[derive(Debug, Drop, PartialEq, Eq)]
pub enum Step {
    /// It is over, with this result.
    Finished(Vec<u8>),
    /// The contract waits for the answer to this query.
    Query(Vec<u8>),
    Fault(CallFault),
    OutOfGas,
}
