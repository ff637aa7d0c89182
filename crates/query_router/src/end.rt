use contract_call::CallFault;

/// How a call ended that didn't run out of gas.
#[derive(Drop)]
pub enum CallEnd {
    /// With what the entry gave.
    Finished(Vec<u8>),
    Fault(CallFault),
}
