//! What comes of a Region that is given to a contract or taken back.

use crate::fault::CallFault;

/// What comes of a Region that is given to a contract or taken back.
#[derive(Debug, Drop, PartialEq, Eq)]
pub enum Given {
    /// The Region's pointer.
    At(u32),
    Fault(CallFault),
    OutOfGas,
}
