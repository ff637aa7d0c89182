use crate::entry::Entry;

/// How far a call is.
#[derive(Debug, Drop)]
pub enum Stage {
    /// Nothing was done yet.
    New {
        entry: Entry,
        args: Vec<Vec<u8>>,
        pinned: bool,
    },
    /// The contract waits for the answer to its query.
    Waits,
    /// The answer is there, and is to be given to the contract.
    Answered(Vec<u8>),
    /// It is over.
    Over,
}
