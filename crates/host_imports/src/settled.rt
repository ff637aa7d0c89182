//! What comes of an import that neither faulted nor ran out of gas.

/// What comes of an import that neither faulted nor ran out of gas.
#[derive(Debug, Drop)]
pub(crate) enum Settled {
    Answered,
    /// The contract asks the chain this, and waits for the answer.
    WantsQuery(Vec<u8>),
}
