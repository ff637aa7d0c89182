use crate::event::Event;
use crate::failure::Failure;
use serde_json::Value;

/// A transaction: messages that its sender wants done together, with the gas that they may use.
#[derive(Debug, Drop)]
pub struct Tx {
    pub sender: String,
    pub gas: u64,
    pub msgs: Vec<Value>,
}

/// What a block line says.
#[derive(Debug, Drop)]
pub struct Block {
    /// Nanoseconds since 1970.
    pub time: u64,
    pub txs: Vec<Tx>,
}

/// What a transaction did. A failed one has no outs and no events.
#[derive(Debug, Drop)]
pub struct TxResult {
    pub failure: Option<Failure>,
    /// What each message gave back.
    pub outs: Vec<Option<Vec<u8>>>,
    pub events: Vec<Event>,
    /// The gas used.
    pub gas: u64,
}
