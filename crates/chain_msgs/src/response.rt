use crate::event::{Attribute, Event};
use crate::messages::CosmosMsg;
use json_shapes::Want;
use thiserror::Error;

/// When a contract wants to hear what became of its submessage.
#[derive(Clone, Copy, Debug, PartialEq, Eq)]
pub enum ReplyOn {
    Always,
    Error,
    Success,
    Never,
}

/// A message that a contract sends, and what it wants to hear of it.
#[derive(Debug, Drop)]
pub struct SubMsg {
    pub id: u64,
    pub msg: CosmosMsg,
    pub gas_limit: Option<u64>,
    pub reply_on: ReplyOn,
}

/// What a contract answers to a call that isn't a query.
#[derive(Debug, Drop)]
pub struct Response {
    pub messages: Vec<SubMsg>,
    pub attributes: Vec<Attribute>,
    pub events: Vec<Event>,
    pub out: Option<Vec<u8>>,
}

/// What a contract tells: a value, or the text of its error.
#[derive(Debug, Drop)]
pub enum Told<T> {
    Ok(T),
    Error(String),
}

/// Why a contract's answer was not read. The first that holds is told.
#[derive(Debug, PartialEq, Eq, Drop, Error)]
pub enum ResponseStop {
    #[error("no JSON of nesting at most 127 with integers of 64 bits")]
    Json,
    /// At the path, the names of fields and the places in lists joined by dots, something else belongs.
    #[error("{want} belongs at `{path}`")]
    Shape { path: String, want: Want },
    /// An attribute's key is empty or begins with `_`, or an event's type has fewer than 2 bytes: in
    /// the response itself at 0, else in the event of this number, from 1.
    #[error("a name that is reserved or too short in event {0}")]
    Event(usize),
    #[error("out of memory")]
    NoMemory,
}
