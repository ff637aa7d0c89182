use crate::event::Event;

/// What became of a submessage.
#[derive(Debug, Drop)]
pub enum ReplyResult {
    Ok {
        events: Vec<Event>,
        out: Option<Vec<u8>>,
    },
    Error(String),
}

/// What a contract hears of its submessage of this id.
#[derive(Debug, Drop)]
pub struct Reply {
    pub id: u64,
    pub result: ReplyResult,
}
