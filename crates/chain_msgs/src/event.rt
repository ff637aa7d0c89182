/// A key and a value of an event.
#[derive(Debug, Drop)]
pub struct Attribute {
    pub key: String,
    pub value: String,
}

/// What happened in a call, as a client reads it.
#[derive(Debug, Drop)]
pub struct Event {
    pub kind: String,
    pub attributes: Vec<Attribute>,
}
