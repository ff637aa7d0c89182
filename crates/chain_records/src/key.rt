/// Under which key something is kept. An address is any bytes; before other bytes it has at most 255.
#[derive(Debug, Drop, PartialEq, Eq)]
pub enum Key {
    /// The chain's facts.
    Facts,
    Counters,
    /// What an address holds of a denom.
    Balance { addr: Vec<u8>, denom: String },
    /// How much there is of a denom.
    Supply(String),
    /// The bytes of a code.
    Code(u64),
    CodeInfo(u64),
    /// Set where the code is pinned.
    Pin(u64),
    Contract(Vec<u8>),
    /// What a contract keeps under a key of its own.
    Storage { addr: Vec<u8>, key: Vec<u8> },
}
