/// What holds of the whole chain.
#[derive(Debug, Drop, PartialEq, Eq)]
pub struct Facts {
    pub chain_id: String,
    /// What the texts of addresses begin with.
    pub prefix: String,
    /// Who may pin codes and the like.
    pub authority: Option<Vec<u8>>,
    /// What contracts may ask of the host.
    pub caps: Vec<String>,
    pub query_gas: u64,
    pub height: u64,
    /// In nanoseconds.
    pub time: u64,
}

/// The numbers that the next code and the next instance get.
#[derive(Clone, Copy, Debug, PartialEq, Eq)]
pub struct Counters {
    pub next_code: u64,
    pub next_instance: u64,
}

#[derive(Debug, Drop, PartialEq, Eq)]
pub struct CodeInfo {
    pub creator: Vec<u8>,
    pub checksum: [u8; 32],
    /// Who may instantiate the code; everybody where there is none.
    pub allow: Option<Vec<Vec<u8>>>,
}

#[derive(Debug, Drop, PartialEq, Eq)]
pub struct Contract {
    pub code_id: u64,
    pub creator: Vec<u8>,
    pub admin: Option<Vec<u8>>,
    pub label: String,
}

/// What is kept under a key.
#[derive(Debug, Drop, PartialEq, Eq)]
pub enum Stored {
    Facts(Facts),
    Counters(Counters),
    /// Of a balance or a supply.
    Amount(u128),
    CodeBytes(Vec<u8>),
    CodeInfo(CodeInfo),
    /// Of a pin.
    Mark,
    Contract(Contract),
    /// Of a contract's storage.
    Value(Vec<u8>),
}
