/// What a query asks.
#[derive(Drop)]
pub(crate) enum Request {
    Smart { contract: String, msg: Vec<u8> },
    Raw { contract: String, key: Vec<u8> },
    ContractInfo(String),
    CodeInfo(u64),
    Balance { address: String, denom: String },
    AllBalances(String),
    Supply(String),
    /// Any other, by its kind.
    Unknown(String),
}

/// What the bytes of a request say.
#[derive(Drop)]
pub(crate) enum Asked {
    /// They are no JSON with whole numbers.
    NoJson,
    /// They are no request.
    NoShape,
    Asks(Request),
}
