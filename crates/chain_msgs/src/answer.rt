/// What a query answers.
#[derive(Debug, Drop)]
pub enum Answer {
    Ok(Vec<u8>),
    /// The contract's own error text.
    ContractError(String),
    System(SystemError),
}

/// Why the host itself could not answer a query.
#[derive(Debug, Drop)]
pub enum SystemError {
    InvalidRequest { error: String, request: Vec<u8> },
    UnsupportedRequest { kind: String },
    NoSuchContract { addr: String },
    NoSuchCode { code_id: u64 },
}
