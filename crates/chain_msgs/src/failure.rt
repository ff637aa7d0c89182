/// Why a transaction failed.
#[derive(Debug, Drop)]
pub enum FailKind {
    NotAuthority,
    NotAdmin,
    MayNotInstantiate,
    /// The account has less of the denom than is asked for.
    NotEnough {
        denom: String,
        have: u128,
        want: u128,
    },
    AddressBad,
    CoinsBad,
    OutOfGas,
    MessageBad,
    NoMessages,
    LabelBad,
    SaltBad,
    /// The gate's text for code that it refused.
    StoreRefused(String),
    AddressTaken,
    CallFailed,
    NoSuchCode(u64),
    TooDeep,
    TooManyCodes,
    TooManyPins,
    /// The kind of a message that isn't built.
    Unsupported(String),
    /// The address at which there is no contract.
    NoSuchContract(String),
}

/// A failure with what is printed of it: the codespace and code that name it, and its detail.
#[derive(Debug, Drop)]
pub struct Failure {
    pub kind: FailKind,
    pub codespace: String,
    pub code: u32,
    pub detail: String,
}
