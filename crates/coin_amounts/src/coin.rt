/// An amount of one denom.
#[derive(Debug, Drop, PartialEq, Eq)]
pub struct Coin {
    pub denom: String,
    pub amount: u128,
}

/// A coin as it came, with its amount as a text. Nothing is known of either.
#[derive(Debug, Drop, PartialEq, Eq)]
pub struct RawCoin {
    pub denom: String,
    pub amount: String,
}
