use coin_amounts::RawCoin;

/// The first line of a run: the chain's facts, and what each account holds at height 0.
#[derive(Debug, Drop)]
pub struct Genesis {
    pub chain_id: String,
    /// Nanoseconds since 1970.
    pub time: u64,
    /// The prefix of the chain's addresses: 1 to 20 letters a to z.
    pub prefix: String,
    pub authority: Option<String>,
    pub capabilities: Vec<String>,
    pub balances: Vec<(String, Vec<RawCoin>)>,
    /// The gas that each query has.
    pub query_gas: u64,
}
