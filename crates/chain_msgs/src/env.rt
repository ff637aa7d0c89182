/// What a contract is told of the block and of itself.
#[derive(Debug, Drop)]
pub struct Env {
    pub height: u64,
    /// Nanoseconds since 1970.
    pub time: u64,
    pub chain_id: String,
    /// The transaction's place in its block; none in a query.
    pub index: Option<u32>,
    /// The address of the contract.
    pub contract: String,
}
