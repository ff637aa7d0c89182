use chain_msgs::Answer;

/// What a query line is answered.
#[derive(Debug, Drop)]
pub enum QueryResult {
    Answer(Answer),
    OutOfGas,
    /// The asked height is past the newest one.
    NotYet { newest: u64 },
    /// The asked height is no longer kept.
    Pruned { oldest: u64, newest: u64 },
}

/// The answer to a query line.
#[derive(Debug, Drop)]
pub struct QueryReply {
    /// The number of the query's line.
    pub line: u64,
    pub client: u32,
    /// The newest height that the query saw.
    pub n: u64,
    /// The height that it was answered from, or asked for.
    pub height: u64,
    /// The gas used.
    pub gas: u64,
    pub result: QueryResult,
}
