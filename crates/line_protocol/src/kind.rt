use thiserror::Error;

/// Why a line is bad.
#[derive(Clone, Copy, Debug, PartialEq, Eq, Error)]
pub enum BadKind {
    /// The input passes 2^30 bytes within the line, its line feed counted.
    #[error("the input has more than 2^30 bytes")]
    Total,
    /// The line has more than 8 MiB without its line feed.
    #[error("the line has more than 8 MiB")]
    Long,
    #[error("no JSON")]
    Json,
    #[error("a number that is not allowed")]
    Number,
    #[error("another shape than is wanted")]
    Shape,
    #[error("out of order")]
    Order,
    #[error("not an address")]
    Address,
    #[error("not a list of coins")]
    Coins,
    #[error("a supply of 2^128 or more")]
    Supply,
    /// The input ends without a genesis.
    #[error("no genesis")]
    Missing,
    #[error("not base64")]
    Base64,
}
