use thiserror::Error;

/// Why a text is not the text of an address, in the order in which the faults are looked for.
#[derive(Clone, Copy, Debug, PartialEq, Eq, Error)]
pub enum AddrKind {
    /// More than 256 bytes.
    #[error("more than 256 bytes")]
    TooLong,
    /// A byte outside 33 to 126, or one after the last `1` that is no letter of bech32.
    #[error("a character that may not stand there")]
    Character,
    /// A letter whose case differs from the first letter's.
    #[error("letters of both cases")]
    Mixed,
    /// No `1`, nothing before the last one, or fewer than six characters after it.
    #[error("no separator, or too little before or after it")]
    Separator,
    #[error("a wrong checksum")]
    Checksum,
    /// Another prefix than the one asked for.
    #[error("another prefix")]
    Prefix,
    /// Five bits or more, or bits other than 0, after the last byte.
    #[error("bits left over after the last byte")]
    Padding,
    /// No bytes, or more than 64.
    #[error("no bytes, or more than 64")]
    Length,
}

/// Where a text is at fault: the place of a character for `Character` and `Mixed`, else 0.
#[derive(Clone, Copy, Debug, PartialEq, Eq)]
pub struct Misread {
    pub kind: AddrKind,
    pub at: usize,
}

/// Why no bytes were read of a text.
#[derive(Clone, Copy, Debug, PartialEq, Eq, Error)]
pub enum AddrFault {
    #[error("not an address: {kind}, at {at}")]
    Bad { kind: AddrKind, at: usize },
    #[error("out of memory")]
    NoMemory,
}
