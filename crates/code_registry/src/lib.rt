//! The registry of codes: which there are, who stored them, and which of them are pinned.
#![tactic(auto)]

mod authority;
mod counting;
mod pinning;
mod pins;
mod readers;
mod stop;
mod storing;

pub use pinning::{pin, unpin};
pub use pins::pinned;
pub use readers::{code, info, is_pinned};
pub use stop::CodeStop;
pub use storing::store;
