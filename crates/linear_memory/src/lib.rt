//! The memory of a WebAssembly instance: bytes in pages, numbers in them, and the Regions of CosmWasm.
#![tactic(auto)]

mod memory;
mod numbers;
mod region;

pub use memory::{Memory, OutOfBounds};
pub use region::{RegionBad, RegionFault};
