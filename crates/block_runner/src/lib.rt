//! What a chain does with the lines that it is given: the records that a genesis opens it with, and
//! what a block does to a state.
#![tactic(auto)]

mod addresses;
mod blocks;
mod crediting;
mod holdings;
mod opening;
mod stop;

pub use blocks::{BlockDone, run_block};
pub use opening::genesis;
pub use stop::GenesisStop;
