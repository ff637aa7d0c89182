//! What a message does that a sender asks for, and what a transaction does: its messages together,
//! or nothing. What the transactions of a block do, one after the other.
#![tactic(auto)]

mod admins;
mod bank;
mod blocks;
mod called;
mod calls;
mod charges;
mod codes;
mod commands;
mod creation;
mod events;
mod execution;
mod failures;
mod funds;
mod given;
mod layer;
mod message;
mod migration;
mod outcome;
mod reading;
mod results;
mod stop;
mod transaction;
mod tree;
mod turns;

pub use blocks::run_txs;
pub use message::handle;
pub use outcome::Outcome;
pub use stop::HandleStop;
pub use transaction::run_tx;
