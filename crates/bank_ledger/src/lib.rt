//! The bank: balances and supplies of the chain's state, and coins that are sent and burned.
#![tactic(auto)]

mod amounts;
mod burns;
mod holdings;
mod keys;
mod minting;
mod readers;
mod sends;
mod shortfall;
mod stop;

pub use burns::burn;
pub use holdings::all_balances;
pub use minting::{mint, opened};
pub use readers::{balance, supply};
pub use sends::send;
pub use stop::BankStop;
