//! Amounts of coins: how an amount and a list of coins are read from texts, and how coins are written.
#![tactic(auto)]

mod amount;
mod coin;
mod coins;
mod denom;
mod read;
mod text;

pub use amount::{AmountBad, read_amount};
pub use coin::{Coin, RawCoin};
pub use coins::Coins;
pub use denom::is_denom;
pub use read::{CoinsFault, coins_are_lawful, faults_come_first, read_coins};
pub use text::coins_text;
