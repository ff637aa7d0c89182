ghost use Rattle.std.specs.Prelude.{◌≡◌, IfOk, string_bytes};
ghost use Rattle.coin_amounts.specs.Coins.{coins_view};
ghost use Rattle.coin_amounts.specs.Text.{coins_text};

use crate::coins::Coins;
use std::alloc::{AllocError, Global};
use std::fmt::Write;

/// Writes each coin as its amount in decimal and its denom, with a comma between coins.
pub fn coins_text(alloc: Global, coins: &Coins) -> Result<String, AllocError>
    ensures { IfOk result (λ text. string_bytes text ≡ coins_text (coins_view coins.now)) }
{
    let mut text = String::new(alloc);
    for (place, coin) in coins.list.iter().enumerate() {
        if place > 0 {
            text.push(',')?;
        }
        write!(text, "{}{}", coin.amount, coin.denom)?;
    }
    Ok(text)
}
