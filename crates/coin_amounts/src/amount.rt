ghost use Rattle.std.specs.Prelude.{◌≡◌};
ghost use Rattle.std.specs.Result.{result_ok};
ghost use Rattle.std.specs.Char.{is_ascii_digit};
ghost use Rattle.std.specs.List.{list_all};
ghost use Rattle.coin_amounts.specs.Amount.{amount_of};

use thiserror::Error;

/// A text that is no amount.
#[derive(Clone, Copy, Debug, PartialEq, Eq, Error)]
#[error("not an amount of at most 128 bits in digits")]
pub struct AmountBad;

/// Reads one or more digits `0` to `9`. Zeros may stand in front, a sign may not.
pub fn read_amount(text: &str) -> Result<u128, AmountBad>
    ensures { result_ok result ≡ amount_of text.now }
{
    if !are_digits(text.as_bytes()) {
        return Err(AmountBad);
    }
    match text.parse::<u128>() {
        Ok(amount) => Ok(amount),
        Err(_) => Err(AmountBad),
    }
}

fn are_digits(bytes: &[u8]) -> bool
    ensures { result ≡ list_all is_ascii_digit bytes.now }
{
    bytes.iter().all(|b| b.is_ascii_digit())
}
