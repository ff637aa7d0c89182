ghost use Rattle.std.specs.Prelude.{◌≡◌, ◌<◌, ◌++◌, ◌==◌, All, map, position, IfSome, OnOk, string_bytes};
ghost use Rattle.chain_addr.specs.Letters.{letter_of, letters};

use std::alloc::AllocError;

const LETTERS: [u8; 32] = *b"qpzry9x8gf2tvdw0s3jn54khce6mua7l";

pub(crate) fn letter(value: u8) -> u8
    requires { value < 32 }
    ensures letter { result ≡ letter_of value }
    ensures ascii { result < 128 }
{
    LETTERS[usize::from(value)]
}

/// Appends the letters of the values.
pub(crate) fn push_letters(text: &mut String, values: &[u8]) -> Result<(), AllocError>
    requires { All (λ v. v < 32) values.now }
    ensures { OnOk result (string_bytes text.new ≡ string_bytes text.old ++ map letter_of values.now) }
{
    for value in values {
        text.push(char::from(letter(*value)))?;
    }
    Ok(())
}

/// The place of the letter among the letters of bech32.
pub(crate) fn place_of_letter(letter: u8) -> Option<usize>
    ensures place { result ≡ position (λ l. l == letter) letters }
    ensures small { IfSome result (λ place. place < 32) }
{
    LETTERS.iter().position(|l| *l == letter)
}
