ghost use Rattle.std.specs.Prelude.{◌≡◌};
ghost use Rattle.std.specs.List.{list_all};
ghost use Rattle.coin_amounts.specs.Denom.{is_denom, is_denom_byte};

/// Whether the text is a letter and 2 to 127 letters, digits or `/ : . _ -`.
pub fn is_denom(text: &str) -> bool
    ensures { result ≡ is_denom text.now }
{
    match text.as_bytes() {
        [] => false,
        [first, rest @ ..] => {
            let letter = first.is_ascii_alphabetic();
            letter && rest.len() >= 2 && rest.len() <= 127 && are_denom_bytes(rest)
        }
    }
}

fn are_denom_bytes(bytes: &[u8]) -> bool
    ensures { result ≡ list_all is_denom_byte bytes.now }
{
    bytes.iter().all(|b| is_denom_byte(*b))
}

fn is_denom_byte(b: u8) -> bool
    ensures { result ≡ is_denom_byte b }
{
    b.is_ascii_alphanumeric() || matches!(b, b'/' | b':' | b'.' | b'_' | b'-')
}
