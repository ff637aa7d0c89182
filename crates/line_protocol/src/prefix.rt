ghost use Rattle.std.specs.Prelude.{◌≡◌};
ghost use Rattle.std.specs.List.{list_all};
ghost use Rattle.line_protocol.specs.Forms.{is_prefix, is_lower};

/// Whether a text can begin addresses: it has 1 to 20 letters a to z.
pub fn is_prefix(text: &str) -> bool
    ensures { result ≡ is_prefix text.now }
{
    1 <= text.len() && text.len() <= 20 && are_lower(text.as_bytes())
}

fn are_lower(bytes: &[u8]) -> bool
    ensures { result ≡ list_all is_lower bytes.now }
{
    bytes.iter().all(|b| is_lower(*b))
}

fn is_lower(b: u8) -> bool
    ensures { result ≡ is_lower b }
{
    b'a' <= b && b <= b'z'
}
