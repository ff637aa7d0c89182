ghost use Rattle.std.specs.Prelude.{◌≡◌, length};
ghost use Rattle.linear_memory.specs.Numbers.{number_of, bytes_of};

/// The number that two bytes spell.
#[inline]
pub(crate) fn number16(bytes: &[u8]) -> u16
    requires { length bytes.now ≡ 2 }
    ensures { result ≡ number_of bytes.now }
{
    u16::from_le_bytes(*bytes.as_array().unwrap())
}

/// The number that four bytes spell.
#[inline]
pub(crate) fn number32(bytes: &[u8]) -> u32
    requires { length bytes.now ≡ 4 }
    ensures { result ≡ number_of bytes.now }
{
    u32::from_le_bytes(*bytes.as_array().unwrap())
}

/// The number that eight bytes spell.
#[inline]
pub(crate) fn number64(bytes: &[u8]) -> u64
    requires { length bytes.now ≡ 8 }
    ensures { result ≡ number_of bytes.now }
{
    u64::from_le_bytes(*bytes.as_array().unwrap())
}

/// The lowest two bytes of a number.
#[inline]
pub(crate) fn bytes16(value: u64) -> [u8; 2]
    ensures { result ≡ bytes_of 2 value }
{
    ((value & 0xFFFF) as u16).to_le_bytes()
}

/// The lowest four bytes of a number.
#[inline]
pub(crate) fn bytes32(value: u64) -> [u8; 4]
    ensures { result ≡ bytes_of 4 value }
{
    ((value & 0xFFFF_FFFF) as u32).to_le_bytes()
}

/// The bytes of a number.
#[inline]
pub(crate) fn bytes64(value: u64) -> [u8; 8]
    ensures { result ≡ bytes_of 8 value }
{
    value.to_le_bytes()
}
