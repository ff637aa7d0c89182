ghost use Rattle.std.specs.Prelude.{◌≡◌, ℕ, ◌<◌, ◌≤◌, ◌^◌, ◌↔◌, true, false, IsTrue, IfOk, IfErr, IfSome, OnErr, drop};
ghost use Rattle.std.specs.Int.{w32, w64, cast_unsigned};
ghost use Rattle.wasm_types.specs.Number.{last_of, number_at, is_cut_number, IsCutNumber, HasFound, found_in, StandsAt, NoneStandsAt};

use thiserror::Error;

/// No number is spelled at this place.
#[derive(Clone, Copy, Debug, PartialEq, Eq, Error)]
#[error("no number at byte {0}")]
pub struct Leb(pub usize);

/// What the last byte of a number of so many bits stands for.
fn last_byte(byte: u8, bits: u32, signed: bool) -> Option<u64>
    requires last { byte < 128 }
    requires some { 0 < bits }
    requires most { bits ≤ 64 }
    ensures value { result ≡ last_of signed bits byte }
    ensures bound { IfSome result (λ n. n < 2 ^ bits) }
{
    if signed {
        last_signed(byte, bits)
    } else {
        last_unsigned(byte, bits)
    }
}

#[tactic(auto, using(crate::proofs::Numbers::seven_bits))]
fn last_unsigned(byte: u8, bits: u32) -> Option<u64>
    requires last { byte < 128 }
    ensures value { result ≡ last_of false bits byte }
    ensures bound { IfSome result (λ n. n < 2 ^ bits) }
{
    if bits < 7 && u32::from(byte) >= 1 << bits {
        return None;
    }
    Some(u64::from(byte))
}

fn last_signed(byte: u8, bits: u32) -> Option<u64>
    requires last { byte < 128 }
    requires some { 0 < bits }
    requires most { bits ≤ 64 }
    ensures value { result ≡ last_of true bits byte }
    ensures bound { IfSome result (λ n. n < 2 ^ bits) }
{
    let half = 1u64 << (bits - 1);
    if byte < 64 {
        return if u64::from(byte) < half {
            Some(u64::from(byte))
        } else {
            None
        };
    }
    let missing = u64::from(128 - byte);
    if missing <= half {
        Some(half - missing + half)
    } else {
        None
    }
}

/// The number at the place, and the place after it.
fn number(bytes: &[u8], at: usize, bits: u32, signed: bool) -> Option<(u64, usize)>
    requires some { 0 < bits }
    requires most { bits ≤ 64 }
    ensures value { HasFound bytes.now result (number_at signed bits at (drop at bytes.now)) }
    ensures bound { IfSome result (λ x. x.0 < 2 ^ bits) }
{
    if at >= bytes.len() {
        return None;
    }
    let byte = bytes[at];
    if byte < 128 {
        let value = last_byte(byte, bits, signed)?;
        return Some((value, at + 1));
    }
    if bits <= 7 {
        return None;
    }
    let (high, after) = number(bytes, at + 1, bits - 7, signed)?;
    Some((u64::from(byte - 128) + 128 * high, after))
}

/// The number without sign at the place, and the place after it.
pub fn read_u32(bytes: &[u8], at: usize) -> Result<(u32, usize), Leb>
    ensures found { IfOk result (λ x. StandsAt false 32 bytes.now at x.1 x.0) }
    ensures none { OnErr result (NoneStandsAt false 32 bytes.now at) }
    ensures place { IfErr result (λ e. e.0 ≡ at) }
    ensures exact { HasFound bytes.now (found_in (λ n. n) result)
        (number_at false 32 at (drop at bytes.now)) }
{
    match number(bytes, at, 32, false) {
        Some((n, after)) => Ok((n as u32, after)),
        None => Err(Leb(at)),
    }
}

/// The number with sign at the place, and the place after it.
pub fn read_s32(bytes: &[u8], at: usize) -> Result<(i32, usize), Leb>
    ensures found { IfOk result (λ x. StandsAt true 32 bytes.now at x.1 (cast_unsigned w32 x.0)) }
    ensures none { OnErr result (NoneStandsAt true 32 bytes.now at) }
    ensures place { IfErr result (λ e. e.0 ≡ at) }
    ensures exact { HasFound bytes.now (found_in (cast_unsigned w32) result)
        (number_at true 32 at (drop at bytes.now)) }
{
    match number(bytes, at, 32, true) {
        Some((n, after)) => Ok(((n as u32).cast_signed(), after)),
        None => Err(Leb(at)),
    }
}

/// The number with sign at the place, and the place after it.
pub fn read_s64(bytes: &[u8], at: usize) -> Result<(i64, usize), Leb>
    ensures found { IfOk result (λ x. StandsAt true 64 bytes.now at x.1 (cast_unsigned w64 x.0)) }
    ensures none { OnErr result (NoneStandsAt true 64 bytes.now at) }
    ensures place { IfErr result (λ e. e.0 ≡ at) }
    ensures exact { HasFound bytes.now (found_in (cast_unsigned w64) result)
        (number_at true 64 at (drop at bytes.now)) }
{
    match number(bytes, at, 64, true) {
        Some((n, after)) => Ok((n.cast_signed(), after)),
        None => Err(Leb(at)),
    }
}

/// Whether the bytes end within a number of so many bits that begins at the place: more bytes would
/// complete it, with sign or without.
pub fn is_cut(bytes: &[u8], at: usize, bits: u32) -> bool
    ensures unsigned { IsTrue result ↔ IsCutNumber false bits (drop at bytes.now) }
    ensures signed { IsTrue result ↔ IsCutNumber true bits (drop at bytes.now) }
    ensures exact { result ≡ is_cut_number bits (drop at bytes.now) }
{
    goes_on(bytes, at, bits)
}

fn goes_on(bytes: &[u8], at: usize, bits: u32) -> bool
    ensures { result ≡ is_cut_number bits (drop at bytes.now) }
{
    if at >= bytes.len() {
        return true;
    }
    if bytes[at] < 128 {
        return false;
    }
    if bits <= 7 {
        return false;
    }
    goes_on(bytes, at + 1, bits - 7)
}
