ghost use Rattle.std.specs.Prelude.{◌≡◌, ℕ, ◌++◌, ◌<◌, ◌≤◌, ◌^◌, OnOk, IfNone};
ghost use Rattle.wasm_writer.specs.ShortNumber.{unsigned_in, unsigned, signed_byte, signed_in, signed_32, signed_64};

use std::alloc::AllocError;

#[tactic(auto, unfolding(crate::specs::ShortNumber::unsigned_in))]
fn put_unsigned_in(out: &mut Vec<u8>, n: usize, most: u32) -> Result<(), AllocError>
    ensures { OnOk result (out.new.items ≡ out.old.items ++ unsigned_in most n) }
{
    if most == 0 {
        return Ok(());
    }
    if n < 128 {
        out.push(n as u8)?;
        return Ok(());
    }
    out.push((n % 128) as u8 + 128)?;
    put_unsigned_in(out, n / 128, most - 1)
}

/// An index, a length or another number without sign.
pub fn put_unsigned(out: &mut Vec<u8>, n: usize) -> Result<(), AllocError>
    ensures { OnOk result (out.new.items ≡ out.old.items ++ unsigned n) }
{
    put_unsigned_in(out, n, 5)
}

/// The byte that spells a number with sign alone, if one does.
fn signed_byte(n: u64, bits: u32) -> Option<u8>
    requires some { 0 < bits }
    requires most { bits ≤ 64 }
    requires fits { n < 2 ^ bits }
    ensures value { result ≡ signed_byte bits n }
    ensures more { IfNone result (7 < bits) }
{
    let half = 1u64 << (bits - 1);
    if n < half {
        return if n < 64 { Some(n as u8) } else { None };
    }
    let missing = half - (n - half);
    if missing <= 64 {
        Some(128 - missing as u8)
    } else {
        None
    }
}

#[tactic(auto, unfolding(crate::specs::ShortNumber::signed_in))]
fn put_signed_in(out: &mut Vec<u8>, n: u64, bits: u32, left: u32) -> Result<(), AllocError>
    requires some { 0 < bits }
    requires most { bits ≤ 64 }
    requires fits { n < 2 ^ bits }
    ensures { OnOk result (out.new.items ≡ out.old.items ++ signed_in left bits n) }
{
    if left == 0 {
        return Ok(());
    }
    match signed_byte(n, bits) {
        Some(byte) => {
            out.push(byte)?;
            Ok(())
        }
        None => {
            out.push((n % 128) as u8 + 128)?;
            put_signed_in(out, n / 128, bits - 7, left - 1)
        }
    }
}

pub fn put_signed_32(out: &mut Vec<u8>, n: u32) -> Result<(), AllocError>
    ensures { OnOk result (out.new.items ≡ out.old.items ++ signed_32 n) }
{
    put_signed_in(out, u64::from(n), 32, 5)
}

pub fn put_signed_64(out: &mut Vec<u8>, n: u64) -> Result<(), AllocError>
    ensures { OnOk result (out.new.items ≡ out.old.items ++ signed_64 n) }
{
    put_signed_in(out, n, 64, 10)
}
