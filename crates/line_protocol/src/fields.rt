ghost use Rattle.std.specs.Prelude.{◌≡◌};
ghost use Rattle.serde_json.specs.View.{view};
ghost use Rattle.json_shapes.specs.Answers.{Reads};
ghost use Rattle.line_protocol.specs.Parts.{u32_at, decimal_at, has_first_profile};

use coin_amounts::read_amount;
use json_shapes::{ShapeStop, Want, stop_at, text_at, u64_at};
use serde_json::Value;
use std::alloc::Global;

/// The u32 in a field.
pub(crate) fn u32_at(alloc: Global, value: &Value, name: &str) -> Result<u32, ShapeStop>
    ensures { Reads (λ n. n) result (u32_at name.now (view value.now)) }
{
    let n = u64_at(alloc, value, name)?;
    if n <= u32::MAX as u64 {
        Ok(n as u32)
    } else {
        Err(stop_at(alloc, name, Want::Number))
    }
}

/// The number that the text in a field writes in digits.
pub(crate) fn decimal_at(alloc: Global, value: &Value, name: &str) -> Result<u64, ShapeStop>
    ensures { Reads (λ n. n) result (decimal_at name.now (view value.now)) }
{
    let text = text_at(alloc, value, name)?;
    match read_amount(text) {
        Ok(n) if n <= u64::MAX as u128 => Ok(n as u64),
        _ => Err(stop_at(alloc, name, Want::Number)),
    }
}

/// Whether the profile is 1, where one is said.
pub(crate) fn has_first_profile(value: &Value) -> bool
    ensures { result ≡ has_first_profile (view value.now) }
{
    match value.get("profile") {
        None => true,
        Some(profile) => profile.as_u64() == Some(1),
    }
}
