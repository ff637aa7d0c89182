ghost use Rattle.std.specs.Prelude.{◌≡◌, IfOk};
ghost use Rattle.serde_json.specs.View.{view};
ghost use Rattle.json_shapes.specs.Values.{binary_data};

use base64::engine::general_purpose::STANDARD;
use serde_json::Value;
use std::alloc::{AllocError, Global};

/// Bytes, which JSON has as a text in standard base64.
pub fn binary_value(alloc: Global, bytes: &[u8]) -> Result<Value, AllocError>
    ensures { IfOk result (λ value. view value ≡ binary_data bytes.now) }
{
    Ok(Value::String(STANDARD.encode(alloc, bytes)?))
}
