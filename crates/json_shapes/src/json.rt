ghost use Rattle.std.specs.Prelude.{◌≡◌, ◌≤◌, if◌then◌else◌, IfOk, Some, false};
ghost use Rattle.serde_json.specs.Data.{depth};
ghost use Rattle.serde_json.specs.Read.{read, max_depth};
ghost use Rattle.serde_json.specs.View.{view};
ghost use Rattle.serde_json.specs.Written.{has_float, compact_text, IsInOrder};
ghost use Rattle.json_shapes.specs.Answers.{ReadsJson};

use crate::floats::has_float;
use crate::stop::JsonStop;
use serde_json::Value;
use std::alloc::{AllocError, Global};

/// The JSON value of a text, whose numbers are whole.
pub fn read_json(alloc: Global, bytes: &[u8]) -> Result<Value, JsonStop>
    ensures { ReadsJson result bytes.now }
{
    let value = match Value::from_slice(alloc, bytes) {
        Ok(value) => value,
        Err(error) => return Err(json_stop(error.is_memory())),
    };
    if has_float(&value) {
        return Err(JsonStop::NotWhole);
    }
    Ok(value)
}

/// The stop for a text that was not read.
fn json_stop(is_memory: bool) -> JsonStop
    ensures { result ≡ (if is_memory then JsonStop.NoMemory else JsonStop.NoReading) }
{
    if is_memory {
        JsonStop::NoMemory
    } else {
        JsonStop::NoReading
    }
}

/// The compact text of a value.
pub fn write_json(alloc: Global, value: &Value) -> Result<Vec<u8>, AllocError>
    ensures text { IfOk result (λ bytes. has_float (view value.now) ≡ false
        → bytes.items ≡ compact_text (view value.now)) }
    ensures order { IfOk result (λ bytes. IsInOrder bytes.items (view value.now)) }
    ensures reads_back { IfOk result (λ bytes. depth (view value.now) ≤ max_depth
        → read bytes.items ≡ Some (view value.now)) }
{
    value.to_vec(alloc)
}
