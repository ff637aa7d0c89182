ghost use Rattle.std.specs.Prelude.{◌≡◌, option_map};
ghost use Rattle.serde_json.specs.View.{view};
ghost use Rattle.json_shapes.specs.Answers.{Reads};
ghost use Rattle.json_shapes.specs.Json.{variant_of};
ghost use Rattle.json_shapes.specs.Shapes.{variant};

use crate::paths::stop_for;
use crate::stop::{ShapeStop, Want};
use serde_json::Value;
use std::alloc::Global;

/// The name and the value of an object's one field.
pub fn variant<'a>(alloc: Global, value: &'a Value) -> Result<(&'a str, &'a Value), ShapeStop>
    ensures { Reads (λ named. (named.0.now, view named.1.now)) result (variant (view value.now)) }
{
    match one_field(value) {
        Some(named) => Ok(named),
        None => Err(stop_for(alloc, Want::Variant)),
    }
}

/// An object's one field.
fn one_field(value: &Value) -> Option<(&str, &Value)>
    ensures { option_map (λ named. (named.0.now, view named.1.now)) result
        ≡ variant_of (view value.now) }
{
    let Value::Object(members) = value else {
        return None;
    };
    let count = members.len();
    if count != 1 {
        return None;
    }
    match members.first_key_value() {
        Some((name, inner)) => Some((name.as_str(), inner)),
        None => None,
    }
}
