ghost use Rattle.std.specs.Prelude.{◌≡◌, ◌≢◌, ℕ, List, None, option_map, option_and_then, string_bytes, IfOk, IfSome};
ghost use Rattle.serde_json.specs.Find.{get, get_member, as_array};
ghost use Rattle.serde_json.specs.View.{view, items_view, members_view};
ghost use Rattle.json_shapes.specs.Answers.{Reads};
ghost use Rattle.json_shapes.specs.Json.{IsWhole, variant_of};
ghost use Rattle.json_shapes.specs.Shapes.{items, field};

use crate::paths::stop_at;
use crate::stop::{ShapeStop, Want};
use serde_json::{Map, Value};
use std::alloc::Global;

/// Takes out an object's one field: its name and its value.
pub fn take_one_field(value: Value) -> Option<(String, Value)>
    ensures named { option_map (λ named. (string_bytes named.0, view named.1)) result
        ≡ variant_of (view value) }
    ensures whole { IfSome result (λ named. IsWhole (view value) → IsWhole (view named.1)) }
{
    let Value::Object(mut members) = value else {
        return None;
    };
    if members.len() != 1 {
        return None;
    }
    match members.pop_first() {
        Some((name, inner)) => Some((name, inner)),
        None => None,
    }
}

/// Takes the list out of a field: its items as they are, and the value without that field.
pub fn take_list(alloc: Global, value: Value, name: &str) -> Result<(Vec<Value>, Value), ShapeStop>
    ensures list { Reads (λ taken. items_view taken.0.items) result
        (field name.now items (view value)) }
    ensures others { IfOk result (λ taken. (other : List ℕ) → other ≢ name.now
        → get other (view taken.1) ≡ get other (view value)) }
    ensures gone { IfOk result (λ taken. get name.now (view taken.1) ≡ None) }
{
    match cut_list(value, name) {
        Some(cut) => Ok(cut),
        None => Err(stop_at(alloc, name, Want::List)),
    }
}

/// The list in a field, and the value without that field.
fn cut_list(value: Value, name: &str) -> Option<(Vec<Value>, Value)>
    ensures list { option_map (λ cut. items_view cut.0.items) result
        ≡ option_and_then as_array (get name.now (view value)) }
    ensures others { IfSome result (λ cut. (other : List ℕ) → other ≢ name.now
        → get other (view cut.1) ≡ get other (view value)) }
    ensures gone { IfSome result (λ cut. get name.now (view cut.1) ≡ None) }
{
    let Value::Object(mut members) = value else {
        return None;
    };
    match take_member(&mut members, name) {
        Some(Value::Array(list)) => Some((list, Value::Object(members))),
        _ => None,
    }
}

/// Takes a member out of an object.
fn take_member(members: &mut Map<String, Value>, name: &str) -> Option<Value>
    ensures taken { option_map view result ≡ get_member name.now (members_view members.old.entries) }
    ensures others { (other : List ℕ) → other ≢ name.now
        → get_member other (members_view members.new.entries)
        ≡ get_member other (members_view members.old.entries) }
    ensures gone { get_member name.now (members_view members.new.entries) ≡ None }
{
    members.remove(name)
}
