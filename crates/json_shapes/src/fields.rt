ghost use Rattle.std.specs.Prelude.{◌≡◌, option_map, map};
ghost use Rattle.serde_json.specs.View.{view, items_view};
ghost use Rattle.json_shapes.specs.Answers.{Reads};
ghost use Rattle.json_shapes.specs.Shapes.{text, number, binary, items, nullable, list, field, optional, or_empty};

use crate::form::{Binary, Form};
use crate::paths::{stop_at, stop_for, within};
use crate::stop::{ShapeStop, Want};
use serde_json::Value;
use std::alloc::Global;

/// The text in a field.
pub fn text_at<'a>(alloc: Global, value: &'a Value, name: &str) -> Result<&'a str, ShapeStop>
    ensures { Reads (λ found. found.now) result (field name.now text (view value.now)) }
{
    match value.get(name).and_then(Value::as_str) {
        Some(found) => Ok(found),
        None => Err(stop_at(alloc, name, Want::Text)),
    }
}

/// The u64 in a field.
pub fn u64_at(alloc: Global, value: &Value, name: &str) -> Result<u64, ShapeStop>
    ensures { Reads (λ n. n) result (field name.now number (view value.now)) }
{
    match value.get(name).and_then(Value::as_u64) {
        Some(found) => Ok(found),
        None => Err(stop_at(alloc, name, Want::Number)),
    }
}

/// The items of the list in a field, as they are.
pub fn list_at<'a>(alloc: Global, value: &'a Value, name: &str) -> Result<&'a [Value], ShapeStop>
    ensures { Reads (λ found. items_view found.now) result (field name.now items (view value.now)) }
{
    match value.get(name).and_then(Value::as_array) {
        Some(found) => Ok(found.as_slice()),
        None => Err(stop_at(alloc, name, Want::List)),
    }
}

/// The bytes that the text in a field has in base64.
pub fn bytes_at(alloc: Global, value: &Value, name: &str) -> Result<Vec<u8>, ShapeStop>
    ensures { Reads (λ bytes. bytes.items) result (field name.now binary (view value.now)) }
{
    let found: Binary = field(alloc, value, name)?;
    Ok(found.0)
}

/// A field that has to be there.
pub fn field<F: Form>(alloc: Global, value: &Value, name: &str) -> Result<F, ShapeStop>
    ensures { Reads F.plain_view result (field name.now F.form (view value.now)) }
{
    let read = match value.get(name) {
        Some(found) => F::read(alloc, found),
        None => Err(stop_for(alloc, F::want())),
    };
    within(alloc, name, read)
}

/// A field that has to be there, and may be null.
pub fn nullable_field<F: Form>(
    alloc: Global,
    value: &Value,
    name: &str,
) -> Result<Option<F>, ShapeStop>
    ensures { Reads (λ x. option_map F.plain_view x) result
        (field name.now (nullable F.form) (view value.now)) }
{
    field(alloc, value, name)
}

/// A field that may be missing, or null.
pub fn optional_field<F: Form>(
    alloc: Global,
    value: &Value,
    name: &str,
) -> Result<Option<F>, ShapeStop>
    ensures { Reads (λ x. option_map F.plain_view x) result
        (optional name.now F.form (view value.now)) }
{
    match value.get(name) {
        Some(found) => within(alloc, name, Option::<F>::read(alloc, found)),
        None => Ok(None),
    }
}

/// A field that has to be there, with a list of such items.
pub fn list_field<F: Form>(alloc: Global, value: &Value, name: &str) -> Result<Vec<F>, ShapeStop>
    ensures { Reads (λ x. map F.plain_view x.items) result
        (field name.now (list F.form) (view value.now)) }
{
    field(alloc, value, name)
}

/// A list of such items, which is empty where the field is missing, or null.
pub fn optional_list<F: Form>(alloc: Global, value: &Value, name: &str) -> Result<Vec<F>, ShapeStop>
    ensures { Reads (λ x. map F.plain_view x.items) result
        (or_empty name.now F.form (view value.now)) }
{
    let found = optional_field(alloc, value, name)?;
    Ok(found.unwrap_or(Vec::new(alloc)))
}
