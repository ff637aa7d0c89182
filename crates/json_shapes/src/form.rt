ghost use Rattle.std.specs.Prelude.{◌≡◌, ℕ, List, Option, option_map, string_bytes, map, IfOk};
ghost use Rattle.base64.specs.Engines.{standard};
ghost use Rattle.base64.specs.GeneralPurpose.{decoded_of};
ghost use Rattle.serde_json.specs.View.{view, items_view};
ghost use Rattle.json_shapes.specs.Answers.{Reads};
ghost use Rattle.json_shapes.specs.Shapes.{Form, text, number, binary, nullable, list, each};

use crate::paths::{stop_for, within_place};
use crate::stop::{ShapeStop, Want};
use base64::DecodeAllocError;
use base64::engine::general_purpose::STANDARD;
use serde_json::Value;
use std::alloc::{AllocError, Global};

/// What is read from a JSON value.
pub trait Form: Drop + Sized {
    /// Its plain form.
    ghost Plain: { Type 0 };

    ghost plain_view: { Self → Plain };

    /// The form that the JSON has.
    ghost form: { Form Plain };

    /// What belongs where nothing stands.
    fn want() -> Want
        ensures { result ≡ form.want };

    fn read(alloc: Global, value: &Value) -> Result<Self, ShapeStop>
        ensures { Reads plain_view result (form.read (view value.now)) };
}

impl Form for String {
    ghost Plain = { List ℕ };

    ghost plain_view = { string_bytes };

    ghost form = { text };

    fn want() -> Want {
        Want::Text
    }

    fn read(alloc: Global, value: &Value) -> Result<String, ShapeStop> {
        match value.as_str() {
            Some(found) => Ok(String::from_str(alloc, found)?),
            None => Err(stop_for(alloc, Want::Text)),
        }
    }
}

impl Form for u64 {
    ghost Plain = { ℕ };

    ghost plain_view = { λ n. n };

    ghost form = { number };

    fn want() -> Want {
        Want::Number
    }

    fn read(alloc: Global, value: &Value) -> Result<u64, ShapeStop> {
        match value.as_u64() {
            Some(found) => Ok(found),
            None => Err(stop_for(alloc, Want::Number)),
        }
    }
}

/// Bytes, which JSON has as a text in standard base64.
#[derive(Debug, PartialEq, Eq, Drop)]
pub struct Binary(pub Vec<u8>);

impl Form for Binary {
    ghost Plain = { List ℕ };

    ghost plain_view = { λ b. b.0.items };

    ghost form = { binary };

    fn want() -> Want {
        Want::Binary
    }

    fn read(alloc: Global, value: &Value) -> Result<Binary, ShapeStop> {
        let decoded = match value.as_str() {
            Some(found) => decode(alloc, found)?,
            None => None,
        };
        match decoded {
            Some(bytes) => Ok(Binary(bytes)),
            None => Err(stop_for(alloc, Want::Binary)),
        }
    }
}

/// The bytes that a text has in base64, if it has any.
fn decode(alloc: Global, found: &str) -> Result<Option<Vec<u8>>, AllocError>
    ensures { IfOk result (λ bytes. option_map (λ b. b.items) bytes ≡ decoded_of standard found.now) }
{
    match STANDARD.decode(alloc, found.as_bytes()) {
        Ok(bytes) => Ok(Some(bytes)),
        Err(DecodeAllocError::DecodeError(_)) => Ok(None),
        Err(DecodeAllocError::OutOfMemory) => Err(AllocError),
    }
}

/// The form, or null.
impl<F: Form> Form for Option<F> {
    ghost Plain = { Option F.Plain };

    ghost plain_view = { option_map F.plain_view };

    ghost form = { nullable F.form };

    fn want() -> Want {
        F::want()
    }

    fn read(alloc: Global, value: &Value) -> Result<Option<F>, ShapeStop> {
        match value {
            Value::Null => Ok(None),
            _ => Ok(Some(F::read(alloc, value)?)),
        }
    }
}

/// A list, each item of which has the form.
impl<F: Form> Form for Vec<F> {
    ghost Plain = { List F.Plain };

    ghost plain_view = { λ v. map F.plain_view v.items };

    ghost form = { list F.form };

    fn want() -> Want {
        Want::List
    }

    fn read(alloc: Global, value: &Value) -> Result<Vec<F>, ShapeStop> {
        match value.as_array() {
            Some(found) => each(alloc, found.as_slice()),
            None => Err(stop_for(alloc, Want::List)),
        }
    }
}

/// Each item in the form, its place counted from 0.
pub fn each<F: Form>(alloc: Global, items: &[Value]) -> Result<Vec<F>, ShapeStop>
    ensures { Reads (λ list. map F.plain_view list.items) result
        (each F.form 0 (items_view items.now)) }
{
    let mut list = Vec::new(alloc);
    for (place, item) in items.iter().enumerate() {
        list.push(within_place(alloc, place, F::read(alloc, item))?)?;
    }
    Ok(list)
}
