ghost use Rattle.std.specs.Prelude.{◌≡◌, false, IfOk};
ghost use Rattle.std.specs.List.{list_all};
ghost use Rattle.serde_json.specs.View.{view};
ghost use Rattle.serde_json.specs.Written.{has_float};
ghost use Rattle.json_shapes.specs.Answers.{Reads as ReadsShape};
ghost use Rattle.line_protocol.specs.Forms.{is_blank, line_of};
ghost use Rattle.line_protocol.specs.Parts.{question_of, request_at, named_line, value_line};
ghost use Rattle.line_protocol.specs.Plain.{question_view, line_view};
ghost use Rattle.line_protocol.specs.Reads.{Reads, HasPrefix};

use crate::block_form::block_of;
use crate::fields::u32_at;
use crate::genesis_form::genesis_of;
use crate::line::{Line, ParseStop, Question};
use json_shapes::{
    ShapeStop, Want, optional_field, read_json, stop_at, stop_for, take_one_field, write_json,
};
use serde_json::Value;
use std::alloc::Global;

/// What a line says, by its number in the input.
#[tactic(auto, unfolding(crate::specs::Forms::line_of))]
pub fn parse(alloc: Global, number: u64, bytes: &[u8]) -> Result<Line, ParseStop>
    ensures said { Reads line_view result (line_of number bytes.now) }
    ensures prefix { IfOk result HasPrefix }
{
    if is_empty(bytes) {
        return Ok(Line::Empty);
    }
    let value = read_json(alloc, bytes)?;
    Ok(value_line(alloc, number, value)?)
}

/// Whether the line has blanks alone.
fn is_empty(bytes: &[u8]) -> bool
    ensures { result ≡ list_all is_blank bytes.now }
{
    bytes.iter().all(|b| is_blank(*b))
}

/// Whether the byte is a space, a tab or a carriage return.
fn is_blank(b: u8) -> bool
    ensures { result ≡ is_blank b }
{
    b == b' ' || b == b'\t' || b == b'\r'
}

/// The compact text of a query's request.
fn request_at(alloc: Global, value: &Value) -> Result<Vec<u8>, ShapeStop>
    requires { has_float (view value.now) ≡ false }
    ensures { ReadsShape (λ text. text.items) result (request_at (view value.now)) }
{
    match value.get("request") {
        Some(request) => Ok(write_json(alloc, request)?),
        None => Err(stop_at(alloc, "request", Want::Variant)),
    }
}

/// What a query line says.
#[tactic(auto, unfolding(crate::specs::Parts::question_of))]
fn question_of(alloc: Global, line: u64, value: &Value) -> Result<Question, ShapeStop>
    requires { has_float (view value.now) ≡ false }
    ensures { ReadsShape question_view result (question_of line (view value.now)) }
{
    let client = u32_at(alloc, value, "client")?;
    let height = optional_field(alloc, value, "height")?;
    let request = request_at(alloc, value)?;
    Ok(Question {
        line,
        client,
        height,
        request,
    })
}

/// What the variant of this name says.
fn named_line(alloc: Global, line: u64, name: &str, value: Value) -> Result<Line, ShapeStop>
    requires { has_float (view value) ≡ false }
    ensures said { ReadsShape line_view result (named_line line (name.now, view value)) }
    ensures prefix { IfOk result HasPrefix }
{
    match name {
        "genesis" => Ok(Line::Genesis(genesis_of(alloc, &value)?)),
        "block" => Ok(Line::Block(block_of(alloc, value)?)),
        "query" => Ok(Line::Query(question_of(alloc, line, &value)?)),
        _ => Err(stop_for(alloc, Want::Variant)),
    }
}

/// What the value in a line says.
fn value_line(alloc: Global, line: u64, value: Value) -> Result<Line, ShapeStop>
    requires { has_float (view value) ≡ false }
    ensures said { ReadsShape line_view result (value_line line (view value)) }
    ensures prefix { IfOk result HasPrefix }
{
    match take_one_field(value) {
        Some((name, inner)) => named_line(alloc, line, name.as_str(), inner),
        None => Err(stop_for(alloc, Want::Variant)),
    }
}
