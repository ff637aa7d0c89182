//! How what contracts answer is read.

ghost use Rattle.std.specs.Prelude.{◌≡◌, map, option_map};
ghost use Rattle.serde_json.specs.View.{view, members_view};
ghost use Rattle.json_shapes.specs.Answers.{Reads};
ghost use Rattle.chain_msgs.specs.Plain.{attribute_view, event_view, out_view};
ghost use Rattle.chain_msgs.specs.Messages.{SubMsg as PlainSubMsg, Response as PlainResponse, sub_msg_view, response_view, told_view};
ghost use Rattle.chain_msgs.specs.Forms.{reply_word, reply_on, sub_msg, members_of, response, named_told, told_of};
ghost use Rattle.chain_msgs.specs.Answers.{told_in, is_reserved, has_reserved, is_bad_event, first_bad, bad_in_response, bad_in, response_in, query_result_in, ReadsOutcome};
ghost use Rattle.chain_msgs.specs.Stops.{json_stop, shape_stop};

use crate::event::{Attribute, Event};
use crate::response::{ReplyOn, Response, ResponseStop, SubMsg, Told};
use json_shapes::{
    Binary, Form, JsonStop, ShapeStop, Want, field, optional_field, optional_list, read_json,
    stop_for, u64_at, variant, within,
};
use serde_json::{Map, Value};
use std::alloc::Global;

impl Form for ReplyOn {
    ghost use Rattle.chain_msgs.specs.declared.response.ReplyOn.{ReplyOn as TheWord};

    ghost Plain = { TheWord };

    ghost plain_view = { λ w. w };

    ghost form = { reply_on };

    fn want() -> Want {
        Want::Text
    }

    fn read(alloc: Global, value: &Value) -> Result<ReplyOn, ShapeStop> {
        match value.as_str().and_then(reply_word) {
            Some(found) => Ok(found),
            None => Err(stop_for(alloc, Want::Text)),
        }
    }
}

fn reply_word(word: &str) -> Option<ReplyOn>
    ensures { result ≡ reply_word word.now }
{
    match word {
        "always" => Some(ReplyOn::Always),
        "error" => Some(ReplyOn::Error),
        "success" => Some(ReplyOn::Success),
        "never" => Some(ReplyOn::Never),
        _ => None,
    }
}

impl Form for SubMsg {
    ghost Plain = { PlainSubMsg };

    ghost plain_view = { sub_msg_view };

    ghost form = { sub_msg };

    fn want() -> Want {
        Want::Number
    }

    #[tactic(auto, unfolding(crate::specs::Forms::sub_msg_of))]
    fn read(alloc: Global, value: &Value) -> Result<SubMsg, ShapeStop> {
        Ok(SubMsg {
            id: u64_at(alloc, value, "id")?,
            msg: field(alloc, value, "msg")?,
            gas_limit: optional_field(alloc, value, "gas_limit")?,
            reply_on: field(alloc, value, "reply_on")?,
        })
    }
}

/// The bytes.
fn bytes_in(found: Option<Binary>) -> Option<Vec<u8>>
    ensures { out_view result ≡ option_map (λ b. b.0.items) found }
{
    match found {
        Some(binary) => Some(binary.0),
        None => None,
    }
}

/// The members of an object. A list is what belongs there first.
fn members_of<'a>(alloc: Global, value: &'a Value) -> Result<&'a Map<String, Value>, ShapeStop>
    ensures { Reads (λ members. members_view members.now.entries) result
        (members_of (view value.now)) }
{
    match value.as_object() {
        Some(members) => Ok(members),
        None => Err(stop_for(alloc, Want::List)),
    }
}

impl Form for Response {
    ghost Plain = { PlainResponse };

    ghost plain_view = { response_view };

    ghost form = { response };

    fn want() -> Want {
        Want::List
    }

    #[tactic(auto, unfolding(crate::specs::Forms::response_of))]
    fn read(alloc: Global, value: &Value) -> Result<Response, ShapeStop> {
        let _members = members_of(alloc, value)?;
        let messages = optional_list(alloc, value, "messages")?;
        let attributes = optional_list(alloc, value, "attributes")?;
        let events = optional_list(alloc, value, "events")?;
        let out = bytes_in(optional_field(alloc, value, "data")?);
        Ok(Response {
            messages,
            attributes,
            events,
            out,
        })
    }
}

/// What a contract tells, the value in this form.
fn told_of<F: Form>(alloc: Global, value: &Value) -> Result<Told<F>, ShapeStop>
    ensures { Reads (told_view F.plain_view) result (told_of F.form (view value.now)) }
{
    let (name, inner) = variant(alloc, value)?;
    named_told(alloc, name, inner)
}

fn named_told<F: Form>(alloc: Global, name: &str, inner: &Value) -> Result<Told<F>, ShapeStop>
    ensures { Reads (told_view F.plain_view) result (named_told F.form (name.now, view inner.now)) }
{
    match name {
        "ok" => Ok(Told::Ok(within(alloc, "ok", F::read(alloc, inner))?)),
        "error" => Ok(Told::Error(within(alloc, "error", String::read(alloc, inner))?)),
        _ => Err(stop_for(alloc, Want::Variant)),
    }
}

/// What the bytes say as what a contract tells.
fn read_told<F: Form>(alloc: Global, bytes: &[u8]) -> Result<Told<F>, ResponseStop>
    ensures { ReadsOutcome (told_view F.plain_view) result (told_in F.form bytes.now) }
{
    let value = match read_json(alloc, bytes) {
        Ok(value) => value,
        Err(stop) => return Err(json_stop(stop)),
    };
    match told_of(alloc, &value) {
        Ok(told) => Ok(told),
        Err(stop) => Err(shape_stop(stop)),
    }
}

/// A stop of the JSON, as one of the answer.
fn json_stop(stop: JsonStop) -> ResponseStop
    ensures { result ≡ json_stop stop }
{
    match stop {
        JsonStop::NoReading | JsonStop::NotWhole => ResponseStop::Json,
        JsonStop::NoMemory => ResponseStop::NoMemory,
    }
}

/// A stop of the form, as one of the answer.
fn shape_stop(stop: ShapeStop) -> ResponseStop
    ensures { result ≡ shape_stop stop }
{
    match stop {
        ShapeStop::Shape { path, want } => ResponseStop::Shape { path, want },
        ShapeStop::NoMemory => ResponseStop::NoMemory,
    }
}

/// Whether contracts may not choose this key.
fn is_reserved(key: &[u8]) -> bool
    ensures { result ≡ is_reserved key.now }
{
    match key {
        [] => true,
        [first, ..] => *first == b'_',
    }
}

fn has_reserved(attributes: &[Attribute]) -> bool
    ensures { result ≡ has_reserved (map attribute_view attributes.now) }
{
    for attribute in attributes {
        if is_reserved(attribute.key.as_bytes()) {
            return true;
        }
    }
    false
}

fn is_bad_event(event: &Event) -> bool
    ensures { result ≡ is_bad_event (event_view event.now) }
{
    event.kind.len() < 2 || has_reserved(&event.attributes)
}

/// The number of the first bad event, from 1.
fn first_bad(events: &[Event]) -> Option<usize>
    ensures { result ≡ first_bad 1 (map event_view events.now) }
{
    for (place, event) in events.iter().enumerate() {
        if is_bad_event(event) {
            return Some(place + 1);
        }
    }
    None
}

fn bad_in_response(response: &Response) -> Option<usize>
    ensures { result ≡ bad_in_response (response_view response.now) }
{
    if has_reserved(&response.attributes) {
        return Some(0);
    }
    first_bad(&response.events)
}

fn bad_in(told: &Told<Response>) -> Option<usize>
    ensures { result ≡ bad_in (told_view response_view told.now) }
{
    match told {
        Told::Ok(response) => bad_in_response(response),
        Told::Error(_) => None,
    }
}

/// What a contract answers to a call that isn't a query.
#[tactic(auto, unfolding(crate::specs::Answers::response_in))]
pub fn read_response(alloc: Global, bytes: &[u8]) -> Result<Told<Response>, ResponseStop>
    ensures { ReadsOutcome (told_view response_view) result (response_in bytes.now) }
{
    let told = match read_told::<Response>(alloc, bytes) {
        Ok(told) => told,
        Err(stop) => return Err(stop),
    };
    match bad_in(&told) {
        Some(number) => Err(ResponseStop::Event(number)),
        None => Ok(told),
    }
}

/// What a contract answers to a query.
#[tactic(auto, unfolding(crate::specs::Answers::query_result_in))]
pub fn read_query_result(alloc: Global, bytes: &[u8]) -> Result<Told<Vec<u8>>, ResponseStop>
    ensures { ReadsOutcome (told_view (λ bytes. bytes.items)) result (query_result_in bytes.now) }
{
    match read_told::<Binary>(alloc, bytes) {
        Ok(Told::Ok(binary)) => Ok(Told::Ok(binary.0)),
        Ok(Told::Error(text)) => Ok(Told::Error(text)),
        Err(stop) => Err(stop),
    }
}
