//! How requests are read.

ghost use Rattle.std.specs.Prelude.{◌≡◌, ◌++◌, Ok, Err, IfOk};
ghost use Rattle.serde_json.specs.View.{view};
ghost use Rattle.json_shapes.specs.Answers.{Reads, ReadsJson};
ghost use Rattle.json_shapes.specs.Shapes.{and_then, variant};
ghost use Rattle.query_router.specs.Requests.{unknown, smart_of, raw_of, balance_of, named_wasm, named_bank, named, request_of, read_asked, asked};
ghost use Rattle.query_router.specs.Views.{request_view, asked_view};

use crate::request::{Asked, Request};
use json_shapes::{JsonStop, ShapeStop, bytes_at, field, read_json, u64_at, variant};
use serde_json::Value;
use std::alloc::{AllocError, Global};

#[tactic(auto, unfolding(crate::specs::Requests::smart_of))]
fn smart_of(alloc: Global, inner: &Value) -> Result<Request, ShapeStop>
    ensures { Reads request_view result (smart_of (view inner.now)) }
{
    Ok(Request::Smart {
        contract: field(alloc, inner, "contract_addr")?,
        msg: bytes_at(alloc, inner, "msg")?,
    })
}

#[tactic(auto, unfolding(crate::specs::Requests::raw_of))]
fn raw_of(alloc: Global, inner: &Value) -> Result<Request, ShapeStop>
    ensures { Reads request_view result (raw_of (view inner.now)) }
{
    Ok(Request::Raw {
        contract: field(alloc, inner, "contract_addr")?,
        key: bytes_at(alloc, inner, "key")?,
    })
}

#[tactic(auto, unfolding(crate::specs::Requests::balance_of))]
fn balance_of(alloc: Global, inner: &Value) -> Result<Request, ShapeStop>
    ensures { Reads request_view result (balance_of (view inner.now)) }
{
    Ok(Request::Balance {
        address: field(alloc, inner, "address")?,
        denom: field(alloc, inner, "denom")?,
    })
}

/// A request that the chain doesn't know, by the two parts of its kind.
fn unknown_of(alloc: Global, front: &str, name: &str) -> Result<Request, ShapeStop>
    ensures { Reads request_view result (Ok (unknown (front.now ++ name.now))) }
{
    let mut kind = String::from_str(alloc, front)?;
    kind.push_str(name)?;
    Ok(Request::Unknown(kind))
}

#[tactic(auto, unfolding(crate::specs::Requests::named_wasm))]
fn named_wasm(alloc: Global, name: &str, inner: &Value) -> Result<Request, ShapeStop>
    ensures { Reads request_view result (named_wasm (name.now, view inner.now)) }
{
    match name {
        "smart" => smart_of(alloc, inner),
        "raw" => raw_of(alloc, inner),
        "contract_info" => Ok(Request::ContractInfo(field(alloc, inner, "contract_addr")?)),
        "code_info" => Ok(Request::CodeInfo(u64_at(alloc, inner, "code_id")?)),
        _ => unknown_of(alloc, "wasm.", name),
    }
}

fn wasm_of(alloc: Global, value: &Value) -> Result<Request, ShapeStop>
    ensures { Reads request_view result (and_then (variant (view value.now)) named_wasm) }
{
    let (name, inner) = variant(alloc, value)?;
    named_wasm(alloc, name, inner)
}

#[tactic(auto, unfolding(crate::specs::Requests::named_bank))]
fn named_bank(alloc: Global, name: &str, inner: &Value) -> Result<Request, ShapeStop>
    ensures { Reads request_view result (named_bank (name.now, view inner.now)) }
{
    match name {
        "balance" => balance_of(alloc, inner),
        "all_balances" => Ok(Request::AllBalances(field(alloc, inner, "address")?)),
        "supply" => Ok(Request::Supply(field(alloc, inner, "denom")?)),
        _ => unknown_of(alloc, "bank.", name),
    }
}

fn bank_of(alloc: Global, value: &Value) -> Result<Request, ShapeStop>
    ensures { Reads request_view result (and_then (variant (view value.now)) named_bank) }
{
    let (name, inner) = variant(alloc, value)?;
    named_bank(alloc, name, inner)
}

#[tactic(auto, unfolding(crate::specs::Requests::named))]
fn named(alloc: Global, name: &str, inner: &Value) -> Result<Request, ShapeStop>
    ensures { Reads request_view result (named (name.now, view inner.now)) }
{
    match name {
        "wasm" => wasm_of(alloc, inner),
        "bank" => bank_of(alloc, inner),
        _ => unknown_of(alloc, "", name),
    }
}

#[tactic(auto, unfolding(crate::specs::Requests::request_of))]
fn request_of(alloc: Global, value: &Value) -> Result<Request, ShapeStop>
    ensures { Reads request_view result (request_of (view value.now)) }
{
    let (name, inner) = variant(alloc, value)?;
    named(alloc, name, inner)
}

/// What a JSON value asks.
fn asked_by(alloc: Global, value: &Value) -> Result<Asked, AllocError>
    ensures { IfOk result (λ found. asked_view found ≡ read_asked (request_of (view value.now))) }
{
    match request_of(alloc, value) {
        Ok(request) => Ok(Asked::Asks(request)),
        Err(ShapeStop::Shape { .. }) => Ok(Asked::NoShape),
        Err(ShapeStop::NoMemory) => Err(AllocError),
    }
}

/// What bytes ask that aren't read as JSON.
#[tactic(auto, unfolding(crate::specs::Requests::asked))]
fn unread(request: &[u8], stop: JsonStop) -> Result<Asked, AllocError>
    requires { ReadsJson (Err stop) request.now }
    ensures { IfOk result (λ found. asked_view found ≡ asked request.now) }
{
    match stop {
        JsonStop::NoReading => Ok(Asked::NoJson),
        JsonStop::NotWhole => Ok(Asked::NoJson),
        JsonStop::NoMemory => Err(AllocError),
    }
}

/// What the bytes of a request ask.
#[tactic(auto, unfolding(crate::specs::Requests::asked))]
pub(crate) fn read_request(alloc: Global, request: &[u8]) -> Result<Asked, AllocError>
    ensures { IfOk result (λ found. asked_view found ≡ asked request.now) }
{
    match read_json(alloc, request) {
        Ok(value) => asked_by(alloc, &value),
        Err(stop) => unread(request, stop),
    }
}
