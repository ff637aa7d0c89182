//! Contracts that are called from the beginning to the end, and what comes of it.

ghost use Rattle.std.specs.Prelude.{◌≡◌, ◌↔◌, IfOk, IsSome, IsTrue};
ghost use Rattle.contract_call.specs.Calls.{takes_info};
ghost use Rattle.contract_call.specs.Running.{CanGoOn, WaitsForAnswer};
ghost use Rattle.contract_call.specs.Steps.{IfQuery};

use crate::contract::{Chain, new_chain};
use contract_call::{Entry, Running, Step};
use gas_meter::{Meter, Schedule};
use std::alloc::{AllocError, Global};
use std::process::Abort;
use std::str;
use std::sync::Arc;
use std::test::Fail;
use wasm_types::Module;

/// Who calls, where a contract is told.
fn info_of(entry: Entry) -> Option<&'static [u8]>
    ensures { IsSome result ↔ IsTrue (takes_info entry) }
{
    match entry {
        Entry::Instantiate => Some(b"info".as_slice()),
        Entry::Execute => Some(b"info".as_slice()),
        Entry::Migrate => None,
        Entry::Sudo => None,
        Entry::Reply => None,
        Entry::Query => None,
    }
}

/// A call with the message `message`.
fn begun(alloc: Global, module: Module, entry: Entry, pinned: bool) -> Result<Running, AllocError>
    ensures { IfOk result (λ running. CanGoOn running) }
{
    match Arc::new(alloc, module) {
        Ok(m) => Running::begin(alloc, m, entry, b"env", info_of(entry), b"message", pinned),
        Err(_) => Err(AllocError),
    }
}

fn advance(
    alloc: Global,
    running: &mut Running,
    chain: &mut Chain,
    meter: &mut Meter,
) -> Result<Step, AllocError>
    requires { CanGoOn running.old }
    ensures { IfOk result (λ step. IfQuery step (WaitsForAnswer running.new)) }
{
    let store = &mut chain.store;
    let layers = &mut chain.layers;
    running.advance(alloc, store, layers, "abcdef", meter, &Schedule::standard())
}

/// A few bytes of a text as they are, and of other bytes their number.
fn shown(alloc: Global, bytes: &[u8]) -> Result<String, AllocError> {
    match str::from_utf8(bytes) {
        Ok(text) if bytes.len() < 64 => String::from_str(alloc, text),
        _ => format!(in alloc; "{} bytes", bytes.len()),
    }
}

fn told(alloc: Global, step: &Step) -> Result<String, AllocError> {
    match step {
        Step::Finished(bytes) => shown(alloc, bytes),
        Step::Query(request) => format!(in alloc; "asks {} bytes", request.len()),
        Step::Fault(fault) => format!(in alloc; "{fault}"),
        Step::OutOfGas => String::from_str(alloc, "out of gas"),
    }
}

/// Appends what a query asks.
fn push_asked(alloc: Global, text: &mut String, request: &[u8]) -> Result<(), AllocError> {
    text.push_str("asks ")?;
    text.push_str(&shown(alloc, request)?)?;
    text.push_str("; ")
}

/// What comes of a call, each of whose first three queries has this answer.
fn outcome(
    alloc: Global,
    running: &mut Running,
    chain: &mut Chain,
    meter: &mut Meter,
    answer: &[u8],
) -> Result<String, AllocError>
    requires { CanGoOn running.old }
{
    let mut text = String::new(alloc);
    for _ in 0..3 {
        match advance(alloc, running, chain, meter)? {
            Step::Query(request) => {
                push_asked(alloc, &mut text, &request)?;
                running.answer(alloc, answer)?;
            }
            step => {
                text.push_str(&told(alloc, &step)?)?;
                break;
            }
        }
    }
    Ok(text)
}

/// The contract is called with so much gas, and comes to this. What it keeps is as it is then.
pub(crate) fn expect_run(
    rt: &impl Abort,
    alloc: Global,
    module: Module,
    entry: Entry,
    pinned: bool,
    answer: &[u8],
    gas: u64,
    want: &str,
    used: u64,
) -> Result<Chain, Fail> {
    let mut chain = new_chain(alloc, entry == Entry::Query)?;
    let mut running = begun(alloc, module, entry, pinned)?;
    let mut meter = Meter::new(gas);
    let told = outcome(alloc, &mut running, &mut chain, &mut meter, answer)?;
    assert_eq!(rt; told.as_str(), want, "{entry:?} with {gas} gas");
    assert_eq!(rt; meter.used(), used, "{entry:?} {want}");
    Ok(chain)
}
