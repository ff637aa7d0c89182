//! What contracts are asked.

ghost use Rattle.std.specs.Prelude.{◌≡◌, ◌≤◌, None, OnOk};
ghost use Rattle.kv_layers.specs.Layers.{HasCurrent, depth as layers_over};
ghost use Rattle.query_router.specs.Lawful.{HasLawful};

use crate::acts::text_of;
use crate::filled::filled;
use crate::stored::stored;
use gas_meter::{Meter, Schedule};
use gatekeeper::{Decoding, Modules, Served, ValidCode};
use json_shapes::{binary_value, write_json};
use kv_layers::{Base, Layers, Plain};
use query_router::query;
use serde_json::json;
use std::alloc::{AllocError, Global};
use std::process::Abort;
use std::sync::Arc;
use std::test::Fail;
use wasm_types::Module;

/// The contracts through which a question goes, what the last of them is told (without any, it is the question itself),
/// its gas, and what comes of it: the gas that was used, how many modules were fetched, and the answer.
type Row = (&'static [&'static str], &'static str, u64, &'static str);

/// Decodes modules, and counts them.
#[derive(Drop)]
struct Counting {
    fetched: u64,
}

impl Modules for Counting {
    ghost tally = { λ _. None };

    fn fetch(
        &mut self,
        alloc: Global,
        code: &ValidCode,
    ) -> Result<(Arc<Module>, Served), AllocError> {
        self.fetched = self.fetched.wrapping_add(1);
        let found = Decoding::new().fetch(alloc, code)?;
        Ok(found)
    }
}

/// The request that asks a contract this.
fn smart(alloc: Global, contract: &str, msg: &[u8]) -> Result<Vec<u8>, AllocError> {
    let msg = binary_value(alloc, msg)?;
    let value = json!(in alloc; {"wasm": {"smart": {"contract_addr": contract, "msg": msg}}})?;
    write_json(alloc, &value)
}

/// The request that goes through these contracts.
fn request_of(alloc: Global, path: &[&str], what: &str) -> Result<Vec<u8>, AllocError> {
    let mut request = filled(alloc, what)?.into_bytes();
    for contract in path.iter().rev() {
        let contract = filled(alloc, contract)?;
        request = smart(alloc, contract.as_str(), &request)?;
    }
    Ok(request)
}

/// Asks at this depth, and tells what comes of it.
fn told_at(
    alloc: Global,
    layers: &mut Layers<Plain>,
    depth: u32,
    request: &[u8],
    gas: u64,
) -> Result<Vec<u8>, Fail>
    requires depth { depth ≤ 10 }
    requires lawful { HasLawful (HasCurrent ⟦<Plain as Base>⟧.stands_for layers.old) }
    ensures lawful { OnOk result (HasLawful (HasCurrent ⟦<Plain as Base>⟧.stands_for layers.new)) }
    ensures layers { layers_over layers.new ≡ layers_over layers.old }
{
    let mut modules = Counting { fetched: 0 };
    let mut meter = Meter::new(gas);
    let costs = Schedule::standard();
    let answer = query(
        alloc,
        layers,
        &mut modules,
        request,
        &mut meter,
        &costs,
        depth,
    );
    let mut told = format!(in alloc; "{} {} ", meter.used(), modules.fetched)?.into_bytes();
    told.extend_from_slice(&text_of(alloc, answer)?)?;
    Ok(told)
}

/// Asks at this depth one after another, on a chain on which these codes are pinned, compares what comes of each, and at
/// the end what the chain has changed: it is what it was before.
fn expect_all(
    rt: &impl Abort,
    alloc: Global,
    depth: u32,
    pins: &[u64],
    rows: &[Row],
) -> Result<(), Fail>
    requires { depth ≤ 10 }
{
    let mut layers = stored(alloc, pins)?;
    for (path, what, gas, want) in rows {
        let request = request_of(alloc, path, what)?;
        let want = filled(alloc, want)?;
        let told = told_at(alloc, &mut layers, depth, &request, *gas)?;
        assert_eq!(rt; told.as_slice(), want.as_bytes(), "of {want}");
    }
    let before = stored(alloc, pins)?.into_delta();
    assert!(rt; layers.into_delta().changes == before.changes);
    Ok(())
}

#[test]
fn what_is_known_of_contracts_and_codes_is_told(rt: HostRuntime) -> Result<(), Fail> {
    let rows: &[Row] = &[
        (
            &[],
            r#"{"wasm":{"contract_info":{"contract_addr":"%1%"}}}"#,
            1000000,
            r#"1000 0 {"admin":null,"code_id":1,"creator":"%A%","ibc_port":null,"pinned":false}"#,
        ),
        (
            &[],
            r#"{"wasm":{"contract_info":{"contract_addr":"%2%"}}}"#,
            1000,
            r#"1000 0 {"admin":"%A%","code_id":2,"creator":"%A%","ibc_port":null,"pinned":false}"#,
        ),
        (
            &[],
            r#"{"wasm":{"contract_info":{"contract_addr":"%A%"}}}"#,
            1000000,
            r#"1000 0 {"error":{"no_such_contract":{"addr":"%A%"}}}"#,
        ),
        (
            &[],
            r#"{"wasm":{"contract_info":{"contract_addr":"%U%"}}}"#,
            1000000,
            r#"1000 0 {"error":{"no_such_contract":{"addr":"%A%"}}}"#,
        ),
        (
            &[],
            r#"{"wasm":{"code_info":{"code_id":1}}}"#,
            1000000,
            r#"1000 0 {"checksum":"6f0d71d4074a8824ee18920cefede8c222f8601821870ec3b97b85806b0d9d74","code_id":1,"creator":"%A%"}"#,
        ),
        (
            &[],
            r#"{"wasm":{"code_info":{"code_id":9}}}"#,
            1000000,
            r#"1000 0 {"error":{"no_such_code":{"code_id":9}}}"#,
        ),
        (
            &[],
            r#"{"wasm":{"code_info":{"code_id":0}}}"#,
            1000000,
            r#"1000 0 {"error":{"no_such_code":{"code_id":0}}}"#,
        ),
        (
            &[],
            r#"{"wasm":{"code_info":{"code_id":1}}}"#,
            999,
            r#"999 0 out of gas"#,
        ),
    ];
    expect_all(&rt, rt.alloc(), 0, &[], rows)
}

#[test]
fn a_raw_query_is_paid_by_the_bytes_of_key_and_value(rt: HostRuntime) -> Result<(), Fail> {
    let rows: &[Row] = &[
        (
            &[],
            r#"{"wasm":{"raw":{"contract_addr":"%1%","key":"aw=="}}}"#,
            1000000,
            r#"2006 0 v"#,
        ),
        (
            &[],
            r#"{"wasm":{"raw":{"contract_addr":"%1%","key":"aw=="}}}"#,
            2006,
            r#"2006 0 v"#,
        ),
        (
            &[],
            r#"{"wasm":{"raw":{"contract_addr":"%1%","key":"aw=="}}}"#,
            2005,
            r#"2005 0 out of gas"#,
        ),
        (
            &[],
            r#"{"wasm":{"raw":{"contract_addr":"%1%","key":"bm8="}}}"#,
            1000000,
            r#"2006 0 "#,
        ),
        (
            &[],
            r#"{"wasm":{"raw":{"contract_addr":"%1%","key":""}}}"#,
            1000000,
            r#"2000 0 "#,
        ),
        (
            &[],
            r#"{"wasm":{"raw":{"contract_addr":"%2%","key":"aw=="}}}"#,
            1000000,
            r#"2003 0 "#,
        ),
        (
            &[],
            r#"{"wasm":{"raw":{"contract_addr":"%1%","key":"bWFueQ=="}}}"#,
            2042,
            r#"2042 0 mmmmmmmmmm"#,
        ),
        (
            &[],
            r#"{"wasm":{"raw":{"contract_addr":"%1%","key":"bWFueQ=="}}}"#,
            2041,
            r#"2041 0 out of gas"#,
        ),
        (
            &[],
            r#"{"wasm":{"raw":{"contract_addr":"%A%","key":"aw=="}}}"#,
            1000,
            r#"1000 0 {"error":{"no_such_contract":{"addr":"%A%"}}}"#,
        ),
    ];
    expect_all(&rt, rt.alloc(), 0, &[], rows)
}

#[test]
fn a_contract_that_is_asked_runs_and_is_paid(rt: HostRuntime) -> Result<(), Fail> {
    let rows: &[Row] = &[
        (&["%1%"], r#"{"ok":"aGk="}"#, 1000000, r#"61043 1 hi"#),
        (&["%1%"], r#"{"ok":"aGk="}"#, 61043, r#"61043 1 hi"#),
        (&["%1%"], r#"{"ok":"aGk="}"#, 61042, r#"61042 1 out of gas"#),
        (&["%1%"], r#"{"ok":"aGk="}"#, 1000, r#"1000 1 out of gas"#),
        (&["%1%"], r#"{"ok":"aGk="}"#, 999, r#"999 0 out of gas"#),
        (
            &["%A%"],
            r#"{}"#,
            1000000,
            r#"1000 0 {"error":{"no_such_contract":{"addr":"%A%"}}}"#,
        ),
        (
            &["%2%"],
            r#"{"bank":{"balance":{"address":"%A%","denom":"utok"}}}"#,
            1000000,
            r#"62076 1 hi"#,
        ),
        (
            &["%2%"],
            r#"{"bank":{"balance":{"address":"%A%","denom":"utok"}}}"#,
            62076,
            r#"62076 1 hi"#,
        ),
        (
            &["%2%"],
            r#"{"bank":{"balance":{"address":"%A%","denom":"utok"}}}"#,
            62075,
            r#"62075 1 out of gas"#,
        ),
        (
            &["%2%"],
            r#"{"bank":{"balance":{"address":"%A%","denom":"utok"}}}"#,
            62052,
            r#"62052 1 out of gas"#,
        ),
        (
            &["%2%", "%2%"],
            r#"{"bank":{"balance":{"address":"%A%","denom":"utok"}}}"#,
            122000,
            r#"122000 2 out of gas"#,
        ),
        (&["%2%", "%1%"], r#"{}"#, 1000000, r#"122119 2 hi"#),
    ];
    expect_all(&rt, rt.alloc(), 0, &[], rows)
}

#[test]
fn ten_contracts_ask_each_other_and_the_eleventh_is_not_asked(rt: HostRuntime) -> Result<(), Fail> {
    let rows: &[Row] = &[
        (
            &[
                "%2%", "%2%", "%2%", "%2%", "%2%", "%2%", "%2%", "%2%", "%2%", "%1%",
            ],
            r#"{}"#,
            1000000,
            r#"610727 10 hi"#,
        ),
        (
            &[
                "%2%", "%2%", "%2%", "%2%", "%2%", "%2%", "%2%", "%2%", "%2%", "%2%", "%2%",
            ],
            r#"{}"#,
            1000000,
            r#"611760 10 hi"#,
        ),
        (
            &[
                "%2%", "%2%", "%2%", "%2%", "%2%", "%2%", "%2%", "%2%", "%2%", "%2%", "%2%",
            ],
            r#"{}"#,
            611760,
            r#"611760 10 hi"#,
        ),
        (
            &[
                "%2%", "%2%", "%2%", "%2%", "%2%", "%2%", "%2%", "%2%", "%2%", "%2%", "%2%",
            ],
            r#"{}"#,
            611759,
            r#"611759 10 out of gas"#,
        ),
    ];
    expect_all(&rt, rt.alloc(), 0, &[], rows)
}

#[test]
fn a_contract_is_answered_as_queries_are(rt: HostRuntime) -> Result<(), Fail> {
    let rows: &[Row] = &[
        (
            &["%3%"],
            r#"{"bank":{"balance":{"address":"%A%","denom":"utok"}}}"#,
            1000000,
            r#"62084 1 {"ok":{"error":"Aborted {\"ok\":{\"ok\":\"eyJhbW91bnQiOnsiYW1vdW50IjoiMTAiLCJkZW5vbSI6InV0b2sifX0=\"}}"}}"#,
        ),
        (
            &["%3%"],
            r#"{"bank":{"all_balances":{"address":"%A%"}}}"#,
            1000000,
            r#"62184 1 {"ok":{"error":"Aborted {\"ok\":{\"ok\":\"eyJhbW91bnQiOlt7ImFtb3VudCI6IjEwIiwiZGVub20iOiJ1dG9rIn1dfQ==\"}}"}}"#,
        ),
        (
            &["%3%"],
            r#"{"wasm":{"code_info":{"code_id":1}}}"#,
            1000000,
            r#"62084 1 {"ok":{"error":"Aborted {\"ok\":{\"ok\":\"eyJjaGVja3N1bSI6IjZmMGQ3MWQ0MDc0YTg4MjRlZTE4OTIwY2VmZWRlOGMyMjJmODYwMTgyMTg3MGVjM2I5N2I4NTgwNmIwZDlkNzQiLCJjb2RlX2lkIjoxLCJjcmVhdG9yIjoiYWJjZGVmMXFwenJ5OXg4Z2YydHZkdzBzM2puNTRraGNlNm11YTdsbXFxcXh3In0=\"}}"}}"#,
        ),
        (
            &["%3%"],
            r#"{"wasm":{"contract_info":{"contract_addr":"%1%"}}}"#,
            1000000,
            r#"62084 1 {"ok":{"error":"Aborted {\"ok\":{\"ok\":\"eyJhZG1pbiI6bnVsbCwiY29kZV9pZCI6MSwiY3JlYXRvciI6ImFiY2RlZjFxcHpyeTl4OGdmMnR2ZHcwczNqbjU0a2hjZTZtdWE3bG1xcXF4dyIsImliY19wb3J0IjpudWxsLCJwaW5uZWQiOmZhbHNlfQ==\"}}"}}"#,
        ),
        (
            &["%3%"],
            r#"{"wasm":{"raw":{"contract_addr":"%1%","key":"aw=="}}}"#,
            1000000,
            r#"63090 1 {"ok":{"error":"Aborted {\"ok\":{\"ok\":\"dg==\"}}"}}"#,
        ),
        (
            &["%3%", "%1%"],
            r#"{"ok":"aGk="}"#,
            1000000,
            r#"122127 2 {"ok":{"error":"Aborted {\"ok\":{\"ok\":\"aGk=\"}}"}}"#,
        ),
        (
            &["%3%", "%1%"],
            r#"{"error":"no"}"#,
            1000000,
            r#"122127 2 {"ok":{"error":"Aborted {\"ok\":{\"error\":\"no\"}}"}}"#,
        ),
        (
            &["%3%", "%1%"],
            r#"no"#,
            1000000,
            r#"122127 2 {"ok":{"error":"Aborted {\"ok\":{\"error\":\"BadResult\"}}"}}"#,
        ),
        (
            &["%3%"],
            r#"{""#,
            1000000,
            r#"62084 1 {"ok":{"error":"Aborted {\"error\":{\"invalid_request\":{\"error\":\"json\",\"request\":\"eyI=\"}}}"}}"#,
        ),
        (
            &["%3%"],
            r#"{"gov":1.5}"#,
            1000000,
            r#"62084 1 {"ok":{"error":"Aborted {\"error\":{\"invalid_request\":{\"error\":\"json\",\"request\":\"eyJnb3YiOjEuNX0=\"}}}"}}"#,
        ),
        (
            &["%3%"],
            r#"{"bank":{}}"#,
            1000000,
            r#"62084 1 {"ok":{"error":"Aborted {\"error\":{\"invalid_request\":{\"error\":\"shape\",\"request\":\"eyJiYW5rIjp7fX0=\"}}}"}}"#,
        ),
        (
            &["%3%"],
            r#"{"wasm":{"mint":1}}"#,
            1000000,
            r#"62084 1 {"ok":{"error":"Aborted {\"error\":{\"unsupported_request\":{\"kind\":\"wasm.mint\"}}}"}}"#,
        ),
        (
            &["%3%"],
            r#"{"wasm":{"smart":{"contract_addr":"zz","msg":""}}}"#,
            1000000,
            r#"62084 1 {"ok":{"error":"Aborted {\"error\":{\"invalid_request\":{\"error\":\"address\",\"request\":\"eyJ3YXNtIjp7InNtYXJ0Ijp7ImNvbnRyYWN0X2FkZHIiOiJ6eiIsIm1zZyI6IiJ9fX0=\"}}}"}}"#,
        ),
        (
            &["%3%"],
            r#"{"wasm":{"contract_info":{"contract_addr":"%A%"}}}"#,
            1000000,
            r#"62084 1 {"ok":{"error":"Aborted {\"error\":{\"no_such_contract\":{\"addr\":\"%A%\"}}}"}}"#,
        ),
        (
            &["%3%"],
            r#"{"wasm":{"code_info":{"code_id":8}}}"#,
            1000000,
            r#"62084 1 {"ok":{"error":"Aborted {\"error\":{\"no_such_code\":{\"code_id\":8}}}"}}"#,
        ),
    ];
    expect_all(&rt, rt.alloc(), 0, &[], rows)
}

#[test]
fn what_a_contract_does_wrong_is_its_answer(rt: HostRuntime) -> Result<(), Fail> {
    let rows: &[Row] = &[
        (
            &["%1%"],
            r#"{"error":"no"}"#,
            1000000,
            r#"61043 1 {"ok":{"error":"no"}}"#,
        ),
        (
            &["%1%"],
            r#"no"#,
            1000000,
            r#"61043 1 {"ok":{"error":"BadResult"}}"#,
        ),
        (
            &["%1%"],
            r#"{"ok":1}"#,
            1000000,
            r#"61043 1 {"ok":{"error":"BadResult"}}"#,
        ),
        (
            &["%1%"],
            r#"{}"#,
            1000000,
            r#"61043 1 {"ok":{"error":"BadResult"}}"#,
        ),
        (
            &["%4%"],
            r#"{}"#,
            1000000,
            r#"61054 1 {"ok":{"error":"WriteInQuery"}}"#,
        ),
        (
            &["%5%"],
            r#"{}"#,
            1000000,
            r#"61000 1 {"ok":{"error":"NoEntry query"}}"#,
        ),
        (&["%5%"], r#"{}"#, 60999, r#"60999 1 out of gas"#),
        (
            &["%6%"],
            r#"{}"#,
            1000000,
            r#"61043 1 {"ok":{"error":"Trap Unreachable"}}"#,
        ),
        (
            &["%7%"],
            r#"{}"#,
            1000000,
            r#"61053 1 {"ok":{"error":"Aborted {\"block\":{\"chain_id\":\"t-1\",\"height\":0,\"time\":\"0\"},\"contract\":{\"address\":\"%7%\"},\"transaction\":null}"}}"#,
        ),
    ];
    expect_all(&rt, rt.alloc(), 0, &[], rows)
}

#[test]
fn a_pinned_contract_is_asked_for_less(rt: HostRuntime) -> Result<(), Fail> {
    let rows: &[Row] = &[
        (
            &[],
            r#"{"wasm":{"contract_info":{"contract_addr":"%1%"}}}"#,
            1000000,
            r#"1000 0 {"admin":null,"code_id":1,"creator":"%A%","ibc_port":null,"pinned":false}"#,
        ),
        (
            &[],
            r#"{"wasm":{"contract_info":{"contract_addr":"%2%"}}}"#,
            1000000,
            r#"1000 0 {"admin":"%A%","code_id":2,"creator":"%A%","ibc_port":null,"pinned":true}"#,
        ),
        (
            &["%2%"],
            r#"{"bank":{"balance":{"address":"%A%","denom":"utok"}}}"#,
            7076,
            r#"7076 1 hi"#,
        ),
        (
            &["%2%"],
            r#"{"bank":{"balance":{"address":"%A%","denom":"utok"}}}"#,
            7075,
            r#"7075 1 out of gas"#,
        ),
        (&["%2%", "%1%"], r#"{}"#, 1000000, r#"67119 2 hi"#),
    ];
    expect_all(&rt, rt.alloc(), 0, &[2], rows)
}

#[test]
fn at_the_greatest_depth_no_contract_is_asked(rt: HostRuntime) -> Result<(), Fail> {
    let rows: &[Row] = &[
        (
            &["%1%"],
            r#"{"ok":"aGk="}"#,
            1000000,
            r#"1000 0 {"ok":{"error":"QueryDepth"}}"#,
        ),
        (
            &["zz"],
            r#"{}"#,
            1000000,
            r#"1000 0 {"ok":{"error":"QueryDepth"}}"#,
        ),
        (&["zz"], r#"{}"#, 999, r#"999 0 out of gas"#),
        (
            &[],
            r#"{"wasm":{"code_info":{"code_id":9}}}"#,
            1000000,
            r#"1000 0 {"error":{"no_such_code":{"code_id":9}}}"#,
        ),
        (
            &[],
            r#"{"wasm":{"raw":{"contract_addr":"%1%","key":"aw=="}}}"#,
            1000000,
            r#"2006 0 v"#,
        ),
    ];
    expect_all(&rt, rt.alloc(), 10, &[], rows)
}

#[test]
fn one_above_the_greatest_depth_a_contract_is_asked(rt: HostRuntime) -> Result<(), Fail> {
    let rows: &[Row] = &[
        (&["%1%"], r#"{"ok":"aGk="}"#, 1000000, r#"61043 1 hi"#),
        (
            &["%3%", "%1%"],
            r#"{"ok":"aGk="}"#,
            1000000,
            r#"62084 1 {"ok":{"error":"Aborted {\"ok\":{\"error\":\"QueryDepth\"}}"}}"#,
        ),
    ];
    expect_all(&rt, rt.alloc(), 9, &[], rows)
}
