//! What a contract that is called asks.

use crate::acts::{Act, expect_on};
use crate::stored::stored;
use std::test::Fail;

#[test]
fn a_raw_query_of_a_call_sees_what_the_call_wrote(rt: HostRuntime) -> Result<(), Fail> {
    let alloc = rt.alloc();
    // the contract writes `v` at the key `k`, and aborts with the answer
    let rows: &[(Act, &str)] = &[
        (
            Act::Tx(
                "%A%",
                1_000_000,
                r#"[{"wasm":{"execute":{"contract_addr":"%2%","funds":[],"msg":"<{"wasm":{"raw":{"contract_addr":"%2%","key":"aw=="}}}>"}}}]"#,
            ),
            r#"{"code":5,"codespace":"wasm","data":[],"detail":"Aborted {\"ok\":{\"ok\":\"dg==\"}}","events":[],"gas":65183}"#,
        ),
        (
            Act::Tx(
                "%A%",
                1_000_000,
                r#"[{"wasm":{"execute":{"contract_addr":"%2%","funds":[],"msg":"<{"wasm":{"raw":{"contract_addr":"%2%","key":"bm8="}}}>"}}}]"#,
            ),
            r#"{"code":5,"codespace":"wasm","data":[],"detail":"Aborted {\"ok\":{\"ok\":\"\"}}","events":[],"gas":65183}"#,
        ),
        // it is gone with the call
        (
            Act::Query(
                1_000_000,
                r#"{"wasm":{"raw":{"contract_addr":"%2%","key":"aw=="}}}"#,
            ),
            "2003 ",
        ),
    ];
    let layers = stored(alloc, &[])?;
    expect_on(&rt, alloc, layers, rows)
}
