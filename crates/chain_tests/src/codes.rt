//! Codes that are pinned or taken back, when they are run.

use crate::acts::{Act, FIRST, expect_all};
use std::test::Fail;

#[test]
fn a_pin_counts_in_its_own_transaction_and_goes_by_the_next(rt: HostRuntime) -> Result<(), Fail> {
    let acts: &[(Act, &str)] = &[
        FIRST,
        (
            Act::Tx(
                "%A%",
                1_000_000,
                r#"[{"pin_code":{"ids":[1]}},{"wasm":{"execute":{"contract_addr":"%1%","funds":[],"msg":"<{"ok":{}}>"}}}]"#,
            ),
            r#"{"code":0,"codespace":"","data":[null,null],"detail":"","events":[{"attributes":[{"key":"code_id","value":"1"}],"type":"pin_code"},{"attributes":[{"key":"_contract_address","value":"%1%"}],"type":"execute"}],"gas":7064}"#,
        ),
        (
            Act::Tx(
                "%A%",
                1_000_000,
                r#"[{"unpin_code":{"ids":[1]}},{"bank":{"send":{"amount":[{"amount":"11","denom":"utok"}],"to_address":"%B%"}}}]"#,
            ),
            r#"{"code":5,"codespace":"sdk","data":[],"detail":"NotEnough utok 10 11","events":[],"gas":2100}"#,
        ),
        (
            Act::Tx(
                "%A%",
                1_000_000,
                r#"[{"wasm":{"execute":{"contract_addr":"%1%","funds":[],"msg":"<{"ok":{}}>"}}}]"#,
            ),
            r#"{"code":0,"codespace":"","data":[null],"detail":"","events":[{"attributes":[{"key":"_contract_address","value":"%1%"}],"type":"execute"}],"gas":6064}"#,
        ),
        (
            Act::Query(
                1_000_000,
                r#"{"wasm":{"contract_info":{"contract_addr":"%1%"}}}"#,
            ),
            r#"1000 {"admin":null,"code_id":1,"creator":"%A%","ibc_port":null,"pinned":true}"#,
        ),
        (
            Act::Tx(
                "%A%",
                1_000_000,
                r#"[{"wasm":{"execute":{"contract_addr":"%1%","funds":[],"msg":"<{"ok":{}}>"}}},{"unpin_code":{"ids":[1]}},{"wasm":{"execute":{"contract_addr":"%1%","funds":[],"msg":"<{"ok":{}}>"}}}]"#,
            ),
            r#"{"code":0,"codespace":"","data":[null,null,null],"detail":"","events":[{"attributes":[{"key":"_contract_address","value":"%1%"}],"type":"execute"},{"attributes":[{"key":"code_id","value":"1"}],"type":"unpin_code"},{"attributes":[{"key":"_contract_address","value":"%1%"}],"type":"execute"}],"gas":68128}"#,
        ),
        (
            Act::Query(
                1_000_000,
                r#"{"wasm":{"contract_info":{"contract_addr":"%1%"}}}"#,
            ),
            r#"1000 {"admin":null,"code_id":1,"creator":"%A%","ibc_port":null,"pinned":false}"#,
        ),
    ];
    expect_all(&rt, rt.alloc(), acts)
}

#[test]
fn a_code_that_was_taken_back_is_not_run(rt: HostRuntime) -> Result<(), Fail> {
    let acts: &[(Act, &str)] = &[
        FIRST,
        (
            Act::Tx(
                "%A%",
                1_000_000,
                r#"[{"store_code":{"code":"%SPIN%"}},{"wasm":{"instantiate":{"admin":null,"code_id":2,"funds":[],"label":"e","msg":"<{"ok":{}}>"}}},{"bank":{"send":{"amount":[{"amount":"11","denom":"utok"}],"to_address":"%A%"}}}]"#,
            ),
            r#"{"code":5,"codespace":"sdk","data":[],"detail":"NotEnough utok 10 11","events":[],"gas":74049}"#,
        ),
        (
            Act::Tx(
                "%A%",
                1_000_000,
                r#"[{"store_code":{"code":"%ECHO%"}},{"wasm":{"instantiate":{"admin":null,"code_id":2,"funds":[],"label":"e","msg":"<{"ok":{}}>"}}},{"wasm":{"execute":{"contract_addr":"%2%","funds":[],"msg":"<{"ok":{}}>"}}}]"#,
            ),
            r#"{"code":0,"codespace":"","data":[null,null,null],"detail":"","events":[{"attributes":[{"key":"code_checksum","value":"6f0d71d4074a8824ee18920cefede8c222f8601821870ec3b97b85806b0d9d74"},{"key":"code_id","value":"2"}],"type":"store_code"},{"attributes":[{"key":"_contract_address","value":"%2%"},{"key":"code_id","value":"2"}],"type":"instantiate"},{"attributes":[{"key":"_contract_address","value":"%2%"}],"type":"execute"}],"gas":134004}"#,
        ),
        (
            Act::Tx(
                "%A%",
                1_000_000,
                r#"[{"store_code":{"code":"%SPIN%"}},{"wasm":{"instantiate":{"admin":null,"code_id":3,"funds":[],"label":"e","msg":"<{"ok":{}}>"}}}]"#,
            ),
            r#"{"code":0,"codespace":"","data":[null,null],"detail":"","events":[{"attributes":[{"key":"code_checksum","value":"ac23d37e62e7a48c72dd6ed1bffc49b8ffb5dedd754810a713fe32c817b6492b"},{"key":"code_id","value":"3"}],"type":"store_code"},{"attributes":[{"key":"_contract_address","value":"%3%"},{"key":"code_id","value":"3"}],"type":"instantiate"}],"gas":72949}"#,
        ),
        (
            Act::Tx(
                "%A%",
                100000,
                r#"[{"wasm":{"execute":{"contract_addr":"%3%","funds":[],"msg":"<{"ok":{}}>"}}}]"#,
            ),
            r#"{"code":11,"codespace":"sdk","data":[],"detail":"OutOfGas","events":[],"gas":100000}"#,
        ),
    ];
    expect_all(&rt, rt.alloc(), acts)
}
