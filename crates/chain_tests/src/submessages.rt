//! Submessages of contracts, and the replies to them.

use crate::acts::{Act, FIRST, SECOND, expect_all};
use std::test::Fail;

#[test]
fn a_failure_and_a_success_go_to_the_reply(rt: HostRuntime) -> Result<(), Fail> {
    let acts: &[(Act, &str)] = &[
        FIRST,
        (
            Act::Tx(
                "%A%",
                1_000_000,
                r#"[{"wasm":{"execute":{"contract_addr":"%1%","funds":[],"msg":"<{"ok":{"messages":[{"gas_limit":null,"id":1,"msg":{"wasm":{"execute":{"contract_addr":"%1%","funds":[],"msg":"<{"error":"no"}>"}}},"reply_on":"error"},{"gas_limit":null,"id":2,"msg":{"wasm":{"execute":{"contract_addr":"%1%","funds":[],"msg":"<{"ok":{}}>"}}},"reply_on":"always"}]}}>"}}}]"#,
            ),
            r#"{"code":0,"codespace":"","data":["cg=="],"detail":"","events":[{"attributes":[{"key":"_contract_address","value":"%1%"}],"type":"execute"},{"attributes":[{"key":"_contract_address","value":"%1%"}],"type":"reply"},{"attributes":[{"key":"_contract_address","value":"%1%"}],"type":"execute"},{"attributes":[{"key":"_contract_address","value":"%1%"}],"type":"reply"}],"gas":303278}"#,
        ),
        (
            Act::Tx(
                "%A%",
                1_000_000,
                r#"[{"wasm":{"execute":{"contract_addr":"%1%","funds":[],"msg":"<{"ok":{"messages":[{"gas_limit":null,"id":1,"msg":{"wasm":{"execute":{"contract_addr":"%1%","funds":[],"msg":"<{"ok":{}}>"}}},"reply_on":"success"}]}}>"}}}]"#,
            ),
            r#"{"code":0,"codespace":"","data":["cg=="],"detail":"","events":[{"attributes":[{"key":"_contract_address","value":"%1%"}],"type":"execute"},{"attributes":[{"key":"_contract_address","value":"%1%"}],"type":"execute"},{"attributes":[{"key":"_contract_address","value":"%1%"}],"type":"reply"}],"gas":182171}"#,
        ),
        (
            Act::Tx(
                "%A%",
                1_000_000,
                r#"[{"wasm":{"execute":{"contract_addr":"%1%","funds":[],"msg":"<{"ok":{"messages":[{"gas_limit":null,"id":1,"msg":{"wasm":{"execute":{"contract_addr":"%1%","funds":[],"msg":"<{"ok":{}}>"}}},"reply_on":"error"}]}}>"}}}]"#,
            ),
            r#"{"code":0,"codespace":"","data":[null],"detail":"","events":[{"attributes":[{"key":"_contract_address","value":"%1%"}],"type":"execute"},{"attributes":[{"key":"_contract_address","value":"%1%"}],"type":"execute"}],"gas":122128}"#,
        ),
        // the data of a submessage are not those of its caller
        (
            Act::Tx(
                "%A%",
                1_000_000,
                r#"[{"wasm":{"execute":{"contract_addr":"%1%","funds":[],"msg":"<{"ok":{"messages":[{"gas_limit":null,"id":1,"msg":{"wasm":{"execute":{"contract_addr":"%1%","funds":[],"msg":"<{"ok":{"data":"aGk="}}>"}}},"reply_on":"never"}]}}>"}}}]"#,
            ),
            r#"{"code":0,"codespace":"","data":[null],"detail":"","events":[{"attributes":[{"key":"_contract_address","value":"%1%"}],"type":"execute"},{"attributes":[{"key":"_contract_address","value":"%1%"}],"type":"execute"}],"gas":122128}"#,
        ),
        // a failure without a reply fails the caller
        (
            Act::Tx(
                "%A%",
                1_000_000,
                r#"[{"wasm":{"execute":{"contract_addr":"%1%","funds":[],"msg":"<{"ok":{"messages":[{"gas_limit":null,"id":1,"msg":{"wasm":{"execute":{"contract_addr":"%1%","funds":[],"msg":"<{"error":"no"}>"}}},"reply_on":"success"},{"gas_limit":null,"id":2,"msg":{"wasm":{"execute":{"contract_addr":"%1%","funds":[],"msg":"<{"ok":{}}>"}}},"reply_on":"always"}]}}>"}}}]"#,
            ),
            r#"{"code":5,"codespace":"wasm","data":[],"detail":"ContractError no","events":[],"gas":122128}"#,
        ),
        (
            Act::Tx(
                "%A%",
                1_000_000,
                r#"[{"wasm":{"execute":{"contract_addr":"%1%","funds":[],"msg":"<{"ok":{"messages":[{"gas_limit":null,"id":1,"msg":{"wasm":{"execute":{"contract_addr":"%1%","funds":[],"msg":"<{"error":"no"}>"}}},"reply_on":"never"}]}}>"}}}]"#,
            ),
            r#"{"code":5,"codespace":"wasm","data":[],"detail":"ContractError no","events":[],"gas":122128}"#,
        ),
        // so is a failed check handed over
        (
            Act::Tx(
                "%A%",
                1_000_000,
                r#"[{"wasm":{"execute":{"contract_addr":"%1%","funds":[],"msg":"<{"ok":{"messages":[{"gas_limit":null,"id":1,"msg":{"wasm":{"execute":{"contract_addr":"zz","funds":[],"msg":"<{"ok":{}}>"}}},"reply_on":"error"}]}}>"}}}]"#,
            ),
            r#"{"code":0,"codespace":"","data":["cg=="],"detail":"","events":[{"attributes":[{"key":"_contract_address","value":"%1%"}],"type":"execute"},{"attributes":[{"key":"_contract_address","value":"%1%"}],"type":"reply"}],"gas":122107}"#,
        ),
    ];
    expect_all(&rt, rt.alloc(), acts)
}

#[test]
fn a_gas_limit_counts_where_so_much_is_left(rt: HostRuntime) -> Result<(), Fail> {
    let acts: &[(Act, &str)] = &[
        FIRST,
        (
            Act::Tx(
                "%A%",
                1_000_000,
                r#"[{"wasm":{"execute":{"contract_addr":"%1%","funds":[],"msg":"<{"ok":{"messages":[{"gas_limit":61063,"id":1,"msg":{"wasm":{"execute":{"contract_addr":"%1%","funds":[],"msg":"<{"ok":{}}>"}}},"reply_on":"error"}]}}>"}}}]"#,
            ),
            r#"{"code":0,"codespace":"","data":["cg=="],"detail":"","events":[{"attributes":[{"key":"_contract_address","value":"%1%"}],"type":"execute"},{"attributes":[{"key":"_contract_address","value":"%1%"}],"type":"reply"}],"gas":182170}"#,
        ),
        (
            Act::Tx(
                "%A%",
                122127,
                r#"[{"wasm":{"execute":{"contract_addr":"%1%","funds":[],"msg":"<{"ok":{"messages":[{"gas_limit":200000,"id":1,"msg":{"wasm":{"execute":{"contract_addr":"%1%","funds":[],"msg":"<{"ok":{}}>"}}},"reply_on":"error"}]}}>"}}}]"#,
            ),
            r#"{"code":11,"codespace":"sdk","data":[],"detail":"OutOfGas","events":[],"gas":122127}"#,
        ),
        (
            Act::Tx(
                "%A%",
                122127,
                r#"[{"wasm":{"execute":{"contract_addr":"%1%","funds":[],"msg":"<{"ok":{"messages":[{"gas_limit":61063,"id":1,"msg":{"wasm":{"execute":{"contract_addr":"%1%","funds":[],"msg":"<{"ok":{}}>"}}},"reply_on":"error"}]}}>"}}}]"#,
            ),
            r#"{"code":11,"codespace":"sdk","data":[],"detail":"OutOfGas","events":[],"gas":122127}"#,
        ),
        (
            Act::Tx(
                "%A%",
                1_000_000,
                r#"[{"wasm":{"execute":{"contract_addr":"%1%","funds":[],"msg":"<{"ok":{"messages":[{"gas_limit":61064,"id":1,"msg":{"wasm":{"execute":{"contract_addr":"%1%","funds":[],"msg":"<{"ok":{}}>"}}},"reply_on":"error"}]}}>"}}}]"#,
            ),
            r#"{"code":0,"codespace":"","data":[null],"detail":"","events":[{"attributes":[{"key":"_contract_address","value":"%1%"}],"type":"execute"},{"attributes":[{"key":"_contract_address","value":"%1%"}],"type":"execute"}],"gas":122128}"#,
        ),
        // the limit is used, and nobody takes the failure
        (
            Act::Tx(
                "%A%",
                1_000_000,
                r#"[{"wasm":{"execute":{"contract_addr":"%1%","funds":[],"msg":"<{"ok":{"messages":[{"gas_limit":61063,"id":1,"msg":{"wasm":{"execute":{"contract_addr":"%1%","funds":[],"msg":"<{"ok":{}}>"}}},"reply_on":"never"}]}}>"}}}]"#,
            ),
            r#"{"code":11,"codespace":"sdk","data":[],"detail":"OutOfGas","events":[],"gas":122127}"#,
        ),
        // the nearest limit that counts
        (
            Act::Tx(
                "%A%",
                1_000_000,
                r#"[{"wasm":{"execute":{"contract_addr":"%1%","funds":[],"msg":"<{"ok":{"messages":[{"gas_limit":100000,"id":1,"msg":{"wasm":{"execute":{"contract_addr":"%1%","funds":[],"msg":"<{"ok":{"messages":[{"gas_limit":null,"id":1,"msg":{"wasm":{"execute":{"contract_addr":"%1%","funds":[],"msg":"<{"ok":{}}>"}}},"reply_on":"error"}]}}>"}}},"reply_on":"error"}]}}>"}}}]"#,
            ),
            r#"{"code":0,"codespace":"","data":["cg=="],"detail":"","events":[{"attributes":[{"key":"_contract_address","value":"%1%"}],"type":"execute"},{"attributes":[{"key":"_contract_address","value":"%1%"}],"type":"reply"}],"gas":221107}"#,
        ),
        (
            Act::Tx(
                "%A%",
                1_000_000,
                r#"[{"wasm":{"execute":{"contract_addr":"%1%","funds":[],"msg":"<{"ok":{"messages":[{"gas_limit":100000,"id":1,"msg":{"wasm":{"execute":{"contract_addr":"%1%","funds":[],"msg":"<{"ok":{"messages":[{"gas_limit":50000,"id":1,"msg":{"wasm":{"execute":{"contract_addr":"%1%","funds":[],"msg":"<{"ok":{}}>"}}},"reply_on":"error"}]}}>"}}},"reply_on":"error"}]}}>"}}}]"#,
            ),
            r#"{"code":0,"codespace":"","data":["cg=="],"detail":"","events":[{"attributes":[{"key":"_contract_address","value":"%1%"}],"type":"execute"},{"attributes":[{"key":"_contract_address","value":"%1%"}],"type":"reply"}],"gas":221107}"#,
        ),
    ];
    expect_all(&rt, rt.alloc(), acts)
}

#[test]
fn submessages_run_depth_first(rt: HostRuntime) -> Result<(), Fail> {
    let acts: &[(Act, &str)] = &[
        FIRST,
        SECOND,
        (
            Act::Tx(
                "%A%",
                1_000_000,
                r#"[{"wasm":{"execute":{"contract_addr":"%1%","funds":[],"msg":"<{"ok":{"messages":[{"gas_limit":null,"id":1,"msg":{"wasm":{"execute":{"contract_addr":"%1.2%","funds":[],"msg":"<{"ok":{"messages":[{"gas_limit":null,"id":1,"msg":{"wasm":{"execute":{"contract_addr":"%1%","funds":[],"msg":"<{"ok":{}}>"}}},"reply_on":"always"}]}}>"}}},"reply_on":"always"},{"gas_limit":null,"id":2,"msg":{"wasm":{"execute":{"contract_addr":"%1.2%","funds":[],"msg":"<{"ok":{}}>"}}},"reply_on":"never"}]}}>"}}}]"#,
            ),
            r#"{"code":0,"codespace":"","data":["cg=="],"detail":"","events":[{"attributes":[{"key":"_contract_address","value":"%1%"}],"type":"execute"},{"attributes":[{"key":"_contract_address","value":"%1.2%"}],"type":"execute"},{"attributes":[{"key":"_contract_address","value":"%1%"}],"type":"execute"},{"attributes":[{"key":"_contract_address","value":"%1.2%"}],"type":"reply"},{"attributes":[{"key":"_contract_address","value":"%1%"}],"type":"reply"},{"attributes":[{"key":"_contract_address","value":"%1.2%"}],"type":"execute"}],"gas":364342}"#,
        ),
    ];
    expect_all(&rt, rt.alloc(), acts)
}

#[test]
fn a_failed_submessage_leaves_no_state_and_no_events(rt: HostRuntime) -> Result<(), Fail> {
    let acts: &[(Act, &str)] = &[
        FIRST,
        SECOND,
        (
            Act::Tx(
                "%A%",
                1_000_000,
                r#"[{"wasm":{"execute":{"contract_addr":"%1%","funds":[{"amount":"3","denom":"utok"}],"msg":"<{"ok":{"messages":[{"gas_limit":null,"id":1,"msg":{"wasm":{"execute":{"contract_addr":"%1.2%","funds":[{"amount":"2","denom":"utok"}],"msg":"<{"ok":{"messages":[{"gas_limit":null,"id":1,"msg":{"bank":{"send":{"amount":[{"amount":"1","denom":"utok"}],"to_address":"%B%"}}},"reply_on":"never"},{"gas_limit":null,"id":2,"msg":{"wasm":{"execute":{"contract_addr":"%1.2%","funds":[],"msg":"<{"error":"no"}>"}}},"reply_on":"never"}]}}>"}}},"reply_on":"error"}]}}>"}}}]"#,
            ),
            r#"{"code":0,"codespace":"","data":["cg=="],"detail":"","events":[{"attributes":[{"key":"recipient","value":"%1%"},{"key":"sender","value":"%A%"},{"key":"amount","value":"3utok"}],"type":"transfer"},{"attributes":[{"key":"_contract_address","value":"%1%"}],"type":"execute"},{"attributes":[{"key":"_contract_address","value":"%1%"}],"type":"reply"}],"gas":244535}"#,
        ),
        (
            Act::Query(
                1_000_000,
                r#"{"bank":{"balance":{"address":"%1%","denom":"utok"}}}"#,
            ),
            r#"1000 {"amount":{"amount":"3","denom":"utok"}}"#,
        ),
        (
            Act::Query(
                1_000_000,
                r#"{"bank":{"balance":{"address":"%1.2%","denom":"utok"}}}"#,
            ),
            r#"1000 {"amount":{"amount":"0","denom":"utok"}}"#,
        ),
        (
            Act::Query(
                1_000_000,
                r#"{"bank":{"balance":{"address":"%B%","denom":"utok"}}}"#,
            ),
            r#"1000 {"amount":{"amount":"0","denom":"utok"}}"#,
        ),
    ];
    expect_all(&rt, rt.alloc(), acts)
}

#[test]
fn what_a_failed_submessage_wrote_is_gone(rt: HostRuntime) -> Result<(), Fail> {
    let acts: &[(Act, &str)] = &[
        FIRST,
        (
            Act::Tx(
                "%A%",
                1_000_000,
                r#"[{"store_code":{"code":"%KEEPER%"}},{"wasm":{"instantiate":{"admin":null,"code_id":2,"funds":[],"label":"e","msg":"<{"ok":{}}>"}}}]"#,
            ),
            r#"{"code":0,"codespace":"","data":[null,null],"detail":"","events":[{"attributes":[{"key":"code_checksum","value":"6c81bbae4d8166edee8fb86b207eecf48b974e22daaa0cd5d63a576ce8a3eafd"},{"key":"code_id","value":"2"}],"type":"store_code"},{"attributes":[{"key":"_contract_address","value":"%2%"},{"key":"code_id","value":"2"}],"type":"instantiate"}],"gas":73189}"#,
        ),
        (
            Act::Tx(
                "%A%",
                1_000_000,
                r#"[{"wasm":{"execute":{"contract_addr":"%1%","funds":[],"msg":"<{"ok":{"messages":[{"gas_limit":null,"id":1,"msg":{"wasm":{"execute":{"contract_addr":"%2%","funds":[],"msg":"<{"error":"no"}>"}}},"reply_on":"error"}]}}>"}}}]"#,
            ),
            r#"{"code":0,"codespace":"","data":["cg=="],"detail":"","events":[{"attributes":[{"key":"_contract_address","value":"%1%"}],"type":"execute"},{"attributes":[{"key":"_contract_address","value":"%1%"}],"type":"reply"}],"gas":184243}"#,
        ),
        (
            Act::Query(
                1_000_000,
                r#"{"wasm":{"raw":{"contract_addr":"%2%","key":"aw=="}}}"#,
            ),
            r#"2003 "#,
        ),
        (
            Act::Tx(
                "%A%",
                1_000_000,
                r#"[{"wasm":{"execute":{"contract_addr":"%2%","funds":[],"msg":"<{"ok":{}}>"}}}]"#,
            ),
            r#"{"code":0,"codespace":"","data":[null],"detail":"","events":[{"attributes":[{"key":"_contract_address","value":"%2%"}],"type":"execute"}],"gas":63136}"#,
        ),
        (
            Act::Query(
                1_000_000,
                r#"{"wasm":{"raw":{"contract_addr":"%2%","key":"aw=="}}}"#,
            ),
            r#"2006 v"#,
        ),
    ];
    expect_all(&rt, rt.alloc(), acts)
}
