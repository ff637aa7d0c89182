//! Executes of contracts.

use crate::acts::{Act, FIRST, expect_all};
use std::test::Fail;

#[test]
fn an_execute_is_paid_to_the_gas_unit(rt: HostRuntime) -> Result<(), Fail> {
    let acts: &[(Act, &str)] = &[
        FIRST,
        (
            Act::Tx(
                "%A%",
                61064,
                r#"[{"wasm":{"execute":{"contract_addr":"%1%","funds":[],"msg":"<{"ok":{}}>"}}}]"#,
            ),
            r#"{"code":0,"codespace":"","data":[null],"detail":"","events":[{"attributes":[{"key":"_contract_address","value":"%1%"}],"type":"execute"}],"gas":61064}"#,
        ),
        (
            Act::Tx(
                "%A%",
                61063,
                r#"[{"wasm":{"execute":{"contract_addr":"%1%","funds":[],"msg":"<{"ok":{}}>"}}}]"#,
            ),
            r#"{"code":11,"codespace":"sdk","data":[],"detail":"OutOfGas","events":[],"gas":61063}"#,
        ),
        (
            Act::Tx(
                "%B%",
                1_000_000,
                r#"[{"wasm":{"execute":{"contract_addr":"%1%","funds":[],"msg":"<{"error":"no"}>"}}}]"#,
            ),
            r#"{"code":5,"codespace":"wasm","data":[],"detail":"ContractError no","events":[],"gas":61064}"#,
        ),
        // an address in upper case
        (
            Act::Tx(
                "%A%",
                1_000_000,
                r#"[{"wasm":{"execute":{"contract_addr":"%U1%","funds":[],"msg":"<{"ok":{}}>"}}}]"#,
            ),
            r#"{"code":0,"codespace":"","data":[null],"detail":"","events":[{"attributes":[{"key":"_contract_address","value":"%1%"}],"type":"execute"}],"gas":61064}"#,
        ),
        (
            Act::Tx(
                "%A%",
                1_000_000,
                r#"[{"wasm":{"execute":{"contract_addr":"%1%","funds":[],"msg":"<{}>"}}}]"#,
            ),
            r#"{"code":5,"codespace":"wasm","data":[],"detail":"BadResult","events":[],"gas":61064}"#,
        ),
    ];
    expect_all(&rt, rt.alloc(), acts)
}

#[test]
fn attributes_and_events_of_an_answer_come_after_the_execute(rt: HostRuntime) -> Result<(), Fail> {
    let acts: &[(Act, &str)] = &[
        FIRST,
        (
            Act::Tx(
                "%A%",
                1_000_000,
                r#"[{"wasm":{"execute":{"contract_addr":"%1%","funds":[],"msg":"<{"ok":{"attributes":[{"key":"k","value":"v"}],"data":"aGk=","events":[{"attributes":[],"type":"ab"},{"attributes":[{"key":"l","value":""}],"type":"cd"}]}}>"}}}]"#,
            ),
            r#"{"code":0,"codespace":"","data":["aGk="],"detail":"","events":[{"attributes":[{"key":"_contract_address","value":"%1%"}],"type":"execute"},{"attributes":[{"key":"_contract_address","value":"%1%"},{"key":"k","value":"v"}],"type":"wasm"},{"attributes":[{"key":"_contract_address","value":"%1%"}],"type":"wasm-ab"},{"attributes":[{"key":"_contract_address","value":"%1%"},{"key":"l","value":""}],"type":"wasm-cd"}],"gas":61064}"#,
        ),
        (
            Act::Tx(
                "%A%",
                1_000_000,
                r#"[{"wasm":{"execute":{"contract_addr":"%1%","funds":[],"msg":"<{"ok":{"attributes":null,"data":null,"events":null,"messages":null}}>"}}}]"#,
            ),
            r#"{"code":0,"codespace":"","data":[null],"detail":"","events":[{"attributes":[{"key":"_contract_address","value":"%1%"}],"type":"execute"}],"gas":61064}"#,
        ),
        (
            Act::Tx(
                "%A%",
                1_000_000,
                r#"[{"wasm":{"execute":{"contract_addr":"%1%","funds":[],"msg":"<{"ok":{"attributes":[{"key":"_k","value":"v"}]}}>"}}}]"#,
            ),
            r#"{"code":5,"codespace":"wasm","data":[],"detail":"BadEvent","events":[],"gas":61064}"#,
        ),
        (
            Act::Tx(
                "%A%",
                1_000_000,
                r#"[{"wasm":{"execute":{"contract_addr":"%1%","funds":[],"msg":"<{"ok":{"attributes":[{"key":"","value":"v"}]}}>"}}}]"#,
            ),
            r#"{"code":5,"codespace":"wasm","data":[],"detail":"BadEvent","events":[],"gas":61064}"#,
        ),
        (
            Act::Tx(
                "%A%",
                1_000_000,
                r#"[{"wasm":{"execute":{"contract_addr":"%1%","funds":[],"msg":"<{"ok":{"events":[{"attributes":[],"type":"a"}]}}>"}}}]"#,
            ),
            r#"{"code":5,"codespace":"wasm","data":[],"detail":"BadEvent","events":[],"gas":61064}"#,
        ),
    ];
    expect_all(&rt, rt.alloc(), acts)
}

#[test]
fn funds_are_moved_before_the_call_and_go_back_where_it_fails(rt: HostRuntime) -> Result<(), Fail> {
    let acts: &[(Act, &str)] = &[
        FIRST,
        (
            Act::Tx(
                "%A%",
                1_000_000,
                r#"[{"wasm":{"execute":{"contract_addr":"%1%","funds":[{"amount":"3","denom":"utok"}],"msg":"<{"ok":{}}>"}}}]"#,
            ),
            r#"{"code":0,"codespace":"","data":[null],"detail":"","events":[{"attributes":[{"key":"recipient","value":"%1%"},{"key":"sender","value":"%A%"},{"key":"amount","value":"3utok"}],"type":"transfer"},{"attributes":[{"key":"_contract_address","value":"%1%"}],"type":"execute"}],"gas":61164}"#,
        ),
        (
            Act::Query(
                1_000_000,
                r#"{"bank":{"balance":{"address":"%1%","denom":"utok"}}}"#,
            ),
            r#"1000 {"amount":{"amount":"3","denom":"utok"}}"#,
        ),
        (
            Act::Tx(
                "%A%",
                1_000_000,
                r#"[{"wasm":{"execute":{"contract_addr":"%1%","funds":[{"amount":"3","denom":"utok"}],"msg":"<{"error":"no"}>"}}}]"#,
            ),
            r#"{"code":5,"codespace":"wasm","data":[],"detail":"ContractError no","events":[],"gas":61164}"#,
        ),
        (
            Act::Tx(
                "%A%",
                1_000_000,
                r#"[{"wasm":{"execute":{"contract_addr":"%1%","funds":[{"amount":"8","denom":"utok"}],"msg":"<{"ok":{}}>"}}}]"#,
            ),
            r#"{"code":5,"codespace":"sdk","data":[],"detail":"NotEnough utok 7 8","events":[],"gas":1100}"#,
        ),
        (
            Act::Tx(
                "%A%",
                1_000_000,
                r#"[{"wasm":{"instantiate":{"admin":null,"code_id":1,"funds":[{"amount":"2","denom":"utok"}],"label":"e","msg":"<{"ok":{}}>"}}}]"#,
            ),
            r#"{"code":0,"codespace":"","data":[null],"detail":"","events":[{"attributes":[{"key":"recipient","value":"%1.2%"},{"key":"sender","value":"%A%"},{"key":"amount","value":"2utok"}],"type":"transfer"},{"attributes":[{"key":"_contract_address","value":"%1.2%"},{"key":"code_id","value":"1"}],"type":"instantiate"}],"gas":61164}"#,
        ),
        (
            Act::Query(
                1_000_000,
                r#"{"bank":{"balance":{"address":"%1.2%","denom":"utok"}}}"#,
            ),
            r#"1000 {"amount":{"amount":"2","denom":"utok"}}"#,
        ),
        (
            Act::Query(
                1_000_000,
                r#"{"bank":{"balance":{"address":"%A%","denom":"utok"}}}"#,
            ),
            r#"1000 {"amount":{"amount":"5","denom":"utok"}}"#,
        ),
        // the contract sends what it got
        (
            Act::Tx(
                "%A%",
                1_000_000,
                r#"[{"wasm":{"execute":{"contract_addr":"%1%","funds":[{"amount":"1","denom":"utok"}],"msg":"<{"ok":{"messages":[{"gas_limit":null,"id":1,"msg":{"bank":{"send":{"amount":[{"amount":"2","denom":"utok"}],"to_address":"%B%"}}},"reply_on":"never"}]}}>"}}}]"#,
            ),
            r#"{"code":0,"codespace":"","data":[null],"detail":"","events":[{"attributes":[{"key":"recipient","value":"%1%"},{"key":"sender","value":"%A%"},{"key":"amount","value":"1utok"}],"type":"transfer"},{"attributes":[{"key":"_contract_address","value":"%1%"}],"type":"execute"},{"attributes":[{"key":"recipient","value":"%B%"},{"key":"sender","value":"%1%"},{"key":"amount","value":"2utok"}],"type":"transfer"}],"gas":62264}"#,
        ),
        (
            Act::Query(
                1_000_000,
                r#"{"bank":{"balance":{"address":"%1%","denom":"utok"}}}"#,
            ),
            r#"1000 {"amount":{"amount":"2","denom":"utok"}}"#,
        ),
        (
            Act::Query(
                1_000_000,
                r#"{"bank":{"balance":{"address":"%B%","denom":"utok"}}}"#,
            ),
            r#"1000 {"amount":{"amount":"2","denom":"utok"}}"#,
        ),
    ];
    expect_all(&rt, rt.alloc(), acts)
}

#[test]
fn a_signature_is_out_of_scope_and_leaves_the_state(rt: HostRuntime) -> Result<(), Fail> {
    let acts: &[(Act, &str)] = &[
        (
            Act::Tx(
                "%A%",
                1_000_000,
                r#"[{"store_code":{"code":"%SIGN%"}},{"wasm":{"instantiate":{"admin":null,"code_id":1,"funds":[],"label":"e","msg":"<{"ok":{}}>"}}}]"#,
            ),
            r#"{"code":0,"codespace":"","data":[null,null],"detail":"","events":[{"attributes":[{"key":"code_checksum","value":"d395c7b0351aee1fb8f2394a8974220919debe339c5198e59ac8b2c498229a90"},{"key":"code_id","value":"1"}],"type":"store_code"},{"attributes":[{"key":"_contract_address","value":"%1%"},{"key":"code_id","value":"1"}],"type":"instantiate"}],"gas":73930}"#,
        ),
        (
            Act::Tx(
                "%A%",
                1_000_000,
                r#"[{"wasm":{"execute":{"contract_addr":"%1%","funds":[{"amount":"3","denom":"utok"}],"msg":"<{"ok":{}}>"}}}]"#,
            ),
            r#"{"code":5,"codespace":"wasm","data":[],"detail":"SignatureOutOfScope","events":[],"gas":61176}"#,
        ),
        (
            Act::Query(
                1_000_000,
                r#"{"bank":{"balance":{"address":"%A%","denom":"utok"}}}"#,
            ),
            r#"1000 {"amount":{"amount":"10","denom":"utok"}}"#,
        ),
        (
            Act::Query(
                1_000_000,
                r#"{"bank":{"balance":{"address":"%1%","denom":"utok"}}}"#,
            ),
            r#"1000 {"amount":{"amount":"0","denom":"utok"}}"#,
        ),
    ];
    expect_all(&rt, rt.alloc(), acts)
}

#[test]
fn checks_of_an_execute_come_in_their_order(rt: HostRuntime) -> Result<(), Fail> {
    let acts: &[(Act, &str)] = &[
        FIRST,
        (
            Act::Tx(
                "%A%",
                1_000_000,
                r#"[{"wasm":{"execute":{"contract_addr":"zz","funds":[{"amount":"0","denom":"utok"}],"msg":"<{"ok":{}}>"}}}]"#,
            ),
            r#"{"code":7,"codespace":"sdk","data":[],"detail":"AddressBad","events":[],"gas":1000}"#,
        ),
        (
            Act::Tx(
                "%A%",
                1_000_000,
                r#"[{"wasm":{"execute":{"contract_addr":"%U%","funds":[{"amount":"0","denom":"utok"}],"msg":"<{"ok":{}}>"}}}]"#,
            ),
            r#"{"code":22,"codespace":"wasm","data":[],"detail":"NoSuchContract %A%","events":[],"gas":1000}"#,
        ),
        (
            Act::Tx(
                "%A%",
                1_000_000,
                r#"[{"wasm":{"execute":{"contract_addr":"%1%","funds":[{"amount":"0","denom":"utok"}],"msg":"<{"ok":{}}>"}}}]"#,
            ),
            r#"{"code":10,"codespace":"sdk","data":[],"detail":"CoinsBad","events":[],"gas":1000}"#,
        ),
        (
            Act::Tx(
                "%A%",
                1_000_000,
                r#"[{"wasm":{"execute":{"contract_addr":"%1%","funds":[{"amount":"1","denom":"utok"},{"amount":"2","denom":"utok"}],"msg":"<{"ok":{}}>"}}}]"#,
            ),
            r#"{"code":10,"codespace":"sdk","data":[],"detail":"CoinsBad","events":[],"gas":1000}"#,
        ),
        (
            Act::Tx(
                "%A%",
                999,
                r#"[{"wasm":{"execute":{"contract_addr":"%1%","funds":[],"msg":"<{"ok":{}}>"}}}]"#,
            ),
            r#"{"code":11,"codespace":"sdk","data":[],"detail":"OutOfGas","events":[],"gas":999}"#,
        ),
        (
            Act::Tx(
                "%A%",
                60999,
                r#"[{"wasm":{"execute":{"contract_addr":"%1%","funds":[],"msg":"<{"ok":{}}>"}}}]"#,
            ),
            r#"{"code":11,"codespace":"sdk","data":[],"detail":"OutOfGas","events":[],"gas":60999}"#,
        ),
    ];
    expect_all(&rt, rt.alloc(), acts)
}
