//! New contracts.

use crate::acts::{Act, FIRST, expect_all};
use std::test::Fail;

#[test]
fn an_instance_is_made_at_the_address_of_its_numbers(rt: HostRuntime) -> Result<(), Fail> {
    let acts: &[(Act, &str)] = &[
        FIRST,
        (
            Act::Tx(
                "%B%",
                61064,
                r#"[{"wasm":{"instantiate":{"admin":null,"code_id":1,"funds":[],"label":"e","msg":"<{"ok":{}}>"}}}]"#,
            ),
            r#"{"code":0,"codespace":"","data":[null],"detail":"","events":[{"attributes":[{"key":"_contract_address","value":"%1.2%"},{"key":"code_id","value":"1"}],"type":"instantiate"}],"gas":61064}"#,
        ),
        (
            Act::Tx(
                "%B%",
                61063,
                r#"[{"wasm":{"instantiate":{"admin":null,"code_id":1,"funds":[],"label":"e","msg":"<{"ok":{}}>"}}}]"#,
            ),
            r#"{"code":11,"codespace":"sdk","data":[],"detail":"OutOfGas","events":[],"gas":61063}"#,
        ),
        (
            Act::Tx(
                "%B%",
                1_000_000,
                r#"[{"wasm":{"instantiate":{"admin":null,"code_id":1,"funds":[],"label":"e","msg":"<{"error":"no"}>"}}}]"#,
            ),
            r#"{"code":4,"codespace":"wasm","data":[],"detail":"ContractError no","events":[],"gas":61064}"#,
        ),
        // failed ones take no number
        (
            Act::Tx(
                "%A%",
                1_000_000,
                r#"[{"wasm":{"instantiate":{"admin":null,"code_id":1,"funds":[],"label":"llllllllllllllllllllllllllllllllllllllllllllllllllllllllllllllllllllllllllllllllllllllllllllllllllllllllllllllllllllllllllllllll","msg":"<{"ok":{"data":"aGk="}}>"}}}]"#,
            ),
            r#"{"code":0,"codespace":"","data":["aGk="],"detail":"","events":[{"attributes":[{"key":"_contract_address","value":"%1.3%"},{"key":"code_id","value":"1"}],"type":"instantiate"}],"gas":61064}"#,
        ),
        (
            Act::Tx(
                "%A%",
                1_000_000,
                r#"[{"wasm":{"execute":{"contract_addr":"%1.3%","funds":[],"msg":"<{"ok":{}}>"}}}]"#,
            ),
            r#"{"code":0,"codespace":"","data":[null],"detail":"","events":[{"attributes":[{"key":"_contract_address","value":"%1.3%"}],"type":"execute"}],"gas":61064}"#,
        ),
    ];
    expect_all(&rt, rt.alloc(), acts)
}

#[test]
fn checks_of_an_instance_come_in_their_order(rt: HostRuntime) -> Result<(), Fail> {
    let acts: &[(Act, &str)] = &[
        FIRST,
        (
            Act::Tx(
                "%A%",
                1_000_000,
                r#"[{"wasm":{"instantiate":{"admin":"zz","code_id":9,"funds":[{"amount":"0","denom":"utok"}],"label":"","msg":"<{"ok":{}}>"}}}]"#,
            ),
            r#"{"code":18,"codespace":"sdk","data":[],"detail":"LabelBad","events":[],"gas":1000}"#,
        ),
        (
            Act::Tx(
                "%A%",
                1_000_000,
                r#"[{"wasm":{"instantiate":{"admin":"zz","code_id":9,"funds":[{"amount":"0","denom":"utok"}],"label":"lllllllllllllllllllllllllllllllllllllllllllllllllllllllllllllllllllllllllllllllllllllllllllllllllllllllllllllllllllllllllllllllll","msg":"<{"ok":{}}>"}}}]"#,
            ),
            r#"{"code":18,"codespace":"sdk","data":[],"detail":"LabelBad","events":[],"gas":1000}"#,
        ),
        (
            Act::Tx(
                "%A%",
                1_000_000,
                r#"[{"wasm":{"instantiate":{"admin":"zz","code_id":9,"funds":[{"amount":"0","denom":"utok"}],"label":"e","msg":"<{"ok":{}}>"}}}]"#,
            ),
            r#"{"code":7,"codespace":"sdk","data":[],"detail":"AddressBad","events":[],"gas":1000}"#,
        ),
        (
            Act::Tx(
                "%A%",
                1_000_000,
                r#"[{"wasm":{"instantiate":{"admin":"%U%","code_id":9,"funds":[{"amount":"0","denom":"utok"}],"label":"e","msg":"<{"ok":{}}>"}}}]"#,
            ),
            r#"{"code":10,"codespace":"sdk","data":[],"detail":"CoinsBad","events":[],"gas":1000}"#,
        ),
        (
            Act::Tx(
                "%A%",
                1_000_000,
                r#"[{"wasm":{"instantiate":{"admin":"%A%","code_id":9,"funds":[{"amount":"11","denom":"utok"}],"label":"e","msg":"<{"ok":{}}>"}}}]"#,
            ),
            r#"{"code":8,"codespace":"wasm","data":[],"detail":"NoSuchCode 9","events":[],"gas":1000}"#,
        ),
        (
            Act::Tx(
                "%A%",
                1_000_000,
                r#"[{"wasm":{"instantiate":{"admin":null,"code_id":1,"funds":[{"amount":"11","denom":"utok"}],"label":"e","msg":"<{"ok":{}}>"}}}]"#,
            ),
            r#"{"code":5,"codespace":"sdk","data":[],"detail":"NotEnough utok 10 11","events":[],"gas":1100}"#,
        ),
        (
            Act::Tx(
                "%A%",
                1_000_000,
                r#"[{"store_code":{"allow":["%B%"],"code":"%ECHO%"}},{"store_code":{"allow":[],"code":"%ECHO%"}}]"#,
            ),
            r#"{"code":0,"codespace":"","data":[null,null],"detail":"","events":[{"attributes":[{"key":"code_checksum","value":"6f0d71d4074a8824ee18920cefede8c222f8601821870ec3b97b85806b0d9d74"},{"key":"code_id","value":"2"}],"type":"store_code"},{"attributes":[{"key":"code_checksum","value":"6f0d71d4074a8824ee18920cefede8c222f8601821870ec3b97b85806b0d9d74"},{"key":"code_id","value":"3"}],"type":"store_code"}],"gas":23752}"#,
        ),
        (
            Act::Tx(
                "%A%",
                1_000_000,
                r#"[{"wasm":{"instantiate":{"admin":null,"code_id":2,"funds":[{"amount":"11","denom":"utok"}],"label":"e","msg":"<{"ok":{}}>"}}}]"#,
            ),
            r#"{"code":4,"codespace":"sdk","data":[],"detail":"MayNotInstantiate","events":[],"gas":1000}"#,
        ),
        // who is on the list
        (
            Act::Tx(
                "%B%",
                1_000_000,
                r#"[{"wasm":{"instantiate":{"admin":null,"code_id":2,"funds":[],"label":"e","msg":"<{"ok":{}}>"}}}]"#,
            ),
            r#"{"code":0,"codespace":"","data":[null],"detail":"","events":[{"attributes":[{"key":"_contract_address","value":"%2%"},{"key":"code_id","value":"2"}],"type":"instantiate"}],"gas":61064}"#,
        ),
        // an empty list has nobody
        (
            Act::Tx(
                "%B%",
                1_000_000,
                r#"[{"wasm":{"instantiate":{"admin":null,"code_id":3,"funds":[],"label":"e","msg":"<{"ok":{}}>"}}}]"#,
            ),
            r#"{"code":4,"codespace":"sdk","data":[],"detail":"MayNotInstantiate","events":[],"gas":1000}"#,
        ),
    ];
    expect_all(&rt, rt.alloc(), acts)
}

#[test]
fn a_salt_gives_the_address(rt: HostRuntime) -> Result<(), Fail> {
    let acts: &[(Act, &str)] = &[
        FIRST,
        (
            Act::Tx(
                "%A%",
                1_000_000,
                r#"[{"wasm":{"instantiate2":{"admin":null,"code_id":1,"funds":[],"label":"e","msg":"<{"ok":{}}>","salt":"<s>"}}}]"#,
            ),
            r#"{"code":0,"codespace":"","data":[null],"detail":"","events":[{"attributes":[{"key":"_contract_address","value":"%1s%"},{"key":"code_id","value":"1"}],"type":"instantiate"}],"gas":61064}"#,
        ),
        (
            Act::Tx(
                "%A%",
                1_000_000,
                r#"[{"wasm":{"instantiate2":{"admin":null,"code_id":1,"funds":[],"label":"e","msg":"<{"ok":{}}>","salt":"<s>"}}}]"#,
            ),
            r#"{"code":3,"codespace":"wasm","data":[],"detail":"AddressTaken","events":[],"gas":1000}"#,
        ),
        (
            Act::Tx(
                "%A%",
                1_000_000,
                r#"[{"wasm":{"instantiate2":{"admin":null,"code_id":1,"funds":[],"label":"e","msg":"<{"ok":{}}>","salt":"<>"}}}]"#,
            ),
            r#"{"code":18,"codespace":"sdk","data":[],"detail":"SaltBad","events":[],"gas":1000}"#,
        ),
        (
            Act::Tx(
                "%A%",
                1_000_000,
                r#"[{"wasm":{"instantiate2":{"admin":"zz","code_id":9,"funds":[{"amount":"0","denom":"utok"}],"label":"e","msg":"<{"ok":{}}>","salt":"<aaaaaaaaaaaaaaaaaaaaaaaaaaaaaaaaaaaaaaaaaaaaaaaaaaaaaaaaaaaaaaaaa>"}}}]"#,
            ),
            r#"{"code":18,"codespace":"sdk","data":[],"detail":"SaltBad","events":[],"gas":1000}"#,
        ),
        // the label comes first
        (
            Act::Tx(
                "%A%",
                1_000_000,
                r#"[{"wasm":{"instantiate2":{"admin":null,"code_id":9,"funds":[],"label":"","msg":"<{"ok":{}}>","salt":"<>"}}}]"#,
            ),
            r#"{"code":18,"codespace":"sdk","data":[],"detail":"LabelBad","events":[],"gas":1000}"#,
        ),
        (
            Act::Tx(
                "%A%",
                1_000_000,
                r#"[{"wasm":{"instantiate2":{"admin":"zz","code_id":9,"funds":[],"label":"e","msg":"<{"ok":{}}>","salt":"<s>"}}}]"#,
            ),
            r#"{"code":7,"codespace":"sdk","data":[],"detail":"AddressBad","events":[],"gas":1000}"#,
        ),
        (
            Act::Tx(
                "%A%",
                1_000_000,
                r#"[{"wasm":{"instantiate2":{"admin":null,"code_id":9,"funds":[],"label":"e","msg":"<{"ok":{}}>","salt":"<s>"}}}]"#,
            ),
            r#"{"code":8,"codespace":"wasm","data":[],"detail":"NoSuchCode 9","events":[],"gas":1000}"#,
        ),
        (
            Act::Tx(
                "%A%",
                1_000_000,
                r#"[{"wasm":{"instantiate2":{"admin":null,"code_id":1,"funds":[{"amount":"2","denom":"utok"}],"label":"e","msg":"<{"ok":{}}>","salt":"<aaaaaaaaaaaaaaaaaaaaaaaaaaaaaaaaaaaaaaaaaaaaaaaaaaaaaaaaaaaaaaaa>"}}}]"#,
            ),
            r#"{"code":0,"codespace":"","data":[null],"detail":"","events":[{"attributes":[{"key":"recipient","value":"%1a%"},{"key":"sender","value":"%A%"},{"key":"amount","value":"2utok"}],"type":"transfer"},{"attributes":[{"key":"_contract_address","value":"%1a%"},{"key":"code_id","value":"1"}],"type":"instantiate"}],"gas":61164}"#,
        ),
        (
            Act::Tx(
                "%A%",
                1_000_000,
                r#"[{"wasm":{"execute":{"contract_addr":"%1s%","funds":[],"msg":"<{"ok":{}}>"}}}]"#,
            ),
            r#"{"code":0,"codespace":"","data":[null],"detail":"","events":[{"attributes":[{"key":"_contract_address","value":"%1s%"}],"type":"execute"}],"gas":61064}"#,
        ),
        // another creator has another address
        (
            Act::Tx(
                "%B%",
                1_000_000,
                r#"[{"wasm":{"instantiate2":{"admin":null,"code_id":1,"funds":[],"label":"e","msg":"<{"ok":{}}>","salt":"<s>"}}}]"#,
            ),
            r#"{"code":0,"codespace":"","data":[null],"detail":"","events":[{"attributes":[{"key":"_contract_address","value":"%1sB%"},{"key":"code_id","value":"1"}],"type":"instantiate"}],"gas":61064}"#,
        ),
    ];
    expect_all(&rt, rt.alloc(), acts)
}
