//! Admins of contracts, migrations, and what the authority commands.

use crate::acts::{Act, FIRST, expect_all};
use std::test::Fail;

/// The contract of the first code, whose admin is the second address.
const FIRST_OF_OTHER: (Act, &str) = (
    Act::Tx(
        "%A%",
        1_000_000,
        r#"[{"store_code":{"code":"%ECHO%"}},{"wasm":{"instantiate":{"admin":"%B%","code_id":1,"funds":[],"label":"e","msg":"<{"ok":{}}>"}}}]"#,
    ),
    r#"{"code":0,"codespace":"","data":[null,null],"detail":"","events":[{"attributes":[{"key":"code_checksum","value":"6f0d71d4074a8824ee18920cefede8c222f8601821870ec3b97b85806b0d9d74"},{"key":"code_id","value":"1"}],"type":"store_code"},{"attributes":[{"key":"_contract_address","value":"%1%"},{"key":"code_id","value":"1"}],"type":"instantiate"}],"gas":72940}"#,
);

#[test]
fn its_admin_alone_gives_a_contract_another_one(rt: HostRuntime) -> Result<(), Fail> {
    let acts: &[(Act, &str)] = &[
        FIRST_OF_OTHER,
        (
            Act::Tx(
                "%A%",
                1_000_000,
                r#"[{"wasm":{"migrate":{"contract_addr":"%1%","msg":"<{"ok":{}}>","new_code_id":1}}}]"#,
            ),
            r#"{"code":4,"codespace":"sdk","data":[],"detail":"NotAdmin","events":[],"gas":1000}"#,
        ),
        (
            Act::Query(
                1_000_000,
                r#"{"wasm":{"contract_info":{"contract_addr":"%1%"}}}"#,
            ),
            r#"1000 {"admin":"%B%","code_id":1,"creator":"%A%","ibc_port":null,"pinned":false}"#,
        ),
        (
            Act::Tx(
                "%B%",
                1_000_000,
                r#"[{"wasm":{"update_admin":{"admin":"zz","contract_addr":"%1%"}}}]"#,
            ),
            r#"{"code":7,"codespace":"sdk","data":[],"detail":"AddressBad","events":[],"gas":1000}"#,
        ),
        (
            Act::Tx(
                "%A%",
                1_000_000,
                r#"[{"wasm":{"update_admin":{"admin":"zz","contract_addr":"%1%"}}}]"#,
            ),
            r#"{"code":4,"codespace":"sdk","data":[],"detail":"NotAdmin","events":[],"gas":1000}"#,
        ),
        (
            Act::Tx(
                "%B%",
                1_000_000,
                r#"[{"wasm":{"update_admin":{"admin":"%C%","contract_addr":"%1%"}}}]"#,
            ),
            r#"{"code":0,"codespace":"","data":[null],"detail":"","events":[],"gas":1000}"#,
        ),
        (
            Act::Query(
                1_000_000,
                r#"{"wasm":{"contract_info":{"contract_addr":"%1%"}}}"#,
            ),
            r#"1000 {"admin":"%C%","code_id":1,"creator":"%A%","ibc_port":null,"pinned":false}"#,
        ),
        (
            Act::Tx(
                "%B%",
                1_000_000,
                r#"[{"wasm":{"clear_admin":{"contract_addr":"%1%"}}}]"#,
            ),
            r#"{"code":4,"codespace":"sdk","data":[],"detail":"NotAdmin","events":[],"gas":1000}"#,
        ),
        (
            Act::Tx(
                "%C%",
                1_000_000,
                r#"[{"wasm":{"clear_admin":{"contract_addr":"%1%"}}}]"#,
            ),
            r#"{"code":0,"codespace":"","data":[null],"detail":"","events":[],"gas":1000}"#,
        ),
        (
            Act::Tx(
                "%C%",
                1_000_000,
                r#"[{"wasm":{"migrate":{"contract_addr":"%1%","msg":"<{"ok":{}}>","new_code_id":1}}}]"#,
            ),
            r#"{"code":4,"codespace":"sdk","data":[],"detail":"NotAdmin","events":[],"gas":1000}"#,
        ),
        (
            Act::Tx(
                "%C%",
                1_000_000,
                r#"[{"wasm":{"update_admin":{"admin":"%C%","contract_addr":"%1%"}}}]"#,
            ),
            r#"{"code":4,"codespace":"sdk","data":[],"detail":"NotAdmin","events":[],"gas":1000}"#,
        ),
        (
            Act::Query(
                1_000_000,
                r#"{"wasm":{"contract_info":{"contract_addr":"%1%"}}}"#,
            ),
            r#"1000 {"admin":null,"code_id":1,"creator":"%A%","ibc_port":null,"pinned":false}"#,
        ),
    ];
    expect_all(&rt, rt.alloc(), acts)
}

#[test]
fn a_contract_gets_the_code_to_which_it_migrates(rt: HostRuntime) -> Result<(), Fail> {
    let acts: &[(Act, &str)] = &[
        FIRST_OF_OTHER,
        (
            Act::Tx(
                "%B%",
                1_000_000,
                r#"[{"wasm":{"migrate":{"contract_addr":"%1%","msg":"<{"ok":{}}>","new_code_id":1}}}]"#,
            ),
            r#"{"code":0,"codespace":"","data":[null],"detail":"","events":[{"attributes":[{"key":"_contract_address","value":"%1%"},{"key":"code_id","value":"1"}],"type":"migrate"}],"gas":61043}"#,
        ),
        (
            Act::Tx(
                "%B%",
                1_000_000,
                r#"[{"wasm":{"migrate":{"contract_addr":"%1%","msg":"<{"ok":{}}>","new_code_id":9}}}]"#,
            ),
            r#"{"code":8,"codespace":"wasm","data":[],"detail":"NoSuchCode 9","events":[],"gas":1000}"#,
        ),
        (
            Act::Tx(
                "%A%",
                1_000_000,
                r#"[{"wasm":{"migrate":{"contract_addr":"%1%","msg":"<{"ok":{}}>","new_code_id":9}}}]"#,
            ),
            r#"{"code":4,"codespace":"sdk","data":[],"detail":"NotAdmin","events":[],"gas":1000}"#,
        ),
        (
            Act::Tx(
                "%B%",
                1_000_000,
                r#"[{"wasm":{"migrate":{"contract_addr":"zz","msg":"<{"ok":{}}>","new_code_id":9}}}]"#,
            ),
            r#"{"code":7,"codespace":"sdk","data":[],"detail":"AddressBad","events":[],"gas":1000}"#,
        ),
        (
            Act::Tx(
                "%B%",
                1_000_000,
                r#"[{"wasm":{"migrate":{"contract_addr":"%B%","msg":"<{"ok":{}}>","new_code_id":9}}}]"#,
            ),
            r#"{"code":22,"codespace":"wasm","data":[],"detail":"NoSuchContract %B%","events":[],"gas":1000}"#,
        ),
        (
            Act::Tx(
                "%B%",
                1_000_000,
                r#"[{"wasm":{"migrate":{"contract_addr":"%1%","msg":"<{"error":"no"}>","new_code_id":1}}}]"#,
            ),
            r#"{"code":11,"codespace":"wasm","data":[],"detail":"ContractError no","events":[],"gas":61043}"#,
        ),
        (
            Act::Tx("%A%", 1_000_000, r#"[{"store_code":{"code":"%SPIN%"}}]"#),
            r#"{"code":0,"codespace":"","data":[null],"detail":"","events":[{"attributes":[{"key":"code_checksum","value":"ac23d37e62e7a48c72dd6ed1bffc49b8ffb5dedd754810a713fe32c817b6492b"},{"key":"code_id","value":"2"}],"type":"store_code"}],"gas":11885}"#,
        ),
        // a failed migration leaves the code
        (
            Act::Tx(
                "%B%",
                1_000_000,
                r#"[{"wasm":{"migrate":{"contract_addr":"%1%","msg":"<{"error":"no"}>","new_code_id":2}}}]"#,
            ),
            r#"{"code":11,"codespace":"wasm","data":[],"detail":"ContractError no","events":[],"gas":61043}"#,
        ),
        (
            Act::Query(
                1_000_000,
                r#"{"wasm":{"contract_info":{"contract_addr":"%1%"}}}"#,
            ),
            r#"1000 {"admin":"%B%","code_id":1,"creator":"%A%","ibc_port":null,"pinned":false}"#,
        ),
        (
            Act::Tx(
                "%B%",
                1_000_000,
                r#"[{"wasm":{"migrate":{"contract_addr":"%1%","msg":"<{"ok":{"data":"aGk="}}>","new_code_id":2}}}]"#,
            ),
            r#"{"code":0,"codespace":"","data":["aGk="],"detail":"","events":[{"attributes":[{"key":"_contract_address","value":"%1%"},{"key":"code_id","value":"2"}],"type":"migrate"}],"gas":61043}"#,
        ),
        (
            Act::Query(
                1_000_000,
                r#"{"wasm":{"contract_info":{"contract_addr":"%1%"}}}"#,
            ),
            r#"1000 {"admin":"%B%","code_id":2,"creator":"%A%","ibc_port":null,"pinned":false}"#,
        ),
        // the new code never ends
        (
            Act::Tx(
                "%A%",
                100000,
                r#"[{"wasm":{"execute":{"contract_addr":"%1%","funds":[],"msg":"<{"ok":{}}>"}}}]"#,
            ),
            r#"{"code":11,"codespace":"sdk","data":[],"detail":"OutOfGas","events":[],"gas":100000}"#,
        ),
        (
            Act::Tx(
                "%B%",
                1_000_000,
                r#"[{"wasm":{"migrate":{"contract_addr":"%1%","msg":"<{"ok":{}}>","new_code_id":1}}}]"#,
            ),
            r#"{"code":0,"codespace":"","data":[null],"detail":"","events":[{"attributes":[{"key":"_contract_address","value":"%1%"},{"key":"code_id","value":"1"}],"type":"migrate"}],"gas":61043}"#,
        ),
        (
            Act::Tx(
                "%A%",
                1_000_000,
                r#"[{"wasm":{"execute":{"contract_addr":"%1%","funds":[],"msg":"<{"ok":{}}>"}}}]"#,
            ),
            r#"{"code":0,"codespace":"","data":[null],"detail":"","events":[{"attributes":[{"key":"_contract_address","value":"%1%"}],"type":"execute"}],"gas":61064}"#,
        ),
    ];
    expect_all(&rt, rt.alloc(), acts)
}

#[test]
fn the_authority_alone_calls_sudo(rt: HostRuntime) -> Result<(), Fail> {
    let acts: &[(Act, &str)] = &[
        FIRST,
        (
            Act::Tx(
                "%A%",
                1_000_000,
                r#"[{"sudo":{"contract":"%1%","msg":"<{"ok":{}}>"}}]"#,
            ),
            r#"{"code":0,"codespace":"","data":[null],"detail":"","events":[{"attributes":[{"key":"_contract_address","value":"%1%"}],"type":"sudo"}],"gas":61043}"#,
        ),
        (
            Act::Tx(
                "%B%",
                1_000_000,
                r#"[{"sudo":{"contract":"%1%","msg":"<{"ok":{}}>"}}]"#,
            ),
            r#"{"code":4,"codespace":"sdk","data":[],"detail":"NotAuthority","events":[],"gas":1000}"#,
        ),
        (
            Act::Tx(
                "%B%",
                1_000_000,
                r#"[{"sudo":{"contract":"zz","msg":"<{"ok":{}}>"}}]"#,
            ),
            r#"{"code":4,"codespace":"sdk","data":[],"detail":"NotAuthority","events":[],"gas":1000}"#,
        ),
        (
            Act::Tx(
                "%A%",
                1_000_000,
                r#"[{"sudo":{"contract":"zz","msg":"<{"ok":{}}>"}}]"#,
            ),
            r#"{"code":7,"codespace":"sdk","data":[],"detail":"AddressBad","events":[],"gas":1000}"#,
        ),
        (
            Act::Tx(
                "%A%",
                1_000_000,
                r#"[{"sudo":{"contract":"%A%","msg":"<{"ok":{}}>"}}]"#,
            ),
            r#"{"code":22,"codespace":"wasm","data":[],"detail":"NoSuchContract %A%","events":[],"gas":1000}"#,
        ),
        (
            Act::Tx(
                "%A%",
                1_000_000,
                r#"[{"sudo":{"contract":"%1%","msg":"<{"error":"no"}>"}}]"#,
            ),
            r#"{"code":5,"codespace":"wasm","data":[],"detail":"ContractError no","events":[],"gas":61043}"#,
        ),
        (
            Act::Tx(
                "%A%",
                61042,
                r#"[{"sudo":{"contract":"%1%","msg":"<{"ok":{}}>"}}]"#,
            ),
            r#"{"code":11,"codespace":"sdk","data":[],"detail":"OutOfGas","events":[],"gas":61042}"#,
        ),
        (
            Act::Tx(
                "%A%",
                1_000_000,
                r#"[{"sudo":{"contract":"%1%","msg":"<{"ok":{"messages":[{"gas_limit":null,"id":1,"msg":{"wasm":{"execute":{"contract_addr":"%1%","funds":[],"msg":"<{"ok":{}}>"}}},"reply_on":"always"}]}}>"}}]"#,
            ),
            r#"{"code":0,"codespace":"","data":["cg=="],"detail":"","events":[{"attributes":[{"key":"_contract_address","value":"%1%"}],"type":"sudo"},{"attributes":[{"key":"_contract_address","value":"%1%"}],"type":"execute"},{"attributes":[{"key":"_contract_address","value":"%1%"}],"type":"reply"}],"gas":182150}"#,
        ),
    ];
    expect_all(&rt, rt.alloc(), acts)
}
