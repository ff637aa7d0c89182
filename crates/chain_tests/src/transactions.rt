use crate::acts::{Act, expect_all};
use std::test::Fail;

#[test]
fn a_send_moves_coins_and_changes_nothing_to_oneself(rt: HostRuntime) -> Result<(), Fail> {
    let acts: &[(Act, &str)] = &[
        (
            Act::Tx(
                "%A%",
                5000,
                r#"[{"bank":{"send":{"amount":[{"amount":"10","denom":"utok"}],"to_address":"%A%"}}}]"#,
            ),
            r#"{"code":0,"codespace":"","data":[null],"detail":"","events":[{"attributes":[{"key":"recipient","value":"%A%"},{"key":"sender","value":"%A%"},{"key":"amount","value":"10utok"}],"type":"transfer"}],"gas":1100}"#,
        ),
        (
            Act::Tx(
                "%A%",
                5000,
                r#"[{"bank":{"send":{"amount":[{"amount":"11","denom":"utok"}],"to_address":"%A%"}}}]"#,
            ),
            r#"{"code":5,"codespace":"sdk","data":[],"detail":"NotEnough utok 10 11","events":[],"gas":1100}"#,
        ),
        (
            Act::Query(
                1_000_000,
                r#"{"bank":{"balance":{"address":"%A%","denom":"utok"}}}"#,
            ),
            r#"1000 {"amount":{"amount":"10","denom":"utok"}}"#,
        ),
        (
            Act::Tx(
                "%U%",
                5000,
                r#"[{"bank":{"send":{"amount":[{"amount":"3","denom":"utok"}],"to_address":"%B%"}}}]"#,
            ),
            r#"{"code":0,"codespace":"","data":[null],"detail":"","events":[{"attributes":[{"key":"recipient","value":"%B%"},{"key":"sender","value":"%A%"},{"key":"amount","value":"3utok"}],"type":"transfer"}],"gas":1100}"#,
        ),
        (
            Act::Query(
                1_000_000,
                r#"{"bank":{"balance":{"address":"%A%","denom":"utok"}}}"#,
            ),
            r#"1000 {"amount":{"amount":"7","denom":"utok"}}"#,
        ),
        (
            Act::Query(
                1_000_000,
                r#"{"bank":{"balance":{"address":"%B%","denom":"utok"}}}"#,
            ),
            r#"1000 {"amount":{"amount":"3","denom":"utok"}}"#,
        ),
    ];
    expect_all(&rt, rt.alloc(), acts)
}

#[test]
fn a_burn_lowers_the_balance_and_the_supply(rt: HostRuntime) -> Result<(), Fail> {
    let acts: &[(Act, &str)] = &[
        (
            Act::Tx(
                "%A%",
                5000,
                r#"[{"bank":{"burn":{"amount":[{"amount":"4","denom":"utok"}]}}}]"#,
            ),
            r#"{"code":0,"codespace":"","data":[null],"detail":"","events":[{"attributes":[{"key":"burner","value":"%A%"},{"key":"amount","value":"4utok"}],"type":"burn"}],"gas":1100}"#,
        ),
        (
            Act::Query(1_000_000, r#"{"bank":{"supply":{"denom":"utok"}}}"#),
            r#"1000 {"amount":{"amount":"6","denom":"utok"}}"#,
        ),
        (
            Act::Query(1_000_000, r#"{"bank":{"all_balances":{"address":"%A%"}}}"#),
            r#"1100 {"amount":[{"amount":"6","denom":"utok"}]}"#,
        ),
        (
            Act::Tx(
                "%A%",
                5000,
                r#"[{"bank":{"burn":{"amount":[{"amount":"7","denom":"utok"}]}}}]"#,
            ),
            r#"{"code":5,"codespace":"sdk","data":[],"detail":"NotEnough utok 6 7","events":[],"gas":1100}"#,
        ),
        (
            Act::Query(1_000_000, r#"{"bank":{"supply":{"denom":"utok"}}}"#),
            r#"1000 {"amount":{"amount":"6","denom":"utok"}}"#,
        ),
    ];
    expect_all(&rt, rt.alloc(), acts)
}

#[test]
fn what_is_wrong_with_a_transaction_is_told_with_its_gas(rt: HostRuntime) -> Result<(), Fail> {
    let acts: &[(Act, &str)] = &[
        (
            Act::Tx("zz", 5000, r#"[]"#),
            r#"{"code":7,"codespace":"sdk","data":[],"detail":"AddressBad","events":[],"gas":0}"#,
        ),
        (
            Act::Tx("%A%", 5000, r#"[]"#),
            r#"{"code":18,"codespace":"sdk","data":[],"detail":"NoMessages","events":[],"gas":0}"#,
        ),
        (
            Act::Tx("%A%", 5000, r#"[{"bank":{"send":{}}}]"#),
            r#"{"code":18,"codespace":"sdk","data":[],"detail":"MessageBad","events":[],"gas":0}"#,
        ),
        (
            Act::Tx(
                "%A%",
                999,
                r#"[{"bank":{"send":{"amount":[{"amount":"1","denom":"utok"}],"to_address":"%B%"}}}]"#,
            ),
            r#"{"code":11,"codespace":"sdk","data":[],"detail":"OutOfGas","events":[],"gas":999}"#,
        ),
        (
            Act::Tx(
                "%A%",
                5000,
                r#"[{"bank":{"send":{"amount":[{"amount":"0","denom":"utok"}],"to_address":"zz"}}}]"#,
            ),
            r#"{"code":7,"codespace":"sdk","data":[],"detail":"AddressBad","events":[],"gas":1000}"#,
        ),
        (
            Act::Tx(
                "%A%",
                5000,
                r#"[{"bank":{"send":{"amount":[{"amount":"0","denom":"utok"}],"to_address":"%B%"}}}]"#,
            ),
            r#"{"code":10,"codespace":"sdk","data":[],"detail":"CoinsBad","events":[],"gas":1000}"#,
        ),
        (
            Act::Tx(
                "%A%",
                5000,
                r#"[{"bank":{"send":{"amount":[],"to_address":"%B%"}}}]"#,
            ),
            r#"{"code":10,"codespace":"sdk","data":[],"detail":"CoinsBad","events":[],"gas":1000}"#,
        ),
        (
            Act::Tx(
                "%A%",
                5000,
                r#"[{"bank":{"burn":{"amount":[{"amount":"1","denom":"utok"},{"amount":"2","denom":"utok"}]}}}]"#,
            ),
            r#"{"code":10,"codespace":"sdk","data":[],"detail":"CoinsBad","events":[],"gas":1000}"#,
        ),
        (
            Act::Tx(
                "%A%",
                1099,
                r#"[{"bank":{"burn":{"amount":[{"amount":"11","denom":"utok"}]}}}]"#,
            ),
            r#"{"code":11,"codespace":"sdk","data":[],"detail":"OutOfGas","events":[],"gas":1099}"#,
        ),
    ];
    expect_all(&rt, rt.alloc(), acts)
}

#[test]
fn a_message_that_is_not_of_the_bank_is_unsupported(rt: HostRuntime) -> Result<(), Fail> {
    let acts: &[(Act, &str)] = &[
        (
            Act::Tx("%A%", 5000, r#"[{"staking":{"delegate":{}}}]"#),
            r#"{"code":20,"codespace":"wasm","data":[],"detail":"Unsupported staking","events":[],"gas":1000}"#,
        ),
        (
            Act::Tx("%A%", 5000, r#"[{"sudo":{"contract":"%A%","msg":"AA=="}}]"#),
            r#"{"code":22,"codespace":"wasm","data":[],"detail":"NoSuchContract %A%","events":[],"gas":1000}"#,
        ),
    ];
    expect_all(&rt, rt.alloc(), acts)
}

#[test]
fn a_failed_transaction_leaves_the_state_as_it_was(rt: HostRuntime) -> Result<(), Fail> {
    let acts: &[(Act, &str)] = &[
        (
            Act::Tx(
                "%A%",
                5000,
                r#"[{"bank":{"send":{"amount":[{"amount":"3","denom":"utok"}],"to_address":"%B%"}}},{"bank":{"send":{}}}]"#,
            ),
            r#"{"code":18,"codespace":"sdk","data":[],"detail":"MessageBad","events":[],"gas":1100}"#,
        ),
        (
            Act::Tx(
                "%A%",
                5000,
                r#"[{"bank":{"send":{"amount":[{"amount":"3","denom":"utok"}],"to_address":"%B%"}}},{"bank":{"send":{"amount":[{"amount":"8","denom":"utok"}],"to_address":"%B%"}}}]"#,
            ),
            r#"{"code":5,"codespace":"sdk","data":[],"detail":"NotEnough utok 7 8","events":[],"gas":2200}"#,
        ),
        (
            Act::Tx(
                "%A%",
                2199,
                r#"[{"bank":{"burn":{"amount":[{"amount":"3","denom":"utok"}]}}},{"bank":{"send":{"amount":[{"amount":"3","denom":"utok"}],"to_address":"%B%"}}}]"#,
            ),
            r#"{"code":11,"codespace":"sdk","data":[],"detail":"OutOfGas","events":[],"gas":2199}"#,
        ),
        (
            Act::Query(1_000_000, r#"{"bank":{"all_balances":{"address":"%A%"}}}"#),
            r#"1100 {"amount":[{"amount":"10","denom":"utok"}]}"#,
        ),
        (
            Act::Query(1_000_000, r#"{"bank":{"supply":{"denom":"utok"}}}"#),
            r#"1000 {"amount":{"amount":"10","denom":"utok"}}"#,
        ),
        (
            Act::Tx(
                "%A%",
                2200,
                r#"[{"bank":{"burn":{"amount":[{"amount":"3","denom":"utok"}]}}},{"bank":{"send":{"amount":[{"amount":"3","denom":"utok"}],"to_address":"%B%"}}}]"#,
            ),
            r#"{"code":0,"codespace":"","data":[null,null],"detail":"","events":[{"attributes":[{"key":"burner","value":"%A%"},{"key":"amount","value":"3utok"}],"type":"burn"},{"attributes":[{"key":"recipient","value":"%B%"},{"key":"sender","value":"%A%"},{"key":"amount","value":"3utok"}],"type":"transfer"}],"gas":2200}"#,
        ),
        (
            Act::Query(1_000_000, r#"{"bank":{"all_balances":{"address":"%A%"}}}"#),
            r#"1100 {"amount":[{"amount":"4","denom":"utok"}]}"#,
        ),
    ];
    expect_all(&rt, rt.alloc(), acts)
}
