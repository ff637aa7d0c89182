use crate::acts::{Act, expect_all};
use std::test::Fail;

#[test]
fn errors_of_queries_come_in_their_order(rt: HostRuntime) -> Result<(), Fail> {
    let acts: &[(Act, &str)] = &[
        (
            Act::Query(1_000_000, r#"{"#),
            r#"1000 {"error":{"invalid_request":{"error":"json","request":"ew=="}}}"#,
        ),
        (
            Act::Query(1_000_000, r#"{"bank":1.5}"#),
            r#"1000 {"error":{"invalid_request":{"error":"json","request":"eyJiYW5rIjoxLjV9"}}}"#,
        ),
        (
            Act::Query(1_000_000, r#"{}"#),
            r#"1000 {"error":{"invalid_request":{"error":"shape","request":"e30="}}}"#,
        ),
        (
            Act::Query(1_000_000, r#"{"bank":{}}"#),
            r#"1000 {"error":{"invalid_request":{"error":"shape","request":"eyJiYW5rIjp7fX0="}}}"#,
        ),
        (
            Act::Query(1_000_000, r#"{"bank":{"balance":{"address":"zz"}}}"#),
            r#"1000 {"error":{"invalid_request":{"error":"shape","request":"eyJiYW5rIjp7ImJhbGFuY2UiOnsiYWRkcmVzcyI6Inp6In19fQ=="}}}"#,
        ),
        (
            Act::Query(1_000_000, r#"{"bank":{"mint":{}}}"#),
            r#"1000 {"error":{"unsupported_request":{"kind":"bank.mint"}}}"#,
        ),
        (
            Act::Query(1_000_000, r#"{"gov":1}"#),
            r#"1000 {"error":{"unsupported_request":{"kind":"gov"}}}"#,
        ),
        (
            Act::Query(
                1_000_000,
                r#"{"wasm":{"smart":{"contract_addr":"zz","msg":""}}}"#,
            ),
            r#"1000 {"error":{"invalid_request":{"error":"address","request":"eyJ3YXNtIjp7InNtYXJ0Ijp7ImNvbnRyYWN0X2FkZHIiOiJ6eiIsIm1zZyI6IiJ9fX0="}}}"#,
        ),
        (
            Act::Query(
                1_000_000,
                r#"{"wasm":{"smart":{"contract_addr":"%U%","msg":""}}}"#,
            ),
            r#"1000 {"error":{"no_such_contract":{"addr":"%A%"}}}"#,
        ),
        (
            Act::Query(1_000_000, r#"{"wasm":{"code_info":{"code_id":1}}}"#),
            r#"1000 {"error":{"no_such_code":{"code_id":1}}}"#,
        ),
        (
            Act::Query(
                1_000_000,
                r#"{"bank":{"balance":{"address":"zz","denom":"utok"}}}"#,
            ),
            r#"1000 {"error":{"invalid_request":{"error":"address","request":"eyJiYW5rIjp7ImJhbGFuY2UiOnsiYWRkcmVzcyI6Inp6IiwiZGVub20iOiJ1dG9rIn19fQ=="}}}"#,
        ),
        (
            Act::Query(1000, r#"{"bank":{"all_balances":{"address":"zz"}}}"#),
            r#"1000 {"error":{"invalid_request":{"error":"address","request":"eyJiYW5rIjp7ImFsbF9iYWxhbmNlcyI6eyJhZGRyZXNzIjoienoifX19"}}}"#,
        ),
        (Act::Query(999, r#"{"#), r#"999 out of gas"#),
        (
            Act::Query(1099, r#"{"bank":{"all_balances":{"address":"%A%"}}}"#),
            r#"1099 out of gas"#,
        ),
        (
            Act::Query(1100, r#"{"bank":{"all_balances":{"address":"%A%"}}}"#),
            r#"1100 {"amount":[{"amount":"10","denom":"utok"}]}"#,
        ),
        (
            Act::Query(1000, r#"{"bank":{"all_balances":{"address":"%B%"}}}"#),
            r#"1000 {"amount":[]}"#,
        ),
        (
            Act::Query(
                1000,
                r#"{"bank":{"balance":{"address":"%U%","denom":"none"}}}"#,
            ),
            r#"1000 {"amount":{"amount":"0","denom":"none"}}"#,
        ),
    ];
    expect_all(&rt, rt.alloc(), acts)
}
