use crate::acts::{Act, expect_all};
use std::test::Fail;

#[test]
fn a_code_is_paid_by_its_bytes_and_gets_the_next_id(rt: HostRuntime) -> Result<(), Fail> {
    let acts: &[(Act, &str)] = &[
        // anybody may store one
        (
            Act::Tx(
                "%B%",
                20000,
                r#"[{"store_code":{"code":"AGFzbQEAAAABFARgAABgAX8Bf2ABfwBgA39/fwF/AwUEAAECAwUDAQABBz0EE2ludGVyZmFjZV92ZXJzaW9uXzgAAAhhbGxvY2F0ZQABCmRlYWxsb2NhdGUAAgtpbnN0YW50aWF0ZQADChEEAgALBAAgAAsCAAsEACAACw=="}}]"#,
            ),
            r#"{"code":0,"codespace":"","data":[null],"detail":"","events":[{"attributes":[{"key":"code_checksum","value":"3ff98448e19c551bebb19420a9d8e365f87d8d5fa215c53d23e7973a54d7bc1d"},{"key":"code_id","value":"1"}],"type":"store_code"}],"gas":11372}"#,
        ),
        // with a list, which may be empty, null or of addresses in upper case
        (
            Act::Tx(
                "%A%",
                60000,
                r#"[{"store_code":{"allow":[],"code":"AGFzbQEAAAABFARgAABgAX8Bf2ABfwBgA39/fwF/AwUEAAECAwUDAQABBz0EE2ludGVyZmFjZV92ZXJzaW9uXzgAAAhhbGxvY2F0ZQABCmRlYWxsb2NhdGUAAgtpbnN0YW50aWF0ZQADChEEAgALBAAgAAsCAAsEACAACw=="}},{"store_code":{"allow":null,"code":"AGFzbQEAAAABFARgAABgAX8Bf2ABfwBgA39/fwF/AwUEAAECAwUDAQABBz0EE2ludGVyZmFjZV92ZXJzaW9uXzgAAAhhbGxvY2F0ZQABCmRlYWxsb2NhdGUAAgtpbnN0YW50aWF0ZQADChEEAgALBAAgAAsCAAsEACAACw=="}},{"store_code":{"allow":["%U%","%B%"],"code":"AGFzbQEAAAABFARgAABgAX8Bf2ABfwBgA39/fwF/AwUEAAECAwUDAQABBz0EE2ludGVyZmFjZV92ZXJzaW9uXzgAAAhhbGxvY2F0ZQABCmRlYWxsb2NhdGUAAgtpbnN0YW50aWF0ZQADChEEAgALBAAgAAsCAAsEACAACw=="}}]"#,
            ),
            r#"{"code":0,"codespace":"","data":[null,null,null],"detail":"","events":[{"attributes":[{"key":"code_checksum","value":"3ff98448e19c551bebb19420a9d8e365f87d8d5fa215c53d23e7973a54d7bc1d"},{"key":"code_id","value":"2"}],"type":"store_code"},{"attributes":[{"key":"code_checksum","value":"3ff98448e19c551bebb19420a9d8e365f87d8d5fa215c53d23e7973a54d7bc1d"},{"key":"code_id","value":"3"}],"type":"store_code"},{"attributes":[{"key":"code_checksum","value":"3ff98448e19c551bebb19420a9d8e365f87d8d5fa215c53d23e7973a54d7bc1d"},{"key":"code_id","value":"4"}],"type":"store_code"}],"gas":34116}"#,
        ),
        // exactly what it costs
        (
            Act::Tx(
                "%A%",
                11372,
                r#"[{"store_code":{"code":"AGFzbQEAAAABFARgAABgAX8Bf2ABfwBgA39/fwF/AwUEAAECAwUDAQABBz0EE2ludGVyZmFjZV92ZXJzaW9uXzgAAAhhbGxvY2F0ZQABCmRlYWxsb2NhdGUAAgtpbnN0YW50aWF0ZQADChEEAgALBAAgAAsCAAsEACAACw=="}}]"#,
            ),
            r#"{"code":0,"codespace":"","data":[null],"detail":"","events":[{"attributes":[{"key":"code_checksum","value":"3ff98448e19c551bebb19420a9d8e365f87d8d5fa215c53d23e7973a54d7bc1d"},{"key":"code_id","value":"5"}],"type":"store_code"}],"gas":11372}"#,
        ),
        // and one less
        (
            Act::Tx(
                "%A%",
                11371,
                r#"[{"store_code":{"code":"AGFzbQEAAAABFARgAABgAX8Bf2ABfwBgA39/fwF/AwUEAAECAwUDAQABBz0EE2ludGVyZmFjZV92ZXJzaW9uXzgAAAhhbGxvY2F0ZQABCmRlYWxsb2NhdGUAAgtpbnN0YW50aWF0ZQADChEEAgALBAAgAAsCAAsEACAACw=="}}]"#,
            ),
            r#"{"code":11,"codespace":"sdk","data":[],"detail":"OutOfGas","events":[],"gas":11371}"#,
        ),
    ];
    expect_all(&rt, rt.alloc(), acts)
}

#[test]
fn addresses_come_before_the_charge_and_this_before_the_gate(rt: HostRuntime) -> Result<(), Fail> {
    let acts: &[(Act, &str)] = &[
        (
            Act::Tx(
                "%A%",
                20000,
                r#"[{"store_code":{"allow":["%A%","zz"],"code":"AA=="}}]"#,
            ),
            r#"{"code":7,"codespace":"sdk","data":[],"detail":"AddressBad","events":[],"gas":1000}"#,
        ),
        // too little for the charge
        (
            Act::Tx("%A%", 11002, r#"[{"store_code":{"code":"AA=="}}]"#),
            r#"{"code":11,"codespace":"sdk","data":[],"detail":"OutOfGas","events":[],"gas":11002}"#,
        ),
        (
            Act::Tx("%A%", 11003, r#"[{"store_code":{"code":"AA=="}}]"#),
            r#"{"code":2,"codespace":"wasm","data":[],"detail":"StoreRefused Read Cut 0","events":[],"gas":11003}"#,
        ),
        // nothing was stored
        (
            Act::Tx(
                "%A%",
                20000,
                r#"[{"store_code":{"code":"AGFzbQEAAAABFARgAABgAX8Bf2ABfwBgA39/fwF/AwUEAAECAwUDAQABBz0EE2ludGVyZmFjZV92ZXJzaW9uXzgAAAhhbGxvY2F0ZQABCmRlYWxsb2NhdGUAAgtpbnN0YW50aWF0ZQADChEEAgALBAAgAAsCAAsEACAACw=="}}]"#,
            ),
            r#"{"code":0,"codespace":"","data":[null],"detail":"","events":[{"attributes":[{"key":"code_checksum","value":"3ff98448e19c551bebb19420a9d8e365f87d8d5fa215c53d23e7973a54d7bc1d"},{"key":"code_id","value":"1"}],"type":"store_code"}],"gas":11372}"#,
        ),
        // and a failed transaction takes its code back
        (
            Act::Tx(
                "%A%",
                40000,
                r#"[{"store_code":{"code":"AGFzbQEAAAABFARgAABgAX8Bf2ABfwBgA39/fwF/AwUEAAECAwUDAQABBz0EE2ludGVyZmFjZV92ZXJzaW9uXzgAAAhhbGxvY2F0ZQABCmRlYWxsb2NhdGUAAgtpbnN0YW50aWF0ZQADChEEAgALBAAgAAsCAAsEACAACw=="}},{"store_code":{"code":""}}]"#,
            ),
            r#"{"code":2,"codespace":"wasm","data":[],"detail":"StoreRefused Read Cut 0","events":[],"gas":22372}"#,
        ),
        (
            Act::Tx(
                "%A%",
                20000,
                r#"[{"store_code":{"code":"AGFzbQEAAAABFARgAABgAX8Bf2ABfwBgA39/fwF/AwUEAAECAwUDAQABBz0EE2ludGVyZmFjZV92ZXJzaW9uXzgAAAhhbGxvY2F0ZQABCmRlYWxsb2NhdGUAAgtpbnN0YW50aWF0ZQADChEEAgALBAAgAAsCAAsEACAACw=="}}]"#,
            ),
            r#"{"code":0,"codespace":"","data":[null],"detail":"","events":[{"attributes":[{"key":"code_checksum","value":"3ff98448e19c551bebb19420a9d8e365f87d8d5fa215c53d23e7973a54d7bc1d"},{"key":"code_id","value":"2"}],"type":"store_code"}],"gas":11372}"#,
        ),
    ];
    expect_all(&rt, rt.alloc(), acts)
}

#[test]
fn the_authority_pins_and_unpins_codes_with_an_event_for_each_id(
    rt: HostRuntime,
) -> Result<(), Fail> {
    let acts: &[(Act, &str)] = &[
        // who pins is looked at before what
        (
            Act::Tx("%B%", 5000, r#"[{"pin_code":{"ids":[1]}}]"#),
            r#"{"code":4,"codespace":"sdk","data":[],"detail":"NotAuthority","events":[],"gas":1000}"#,
        ),
        (
            Act::Tx("%B%", 5000, r#"[{"unpin_code":{"ids":[1]}}]"#),
            r#"{"code":4,"codespace":"sdk","data":[],"detail":"NotAuthority","events":[],"gas":1000}"#,
        ),
        (
            Act::Tx("%A%", 5000, r#"[{"pin_code":{"ids":[1]}}]"#),
            r#"{"code":8,"codespace":"wasm","data":[],"detail":"NoSuchCode 1","events":[],"gas":1000}"#,
        ),
        (
            Act::Tx(
                "%A%",
                60000,
                r#"[{"store_code":{"code":"AGFzbQEAAAABFARgAABgAX8Bf2ABfwBgA39/fwF/AwUEAAECAwUDAQABBz0EE2ludGVyZmFjZV92ZXJzaW9uXzgAAAhhbGxvY2F0ZQABCmRlYWxsb2NhdGUAAgtpbnN0YW50aWF0ZQADChEEAgALBAAgAAsCAAsEACAACw=="}},{"store_code":{"code":"AGFzbQEAAAABFARgAABgAX8Bf2ABfwBgA39/fwF/AwUEAAECAwUDAQABBz0EE2ludGVyZmFjZV92ZXJzaW9uXzgAAAhhbGxvY2F0ZQABCmRlYWxsb2NhdGUAAgtpbnN0YW50aWF0ZQADChEEAgALBAAgAAsCAAsEACAACw=="}}]"#,
            ),
            r#"{"code":0,"codespace":"","data":[null,null],"detail":"","events":[{"attributes":[{"key":"code_checksum","value":"3ff98448e19c551bebb19420a9d8e365f87d8d5fa215c53d23e7973a54d7bc1d"},{"key":"code_id","value":"1"}],"type":"store_code"},{"attributes":[{"key":"code_checksum","value":"3ff98448e19c551bebb19420a9d8e365f87d8d5fa215c53d23e7973a54d7bc1d"},{"key":"code_id","value":"2"}],"type":"store_code"}],"gas":22744}"#,
        ),
        // the first id that no code has
        (
            Act::Tx("%A%", 5000, r#"[{"pin_code":{"ids":[2,0,3]}}]"#),
            r#"{"code":8,"codespace":"wasm","data":[],"detail":"NoSuchCode 0","events":[],"gas":1000}"#,
        ),
        (
            Act::Tx("%A%", 5000, r#"[{"unpin_code":{"ids":[2,4,3]}}]"#),
            r#"{"code":8,"codespace":"wasm","data":[],"detail":"NoSuchCode 4","events":[],"gas":1000}"#,
        ),
        // in the order of the list, and twice where an id stands twice
        (
            Act::Tx("%U%", 5000, r#"[{"pin_code":{"ids":[2,1,2]}}]"#),
            r#"{"code":0,"codespace":"","data":[null],"detail":"","events":[{"attributes":[{"key":"code_id","value":"2"}],"type":"pin_code"},{"attributes":[{"key":"code_id","value":"1"}],"type":"pin_code"},{"attributes":[{"key":"code_id","value":"2"}],"type":"pin_code"}],"gas":1000}"#,
        ),
        // what is pinned stays so, and has its event
        (
            Act::Tx("%A%", 5000, r#"[{"pin_code":{"ids":[1]}}]"#),
            r#"{"code":0,"codespace":"","data":[null],"detail":"","events":[{"attributes":[{"key":"code_id","value":"1"}],"type":"pin_code"}],"gas":1000}"#,
        ),
        // so has what isn't pinned any more
        (
            Act::Tx(
                "%A%",
                5000,
                r#"[{"unpin_code":{"ids":[1,1]}},{"unpin_code":{"ids":[1]}}]"#,
            ),
            r#"{"code":0,"codespace":"","data":[null,null],"detail":"","events":[{"attributes":[{"key":"code_id","value":"1"}],"type":"unpin_code"},{"attributes":[{"key":"code_id","value":"1"}],"type":"unpin_code"},{"attributes":[{"key":"code_id","value":"1"}],"type":"unpin_code"}],"gas":2000}"#,
        ),
        // a list has from 1 to 64 ids
        (
            Act::Tx("%A%", 5000, r#"[{"pin_code":{"ids":[]}}]"#),
            r#"{"code":18,"codespace":"sdk","data":[],"detail":"MessageBad","events":[],"gas":0}"#,
        ),
        (
            Act::Tx(
                "%A%",
                5000,
                r#"[{"pin_code":{"ids":[1,1,1,1,1,1,1,1,1,1,1,1,1,1,1,1,1,1,1,1,1,1,1,1,1,1,1,1,1,1,1,1,1,1,1,1,1,1,1,1,1,1,1,1,1,1,1,1,1,1,1,1,1,1,1,1,1,1,1,1,1,1,1,1,1]}}]"#,
            ),
            r#"{"code":18,"codespace":"sdk","data":[],"detail":"MessageBad","events":[],"gas":0}"#,
        ),
        (
            Act::Tx("%A%", 999, r#"[{"pin_code":{"ids":[1]}}]"#),
            r#"{"code":11,"codespace":"sdk","data":[],"detail":"OutOfGas","events":[],"gas":999}"#,
        ),
    ];
    expect_all(&rt, rt.alloc(), acts)
}

#[test]
fn an_admin_is_changed_of_a_contract_that_is_there(rt: HostRuntime) -> Result<(), Fail> {
    let acts: &[(Act, &str)] = &[
        (
            Act::Tx(
                "%A%",
                5000,
                r#"[{"wasm":{"update_admin":{"admin":"zz","contract_addr":"yy"}}}]"#,
            ),
            r#"{"code":7,"codespace":"sdk","data":[],"detail":"AddressBad","events":[],"gas":1000}"#,
        ),
        // the new admin's address comes last
        (
            Act::Tx(
                "%A%",
                5000,
                r#"[{"wasm":{"update_admin":{"admin":"zz","contract_addr":"%U%"}}}]"#,
            ),
            r#"{"code":22,"codespace":"wasm","data":[],"detail":"NoSuchContract %A%","events":[],"gas":1000}"#,
        ),
        (
            Act::Tx(
                "%A%",
                5000,
                r#"[{"wasm":{"update_admin":{"admin":"%A%","contract_addr":"%B%"}}}]"#,
            ),
            r#"{"code":22,"codespace":"wasm","data":[],"detail":"NoSuchContract %B%","events":[],"gas":1000}"#,
        ),
        (
            Act::Tx(
                "%A%",
                5000,
                r#"[{"wasm":{"clear_admin":{"contract_addr":"yy"}}}]"#,
            ),
            r#"{"code":7,"codespace":"sdk","data":[],"detail":"AddressBad","events":[],"gas":1000}"#,
        ),
        (
            Act::Tx(
                "%A%",
                5000,
                r#"[{"wasm":{"clear_admin":{"contract_addr":"%U%"}}}]"#,
            ),
            r#"{"code":22,"codespace":"wasm","data":[],"detail":"NoSuchContract %A%","events":[],"gas":1000}"#,
        ),
        (
            Act::Tx(
                "%A%",
                999,
                r#"[{"wasm":{"clear_admin":{"contract_addr":"%A%"}}}]"#,
            ),
            r#"{"code":11,"codespace":"sdk","data":[],"detail":"OutOfGas","events":[],"gas":999}"#,
        ),
    ];
    expect_all(&rt, rt.alloc(), acts)
}
