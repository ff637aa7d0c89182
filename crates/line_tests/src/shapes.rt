use crate::sample::{Act, Order};
use crate::telling::told;
use json_shapes::{
    Form, JsonStop, ShapeStop, bytes_at, field, list_at, list_field, nullable_field,
    optional_field, optional_list, read_json, take_list, take_one_field, text_at, u64_at, variant,
    write_json,
};
use serde_json::Value;
use std::alloc::{AllocError, Global};
use std::process::Abort;
use std::test::Fail;

#[test]
fn texts_are_read_where_their_numbers_are_whole(rt: HostRuntime) {
    let cases: &[(&[u8], Option<JsonStop>)] = &[
        (b" {\"a\":[1,null]} ", None),
        (b"18446744073709551615", None),
        (b"18446744073709551616", Some(JsonStop::NotWhole)),
        (b"-9223372036854775808", None),
        (b"-9223372036854775809", Some(JsonStop::NotWhole)),
        (b"-0", Some(JsonStop::NotWhole)),
        (b"1.0", Some(JsonStop::NotWhole)),
        (b"{\"a\":[{\"b\":1e2}]}", Some(JsonStop::NotWhole)),
        (b"{\"a\":1.5,\"a\":2}", None),
        (b"1e999", Some(JsonStop::NoReading)),
        (b"", Some(JsonStop::NoReading)),
        (b"1 2", Some(JsonStop::NoReading)),
        (b"\"\xff\"", Some(JsonStop::NoReading)),
    ];
    for (text, stop) in cases {
        assert_eq!(rt; read_json(rt.alloc(), text).err(), *stop);
    }
}

#[test]
fn texts_nest_at_most_127_deep(rt: HostRuntime) -> Result<(), Fail> {
    let alloc = rt.alloc();
    for (depth, stop) in [(127, None), (128, Some(JsonStop::NoReading))] {
        let mut text = vec![in alloc; b'['; depth]?;
        text.extend_from_slice(&vec![in alloc; b']'; depth]?)?;
        assert_eq!(rt; read_json(alloc, &text).err(), stop);
    }
    Ok(())
}

#[test]
fn values_are_written_with_no_space_and_their_keys_in_order(rt: HostRuntime) -> Result<(), Fail> {
    let value = read_json(rt.alloc(), b"{ \"b\" : [1, -2, null], \"a\" : \"x\" }")?;
    let text = write_json(rt.alloc(), &value)?;
    let wanted = "{\"a\":\"x\",\"b\":[1,-2,null]}";
    assert_eq!(rt; text.as_slice(), wanted.as_bytes());
    Ok(())
}

/// What the reader of this name tells of the field `a`.
fn read_by(alloc: Global, reader: &str, value: &Value) -> Result<String, AllocError> {
    match reader {
        "text" => told(alloc, text_at(alloc, value, "a")),
        "u64" => told(alloc, u64_at(alloc, value, "a")),
        "list" => told(alloc, list_at(alloc, value, "a").map(|list| list.len())),
        "bytes" => told(alloc, bytes_at(alloc, value, "a")),
        "field" => told(alloc, field::<String>(alloc, value, "a")),
        "nullable" => told(alloc, nullable_field::<u64>(alloc, value, "a")),
        "optional" => told(alloc, optional_field::<u64>(alloc, value, "a")),
        "numbers" => told(alloc, list_field::<u64>(alloc, value, "a")),
        "lists" => told(alloc, list_field::<Vec<u64>>(alloc, value, "a")),
        "or empty" => told(alloc, optional_list::<u64>(alloc, value, "a")),
        _ => told(alloc, variant(alloc, value).map(|named| named.0)),
    }
}

/// Reads each text by its reader.
fn expect(rt: &impl Abort, alloc: Global, cases: &[(&str, &str, &str)]) -> Result<(), Fail> {
    for (reader, text, wanted) in cases {
        let value = read_json(alloc, text.as_bytes())?;
        assert_eq!(rt; read_by(alloc, reader, &value)?.as_str(), *wanted);
    }
    Ok(())
}

#[test]
fn a_field_is_read_or_its_want_told(rt: HostRuntime) -> Result<(), Fail> {
    let cases: &[(&str, &str, &str)] = &[
        ("text", "{\"a\":\"x\"}", "\"x\""),
        ("text", "{\"a\":1,\"a\":\"y\"}", "\"y\""),
        ("text", "{\"a\":\"x\",\"a\":null}", "a text belongs at `a`"),
        ("text", "{\"b\":\"x\"}", "a text belongs at `a`"),
        ("field", "[\"a\"]", "a text belongs at `a`"),
        ("field", "{\"a\":\"x\"}", "\"x\""),
        (
            "u64",
            "{\"a\":18446744073709551615}",
            "18446744073709551615",
        ),
        (
            "u64",
            "{\"a\":-1}",
            "an integer from 0 to 2^64 - 1 belongs at `a`",
        ),
        (
            "u64",
            "{\"a\":\"1\"}",
            "an integer from 0 to 2^64 - 1 belongs at `a`",
        ),
        ("list", "{\"a\":[null,[]]}", "2"),
        ("list", "{\"a\":{}}", "a list belongs at `a`"),
        ("list", "null", "a list belongs at `a`"),
    ];
    expect(&rt, rt.alloc(), cases)
}

#[test]
fn bytes_are_texts_in_padded_base64(rt: HostRuntime) -> Result<(), Fail> {
    let none = "a text in base64 belongs at `a`";
    let cases: &[(&str, &str, &str)] = &[
        ("bytes", "{\"a\":\"\"}", "[]"),
        ("bytes", "{\"a\":\"AQI=\"}", "[1, 2]"),
        ("bytes", "{\"a\":\"AQI\"}", none),
        ("bytes", "{\"a\":\"AQJ=\"}", none),
        ("bytes", "{\"a\":\"AQI==\"}", none),
        ("bytes", "{\"a\":\"A-I=\"}", none),
        ("bytes", "{\"a\":[1,2]}", none),
        ("bytes", "{}", none),
    ];
    expect(&rt, rt.alloc(), cases)
}

#[test]
fn null_stands_where_it_may(rt: HostRuntime) -> Result<(), Fail> {
    let none = "an integer from 0 to 2^64 - 1 belongs at `a`";
    let cases: &[(&str, &str, &str)] = &[
        ("nullable", "{\"a\":5}", "Some(5)"),
        ("nullable", "{\"a\":null}", "None"),
        ("nullable", "{}", none),
        ("nullable", "{\"a\":\"5\"}", none),
        ("optional", "{\"a\":5}", "Some(5)"),
        ("optional", "{\"a\":null}", "None"),
        ("optional", "{}", "None"),
        ("optional", "[5]", "None"),
        ("optional", "{\"a\":[]}", none),
        ("or empty", "{\"a\":[5]}", "[5]"),
        ("or empty", "{\"a\":null}", "[]"),
        ("or empty", "{}", "[]"),
        ("or empty", "{\"a\":5}", "a list belongs at `a`"),
    ];
    expect(&rt, rt.alloc(), cases)
}

#[test]
fn the_first_fault_of_a_list_is_told_by_its_place(rt: HostRuntime) -> Result<(), Fail> {
    let cases: &[(&str, &str, &str)] = &[
        ("numbers", "{\"a\":[1,2]}", "[1, 2]"),
        ("numbers", "{\"a\":[]}", "[]"),
        ("numbers", "{\"a\":null}", "a list belongs at `a`"),
        ("numbers", "{}", "a list belongs at `a`"),
        (
            "numbers",
            "{\"a\":[1,null,\"2\"]}",
            "an integer from 0 to 2^64 - 1 belongs at `a.1`",
        ),
        ("lists", "{\"a\":[[1],[]]}", "[[1], []]"),
        ("lists", "{\"a\":[[1],2]}", "a list belongs at `a.1`"),
        (
            "lists",
            "{\"a\":[[1,-1],2]}",
            "an integer from 0 to 2^64 - 1 belongs at `a.0.1`",
        ),
    ];
    expect(&rt, rt.alloc(), cases)
}

#[test]
fn a_variant_has_one_field(rt: HostRuntime) -> Result<(), Fail> {
    let none = "an object of one field belongs at ``";
    let cases: &[(&str, &str, &str)] = &[
        ("variant", "{}", none),
        ("variant", "{\"b\":null}", "\"b\""),
        ("variant", "{\"b\":1,\"b\":2}", "\"b\""),
        ("variant", "{\"b\":1,\"c\":1}", none),
        ("variant", "[\"b\"]", none),
        ("variant", "\"b\"", none),
    ];
    expect(&rt, rt.alloc(), cases)
}

#[test]
fn a_list_is_taken_out_of_its_field(rt: HostRuntime) -> Result<(), Fail> {
    let alloc = rt.alloc();
    let value = read_json(alloc, b"{\"a\":[1,null],\"b\":2}")?;
    let (list, rest) = take_list(alloc, value, "a")?;
    assert_eq!(rt; list.len(), 2);
    let text = write_json(alloc, &rest)?;
    let wanted = "{\"b\":2}";
    assert_eq!(rt; text.as_slice(), wanted.as_bytes());
    let none = take_list(alloc, rest, "b").map(|taken| taken.0.len());
    assert_eq!(rt; told(alloc, none)?.as_str(), "a list belongs at `b`");
    Ok(())
}

#[test]
fn an_only_field_is_taken_out(rt: HostRuntime) -> Result<(), Fail> {
    for (text, wanted) in [
        ("{\"b\":[]}", Some(true)),
        ("{\"b\":[],\"b\":1}", Some(false)),
        ("{\"b\":[],\"c\":[]}", None),
        ("{}", None),
        ("[[]]", None),
    ] {
        let taken = take_one_field(read_json(rt.alloc(), text.as_bytes())?);
        let is_list = taken.map(|named| named.1.as_array().is_some());
        assert_eq!(rt; is_list, wanted);
    }
    Ok(())
}

#[test]
fn a_record_is_read_by_its_fields(rt: HostRuntime) -> Result<(), Fail> {
    let alloc = rt.alloc();
    let text =
        "{\"act\":{\"send\":{\"to\":\"b\"}},\"coins\":[{\"amount\":3,\"denom\":\"x\"}],\"id\":7}";
    let order = Order::read(alloc, &read_json(alloc, text.as_bytes())?)?;
    assert!(rt; order.id == 7 && order.memo.is_none() && order.coins.len() == 1);
    assert!(rt; order.coins[0].denom.as_str() == "x" && order.coins[0].amount == 3);
    assert!(rt; matches!(&order.act, Act::Send(to) if to.as_str() == "b"));
    Ok(())
}

#[test]
fn a_record_has_the_fault_of_its_first_field(rt: HostRuntime) -> Result<(), Fail> {
    let alloc = rt.alloc();
    for (text, wanted) in [
        (
            "{\"coins\":1}",
            "an integer from 0 to 2^64 - 1 belongs at `id`",
        ),
        (
            "{\"id\":1,\"coins\":[{\"denom\":\"x\"}]}",
            "an integer from 0 to 2^64 - 1 belongs at `coins.0.amount`",
        ),
        (
            "{\"id\":1,\"coins\":[],\"memo\":1}",
            "a text belongs at `memo`",
        ),
        (
            "{\"id\":1,\"coins\":[]}",
            "an object of one field belongs at `act`",
        ),
        (
            "{\"id\":1,\"coins\":[],\"act\":{\"mint\":{}}}",
            "an object of one field belongs at `act`",
        ),
        (
            "{\"id\":1,\"coins\":[],\"act\":{\"burn\":{}}}",
            "an integer from 0 to 2^64 - 1 belongs at `act.burn.amount`",
        ),
    ] {
        let value = read_json(alloc, text.as_bytes())?;
        let read = Order::read(alloc, &value).map(|order| order.id);
        assert_eq!(rt; told(alloc, read)?.as_str(), wanted);
    }
    Ok(())
}
