use crate::telling::told;
use chain_msgs::{ResponseStop, coins_at, read_query_result, read_response, read_tx_msg};
use json_shapes::read_json;
use std::alloc::{AllocError, Global};
use std::process::Abort;
use std::test::Fail;

/// What the reader of this name tells of a text.
fn read_by(alloc: Global, reader: &str, text: &str) -> Result<String, Fail> {
    match reader {
        "message" => {
            let value = read_json(alloc, text.as_bytes())?;
            Ok(told(alloc, read_tx_msg(alloc, &value))?)
        }
        "response" => Ok(told(alloc, read_response(alloc, text.as_bytes()))?),
        _ => Ok(told(alloc, read_query_result(alloc, text.as_bytes()))?),
    }
}

/// Reads each text by its reader.
fn expect(
    rt: &impl Abort,
    alloc: Global,
    reader: &str,
    cases: &[(&str, &str)],
) -> Result<(), Fail> {
    for (text, wanted) in cases {
        assert_eq!(rt; read_by(alloc, reader, text)?.as_str(), *wanted);
    }
    Ok(())
}

#[test]
fn messages_are_read(rt: HostRuntime) -> Result<(), Fail> {
    let cases: &[(&str, &str)] = &[
        (
            r#"{"bank":{"send":{"amount":[{"amount":"5","denom":"u"}],"to_address":"a"}}}"#,
            r#"Cosmos(BankSend { to: "a", amount: [RawCoin { denom: "u", amount: "5" }] })"#,
        ),
        (
            r#"{"bank":{"burn":{"amount":[]}}}"#,
            "Cosmos(BankBurn { amount: [] })",
        ),
        (
            r#"{"wasm":{"execute":{"contract_addr":"c","funds":[],"msg":"AQI="}}}"#,
            r#"Cosmos(Execute { contract: "c", msg: [1, 2], funds: [] })"#,
        ),
        (
            r#"{"wasm":{"instantiate":{"admin":null,"code_id":7,"funds":[],"label":"l","msg":""}}}"#,
            r#"Cosmos(Instantiate { admin: None, code_id: 7, msg: [], funds: [], label: "l", salt: None })"#,
        ),
        (
            r#"{"wasm":{"instantiate2":{"admin":"a","code_id":7,"funds":[],"label":"l","msg":"","salt":"AQ=="}}}"#,
            r#"Cosmos(Instantiate { admin: Some("a"), code_id: 7, msg: [], funds: [], label: "l", salt: Some([1]) })"#,
        ),
        (
            r#"{"wasm":{"migrate":{"contract_addr":"c","msg":"AQ==","new_code_id":8}}}"#,
            r#"Cosmos(Migrate { contract: "c", new_code_id: 8, msg: [1] })"#,
        ),
        (
            r#"{"wasm":{"update_admin":{"admin":"a","contract_addr":"c"}}}"#,
            r#"Cosmos(UpdateAdmin { contract: "c", admin: "a" })"#,
        ),
        (
            r#"{"wasm":{"clear_admin":{"contract_addr":"c"}}}"#,
            r#"Cosmos(ClearAdmin { contract: "c" })"#,
        ),
        (
            r#"{"store_code":{"code":"AQ=="}}"#,
            "StoreCode { code: [1], allow: None }",
        ),
        (
            r#"{"store_code":{"allow":null,"code":"AQ=="}}"#,
            "StoreCode { code: [1], allow: None }",
        ),
        (
            r#"{"store_code":{"allow":[],"code":"AQ=="}}"#,
            "StoreCode { code: [1], allow: Some([]) }",
        ),
        (
            r#"{"store_code":{"allow":["a","b"],"code":"AQ=="}}"#,
            r#"StoreCode { code: [1], allow: Some(["a", "b"]) }"#,
        ),
        (
            r#"{"pin_code":{"ids":[18446744073709551615,0]}}"#,
            "Pin { ids: [18446744073709551615, 0] }",
        ),
        (r#"{"unpin_code":{"ids":[1]}}"#, "Unpin { ids: [1] }"),
        (
            r#"{"sudo":{"contract":"c","msg":"AQ=="}}"#,
            r#"Sudo { contract: "c", msg: [1] }"#,
        ),
        // Of a repeated field the last one counts.
        (
            r#"{"sudo":{"contract":1,"msg":"","contract":"d"}}"#,
            r#"Sudo { contract: "d", msg: [] }"#,
        ),
    ];
    expect(&rt, rt.alloc(), "message", cases)
}

#[test]
fn other_messages_have_a_kind_and_the_rest_no_form(rt: HostRuntime) -> Result<(), Fail> {
    let none = "an object of one field belongs at ``";
    let cases: &[(&str, &str)] = &[
        (
            r#"{"staking":{"delegate":1}}"#,
            r#"Cosmos(Other { kind: "staking" })"#,
        ),
        (r#"{"":null}"#, r#"Cosmos(Other { kind: "" })"#),
        (
            r#"{"bank":{"mint":null}}"#,
            r#"Cosmos(Other { kind: "bank.mint" })"#,
        ),
        (
            r#"{"wasm":{"pin":[]}}"#,
            r#"Cosmos(Other { kind: "wasm.pin" })"#,
        ),
        // Of what stands under an unknown name nothing is read.
        (
            r#"{"gov":{"vote":1,"veto":2}}"#,
            r#"Cosmos(Other { kind: "gov" })"#,
        ),
        (r#"{"bank":{}}"#, "an object of one field belongs at `bank`"),
        (
            r#"{"wasm":{"migrate":{},"execute":{}}}"#,
            "an object of one field belongs at `wasm`",
        ),
        (
            r#"{"wasm":null}"#,
            "an object of one field belongs at `wasm`",
        ),
        ("{}", none),
        (r#"{"bank":{},"wasm":{}}"#, none),
        (r#"["bank"]"#, none),
        ("null", none),
    ];
    expect(&rt, rt.alloc(), "message", cases)
}

/// How a field may be empty.
#[derive(Clone, Copy, PartialEq, Eq)]
enum May {
    HasToBe,
    BeNull,
    BeMissing,
}

/// A field of a form: its name, a right value, what belongs there, and how it may be empty.
type Field<'a> = (&'a str, &'a str, &'a str, May);

/// Where a form stands: its reader, what stands before and behind its object, and the path to that.
type Place<'a> = (&'a str, &'a str, &'a str, &'a str);

/// The form's text with this at one field, or nothing. Those before it are right; those behind it too, or missing.
fn text_with(
    alloc: Global,
    place: Place,
    fields: &[Field],
    at: usize,
    given: &str,
    whole: bool,
) -> Result<String, AllocError> {
    let mut text = String::from_str(alloc, place.1)?;
    text.push_str(r#"{"unknown":[1]"#)?;
    for (count, field) in fields.iter().enumerate() {
        let mut value = field.1;
        if count == at {
            value = given;
        } else if count > at && !whole {
            value = "";
        }
        if !value.is_empty() {
            text.push_str(",\"")?;
            text.push_str(field.0)?;
            text.push_str("\":")?;
            text.push_str(value)?;
        }
    }
    text.push_str("}")?;
    text.push_str(place.2)?;
    Ok(text)
}

/// The text is read, or this is told at the field.
fn expect_field(
    rt: &impl Abort,
    alloc: Global,
    place: Place,
    field: Field,
    text: &str,
    fine: bool,
) -> Result<(), Fail> {
    let mut stop = String::from_str(alloc, field.2)?;
    for part in [" belongs at `", place.3, field.0, "`"] {
        stop.push_str(part)?;
    }
    let read = read_by(alloc, place.0, text)?;
    assert_eq!(rt;
        read.as_str() == stop.as_str(),
        !fine,
        "{text} gives {read}"
    );
    assert_eq!(rt;
        read.as_str().contains(" belongs at "),
        !fine,
        "{text} gives {read}"
    );
    Ok(())
}

/// The field right, missing, null and of another type, with those behind it missing, is told at its path, or may be so.
fn expect_field_at(
    rt: &impl Abort,
    alloc: Global,
    place: Place,
    fields: &[Field],
    at: usize,
    field: Field,
) -> Result<(), Fail> {
    let missing = field.3 == May::BeMissing;
    let null = missing || field.3 == May::BeNull;
    for (given, fine) in [
        (field.1, true),
        ("", missing),
        ("null", null),
        ("{}", false),
    ] {
        let text = text_with(alloc, place, fields, at, given, fine)?;
        expect_field(rt, alloc, place, field, text.as_str(), fine)?;
    }
    Ok(())
}

/// Each field of the form is looked at.
fn expect_fields(
    rt: &impl Abort,
    alloc: Global,
    place: Place,
    fields: &[Field],
) -> Result<(), Fail> {
    for (at, field) in fields.iter().enumerate() {
        expect_field_at(rt, alloc, place, fields, at, *field)?;
    }
    Ok(())
}

/// The fields of each form are looked at.
fn expect_forms(rt: &impl Abort, alloc: Global, forms: &[(Place, &[Field])]) -> Result<(), Fail> {
    for (place, fields) in forms {
        expect_fields(rt, alloc, *place, fields)?;
    }
    Ok(())
}

const TEXT: &str = "a text";

const NUMBER: &str = "an integer from 0 to 2^64 - 1";

const LIST: &str = "a list";

const BINARY: &str = "a text in base64";

const VARIANT: &str = "an object of one field";

/// The forms of messages: where each stands, and its fields in order.
const MESSAGES: &[(Place, &[Field])] = &[
    (
        ("message", r#"{"bank":{"send":"#, "}}", "bank.send."),
        &[
            ("to_address", "\"a\"", TEXT, May::HasToBe),
            ("amount", "[]", LIST, May::HasToBe),
        ],
    ),
    (
        ("message", r#"{"bank":{"burn":"#, "}}", "bank.burn."),
        &[("amount", "[]", LIST, May::HasToBe)],
    ),
    (
        (
            "message",
            r#"{"bank":{"burn":{"amount":[{"denom":"u","amount":""},"#,
            "]}}}",
            "bank.burn.amount.1.",
        ),
        &[
            ("denom", "\"a\"", TEXT, May::HasToBe),
            ("amount", "\"1\"", TEXT, May::HasToBe),
        ],
    ),
    (
        ("message", r#"{"wasm":{"execute":"#, "}}", "wasm.execute."),
        &[
            ("contract_addr", "\"a\"", TEXT, May::HasToBe),
            ("msg", "\"\"", BINARY, May::HasToBe),
            ("funds", "[]", LIST, May::HasToBe),
        ],
    ),
    (
        (
            "message",
            r#"{"wasm":{"instantiate2":"#,
            "}}",
            "wasm.instantiate2.",
        ),
        &[
            ("admin", "\"a\"", TEXT, May::BeNull),
            ("code_id", "1", NUMBER, May::HasToBe),
            ("msg", "\"\"", BINARY, May::HasToBe),
            ("funds", "[]", LIST, May::HasToBe),
            ("label", "\"\"", TEXT, May::HasToBe),
            ("salt", "\"\"", BINARY, May::HasToBe),
        ],
    ),
    (
        (
            "message",
            r#"{"wasm":{"instantiate":"#,
            "}}",
            "wasm.instantiate.",
        ),
        &[
            ("admin", "\"a\"", TEXT, May::BeNull),
            ("code_id", "1", NUMBER, May::HasToBe),
            ("msg", "\"\"", BINARY, May::HasToBe),
            ("funds", "[]", LIST, May::HasToBe),
            ("label", "\"\"", TEXT, May::HasToBe),
        ],
    ),
    (
        ("message", r#"{"wasm":{"migrate":"#, "}}", "wasm.migrate."),
        &[
            ("contract_addr", "\"a\"", TEXT, May::HasToBe),
            ("new_code_id", "1", NUMBER, May::HasToBe),
            ("msg", "\"\"", BINARY, May::HasToBe),
        ],
    ),
    (
        (
            "message",
            r#"{"wasm":{"update_admin":"#,
            "}}",
            "wasm.update_admin.",
        ),
        &[
            ("contract_addr", "\"a\"", TEXT, May::HasToBe),
            ("admin", "\"a\"", TEXT, May::HasToBe),
        ],
    ),
    (
        (
            "message",
            r#"{"wasm":{"clear_admin":"#,
            "}}",
            "wasm.clear_admin.",
        ),
        &[("contract_addr", "\"a\"", TEXT, May::HasToBe)],
    ),
    (
        ("message", r#"{"store_code":"#, "}", "store_code."),
        &[
            ("allow", "[]", LIST, May::BeMissing),
            ("code", "\"\"", BINARY, May::HasToBe),
        ],
    ),
    (
        ("message", r#"{"pin_code":"#, "}", "pin_code."),
        &[("ids", "[1]", LIST, May::HasToBe)],
    ),
    (
        ("message", r#"{"unpin_code":"#, "}", "unpin_code."),
        &[("ids", "[1]", LIST, May::HasToBe)],
    ),
    (
        ("message", r#"{"sudo":"#, "}", "sudo."),
        &[
            ("contract", "\"a\"", TEXT, May::HasToBe),
            ("msg", "\"\"", BINARY, May::HasToBe),
        ],
    ),
];

#[test]
fn fields_of_messages_have_to_be_right(rt: HostRuntime) -> Result<(), Fail> {
    expect_forms(&rt, rt.alloc(), MESSAGES)
}

/// The forms of responses.
const RESPONSES: &[(Place, &[Field])] = &[
    (
        ("response", r#"{"ok":"#, "}", "ok."),
        &[
            ("messages", "[]", LIST, May::BeMissing),
            ("attributes", "[]", LIST, May::BeMissing),
            ("events", "[]", LIST, May::BeMissing),
            ("data", "\"\"", BINARY, May::BeMissing),
        ],
    ),
    (
        (
            "response",
            r#"{"ok":{"messages":["#,
            "]}}",
            "ok.messages.0.",
        ),
        &[
            ("id", "1", NUMBER, May::HasToBe),
            ("msg", r#"{"gov":1}"#, VARIANT, May::HasToBe),
            ("gas_limit", "1", NUMBER, May::BeMissing),
            ("reply_on", "\"never\"", TEXT, May::HasToBe),
        ],
    ),
    (
        (
            "response",
            r#"{"ok":{"attributes":["#,
            "]}}",
            "ok.attributes.0.",
        ),
        &[
            ("key", "\"a\"", TEXT, May::HasToBe),
            ("value", "\"\"", TEXT, May::HasToBe),
        ],
    ),
    (
        ("response", r#"{"ok":{"events":["#, "]}}", "ok.events.0."),
        &[
            ("type", "\"ab\"", TEXT, May::HasToBe),
            ("attributes", "[]", LIST, May::HasToBe),
        ],
    ),
];

#[test]
fn fields_of_responses_have_to_be_right(rt: HostRuntime) -> Result<(), Fail> {
    expect_forms(&rt, rt.alloc(), RESPONSES)
}

#[test]
fn one_to_64_ids_are_pinned(rt: HostRuntime) -> Result<(), Fail> {
    let alloc = rt.alloc();
    for (count, fine) in [(0usize, false), (1, true), (64, true), (65, false)] {
        let mut text = String::from_str(alloc, r#"{"pin_code":{"ids":["#)?;
        for place in 0..count {
            if place > 0 {
                text.push_str(",")?;
            }
            text.push_str("9")?;
        }
        text.push_str("]}}")?;
        let read = read_by(alloc, "message", text.as_str())?;
        let stop = "a list belongs at `pin_code.ids`";
        assert_eq!(rt; read.as_str() != stop, fine);
        assert_eq!(rt; read.as_str().starts_with("Pin { ids: [9"), fine);
    }
    Ok(())
}

#[test]
fn numbers_and_bytes_are_looked_at(rt: HostRuntime) -> Result<(), Fail> {
    let number = "an integer from 0 to 2^64 - 1 belongs at `pin_code.ids.1`";
    let binary = "a text in base64 belongs at `sudo.msg`";
    let cases: &[(&str, &str)] = &[
        (r#"{"pin_code":{"ids":[1,-1]}}"#, number),
        (r#"{"pin_code":{"ids":[1,"1"]}}"#, number),
        (r#"{"pin_code":{"ids":[1,null]}}"#, number),
        (r#"{"sudo":{"contract":"c","msg":"AQI"}}"#, binary),
        (r#"{"sudo":{"contract":"c","msg":"AQJ="}}"#, binary),
        (r#"{"sudo":{"contract":"c","msg":"AQI=="}}"#, binary),
        (r#"{"sudo":{"contract":"c","msg":"A_I="}}"#, binary),
        (
            r#"{"store_code":{"allow":["a",1],"code":""}}"#,
            "a text belongs at `store_code.allow.1`",
        ),
    ];
    expect(&rt, rt.alloc(), "message", cases)
}

#[test]
fn responses_are_read(rt: HostRuntime) -> Result<(), Fail> {
    let json = "no JSON of nesting at most 127 with integers of 64 bits";
    let none = "an object of one field belongs at ``";
    let cases: &[(&str, &str)] = &[
        (
            r#"{"ok":{}}"#,
            "Ok(Response { messages: [], attributes: [], events: [], out: None })",
        ),
        (
            r#"{"ok":{"messages":null,"attributes":null,"events":null,"data":null}}"#,
            "Ok(Response { messages: [], attributes: [], events: [], out: None })",
        ),
        (
            r#"{"ok":{"data":"AQ==","messages":[{"id":3,"msg":{"gov":{}},"gas_limit":9,"reply_on":"success"}]}}"#,
            r#"Ok(Response { messages: [SubMsg { id: 3, msg: Other { kind: "gov" }, gas_limit: Some(9), reply_on: Success }], attributes: [], events: [], out: Some([1]) })"#,
        ),
        (r#"{"error":"it broke"}"#, r#"Error("it broke")"#),
        (r#"{"error":""}"#, r#"Error("")"#),
        (r#"{"error":null}"#, "a text belongs at `error`"),
        (
            r#"{"ok":{"messages":[{"id":1,"msg":{"bank":{"send":{"to_address":"a","amount":[{"denom":"u","amount":"1"},{"amount":"2"}]}}}}]}}"#,
            "a text belongs at `ok.messages.0.msg.bank.send.amount.1.denom`",
        ),
        (
            r#"{"ok":{"messages":[{"id":1,"msg":{"wasm":[]}}]}}"#,
            "an object of one field belongs at `ok.messages.0.msg.wasm`",
        ),
        (
            r#"{"ok":{"messages":[{"id":1,"msg":{"gov":1},"reply_on":"sometimes"}]}}"#,
            "a text belongs at `ok.messages.0.reply_on`",
        ),
        (r#"{"ok":null}"#, "a list belongs at `ok`"),
        (r#"{"ok":5}"#, "a list belongs at `ok`"),
        (r#"{"ok":[{}]}"#, "a list belongs at `ok`"),
        (r#"{"Ok":{}}"#, none),
        (r#"{"ok":{},"error":""}"#, none),
        ("{}", none),
        ("[]", none),
        ("", json),
        (r#"{"ok":{}"#, json),
        (r#"{"ok":{"unknown":1.0}}"#, json),
        (r#"{"ok":{"unknown":18446744073709551616}}"#, json),
        // A number that a later one of the field replaces doesn't count.
        (
            r#"{"ok":{"unknown":1.0,"unknown":1}}"#,
            "Ok(Response { messages: [], attributes: [], events: [], out: None })",
        ),
    ];
    expect(&rt, rt.alloc(), "response", cases)
}

#[test]
fn a_word_says_when_to_reply(rt: HostRuntime) -> Result<(), Fail> {
    let alloc = rt.alloc();
    for (word, wanted) in [
        ("always", "Always"),
        ("error", "Error"),
        ("success", "Success"),
        ("never", "Never"),
    ] {
        let mut text = String::from_str(
            alloc,
            r#"{"ok":{"messages":[{"id":0,"msg":{"x":0},"reply_on":""#,
        )?;
        text.push_str(word)?;
        text.push_str(r#""}]}}"#)?;
        let read = read_by(alloc, "response", text.as_str())?;
        let part = format!(in alloc; "gas_limit: None, reply_on: {wanted} }}")?;
        assert!(rt; read.as_str().contains(part.as_str()), "{read}");
    }
    Ok(())
}

#[test]
fn answers_to_queries_are_read(rt: HostRuntime) -> Result<(), Fail> {
    let cases: &[(&str, &str)] = &[
        (r#"{"ok":"AQI="}"#, "Ok([1, 2])"),
        (r#"{"ok":""}"#, "Ok([])"),
        (r#"{"error":"no"}"#, r#"Error("no")"#),
        (r#"{"ok":"AQI"}"#, "a text in base64 belongs at `ok`"),
        (r#"{"ok":null}"#, "a text in base64 belongs at `ok`"),
        (r#"{"yes":""}"#, "an object of one field belongs at ``"),
        (
            "{",
            "no JSON of nesting at most 127 with integers of 64 bits",
        ),
    ];
    expect(&rt, rt.alloc(), "query", cases)
}

#[test]
fn names_that_contracts_may_not_choose_are_found(rt: HostRuntime) -> Result<(), Fail> {
    for (text, number) in [
        (r#"{"attributes":[{"key":"k","value":"_"}]}"#, None),
        (
            r#"{"attributes":[{"key":"k","value":""},{"key":"","value":""}]}"#,
            Some(0usize),
        ),
        (r#"{"attributes":[{"key":"_k","value":""}]}"#, Some(0)),
        (
            r#"{"events":[{"type":"ab","attributes":[{"key":"a_","value":""}]}]}"#,
            None,
        ),
        (r#"{"events":[{"type":"a","attributes":[]}]}"#, Some(1)),
        (
            r#"{"events":[{"type":"ab","attributes":[{"key":"a_","value":""}]},{"type":"","attributes":[]}]}"#,
            Some(2),
        ),
        (
            r#"{"events":[{"type":"ab","attributes":[{"key":"a_","value":""}]},{"type":"ab","attributes":[{"key":"","value":""}]}]}"#,
            Some(2),
        ),
        (
            r#"{"events":[{"type":"ab","attributes":[{"key":"a_","value":""}]},{"type":"ab","attributes":[{"key":"a_","value":""}]},{"type":"ab","attributes":[{"key":"_","value":""}]},{"type":"","attributes":[]}]}"#,
            Some(3),
        ),
        (
            r#"{"events":[{"type":"","attributes":[]}],"attributes":[{"key":"","value":""}]}"#,
            Some(0),
        ),
        // Bytes count, not letters.
        (r#"{"events":[{"type":"é","attributes":[]}]}"#, None),
    ] {
        let alloc = rt.alloc();
        let mut answer = String::from_str(alloc, r#"{"ok":"#)?;
        answer.push_str(text)?;
        answer.push_str("}")?;
        let found = match read_response(alloc, answer.as_bytes()) {
            Ok(_) => None,
            Err(ResponseStop::Event(found)) => Some(found),
            Err(_) => Some(usize::MAX),
        };
        assert_eq!(rt; found, number, "{text}");
    }
    Ok(())
}

#[test]
fn the_form_comes_before_names(rt: HostRuntime) -> Result<(), Fail> {
    let cases: &[(&str, &str)] = &[(
        r#"{"ok":{"attributes":[{"key":"","value":""}],"data":1}}"#,
        "a text in base64 belongs at `ok.data`",
    )];
    expect(&rt, rt.alloc(), "response", cases)
}

#[test]
fn coins_of_a_field_are_read(rt: HostRuntime) -> Result<(), Fail> {
    let alloc = rt.alloc();
    let text = r#"{"coins":[{"amount":"x","denom":"u"},{"amount":"2","denom":""}]}"#;
    let value = read_json(alloc, text.as_bytes())?;
    let read = told(alloc, coins_at(alloc, &value, "coins"))?;
    let wanted = r#"[RawCoin { denom: "u", amount: "x" }, RawCoin { denom: "", amount: "2" }]"#;
    assert_eq!(rt; read.as_str(), wanted);
    let missing = told(alloc, coins_at(alloc, &value, "funds"))?;
    assert_eq!(rt; missing.as_str(), "a list belongs at `funds`");
    Ok(())
}
