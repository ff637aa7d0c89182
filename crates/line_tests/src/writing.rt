use chain_msgs::{
    Answer, Env, Event, FailKind, Failure, Reply, ReplyResult, SystemError, TxResult, list_value,
    reply_bytes, write_answer, write_env, write_info, write_reply,
};
use coin_amounts::{Coins, RawCoin, read_coins};
use json_shapes::write_json;
use std::alloc::Global;
use std::test::Fail;

/// An event with one attribute.
fn one_event(alloc: Global) -> Result<Event, Fail> {
    let mut attributes = Vec::new(alloc);
    attributes.push(chain_msgs::Attribute {
        key: String::from_str(alloc, "k")?,
        value: String::from_str(alloc, "v\"")?,
    })?;
    Ok(Event {
        kind: String::from_str(alloc, "ab")?,
        attributes,
    })
}

#[test]
fn environments_are_written(rt: HostRuntime) -> Result<(), Fail> {
    let alloc = rt.alloc();
    for (index, wanted) in [
        (
            Some(4294967295u32),
            r#"{"block":{"chain_id":"t-1","height":7,"time":"18446744073709551615"},"contract":{"address":"c"},"transaction":{"index":4294967295}}"#,
        ),
        (
            None,
            r#"{"block":{"chain_id":"t-1","height":7,"time":"18446744073709551615"},"contract":{"address":"c"},"transaction":null}"#,
        ),
    ] {
        let env = Env {
            height: 7,
            time: u64::MAX,
            chain_id: String::from_str(alloc, "t-1")?,
            index,
            contract: String::from_str(alloc, "c")?,
        };
        let text = write_env(alloc, &env)?;
        assert_eq!(rt; text.as_slice(), wanted.as_bytes());
    }
    Ok(())
}

#[test]
fn callers_and_funds_are_written(rt: HostRuntime) -> Result<(), Fail> {
    let alloc = rt.alloc();
    let text = write_info(alloc, "s", &Coins::new(alloc))?;
    let wanted = r#"{"funds":[],"sender":"s"}"#;
    assert_eq!(rt; text.as_slice(), wanted.as_bytes());
    let mut raws = Vec::new(alloc);
    for (denom, amount) in [
        ("utok", "0340282366920938463463374607431768211455"),
        ("atok", "2"),
    ] {
        raws.push(RawCoin {
            denom: String::from_str(alloc, denom)?,
            amount: String::from_str(alloc, amount)?,
        })?;
    }
    let coins = read_coins(alloc, &raws)?;
    let text = write_info(alloc, "s", &coins)?;
    let wanted =
        r#"{"funds":[{"amount":"2","denom":"atok"},{"amount":"340282366920938463463374607431768211455","denom":"utok"}],"sender":"s"}"#;
    assert_eq!(rt; text.as_slice(), wanted.as_bytes());
    Ok(())
}

#[test]
fn replies_are_written(rt: HostRuntime) -> Result<(), Fail> {
    let alloc = rt.alloc();
    let mut events = Vec::new(alloc);
    events.push(one_event(alloc)?)?;
    let done = Reply {
        id: 9,
        result: ReplyResult::Ok {
            events,
            out: Some(Vec::from_array(alloc, [1u8, 2])?),
        },
    };
    let text = write_reply(alloc, &done)?;
    let wanted =
        r#"{"id":9,"result":{"ok":{"data":"AQI=","events":[{"attributes":[{"key":"k","value":"v\""}],"type":"ab"}]}}}"#;
    assert_eq!(rt; text.as_slice(), wanted.as_bytes());
    let empty = Reply {
        id: 0,
        result: ReplyResult::Ok {
            events: Vec::new(alloc),
            out: None,
        },
    };
    let text = write_reply(alloc, &empty)?;
    let wanted = r#"{"id":0,"result":{"ok":{"data":null,"events":[]}}}"#;
    assert_eq!(rt; text.as_slice(), wanted.as_bytes());
    let failed = Reply {
        id: u64::MAX,
        result: ReplyResult::Error(String::from_str(alloc, "codespace: sdk, code: 5")?),
    };
    let text = write_reply(alloc, &failed)?;
    let wanted = r#"{"id":18446744073709551615,"result":{"error":"codespace: sdk, code: 5"}}"#;
    assert_eq!(rt; text.as_slice(), wanted.as_bytes());
    Ok(())
}

#[test]
fn answers_to_queries_are_written(rt: HostRuntime) -> Result<(), Fail> {
    let alloc = rt.alloc();
    let invalid = SystemError::InvalidRequest {
        error: String::from_str(alloc, "json")?,
        request: Vec::from_array(alloc, [123u8])?,
    };
    let unsupported = SystemError::UnsupportedRequest {
        kind: String::from_str(alloc, "bank.mint")?,
    };
    let no_contract = SystemError::NoSuchContract {
        addr: String::from_str(alloc, "c")?,
    };
    for (answer, wanted) in [
        (
            Answer::Ok(Vec::from_array(alloc, [1u8, 2])?),
            r#"{"ok":{"ok":"AQI="}}"#,
        ),
        (
            Answer::ContractError(String::from_str(alloc, "no")?),
            r#"{"ok":{"error":"no"}}"#,
        ),
        (
            Answer::System(invalid),
            r#"{"error":{"invalid_request":{"error":"json","request":"ew=="}}}"#,
        ),
        (
            Answer::System(unsupported),
            r#"{"error":{"unsupported_request":{"kind":"bank.mint"}}}"#,
        ),
        (
            Answer::System(no_contract),
            r#"{"error":{"no_such_contract":{"addr":"c"}}}"#,
        ),
        (
            Answer::System(SystemError::NoSuchCode { code_id: u64::MAX }),
            r#"{"error":{"no_such_code":{"code_id":18446744073709551615}}}"#,
        ),
    ] {
        let text = write_answer(alloc, &answer)?;
        assert_eq!(rt; text.as_slice(), wanted.as_bytes());
    }
    Ok(())
}

#[test]
fn results_are_written(rt: HostRuntime) -> Result<(), Fail> {
    let alloc = rt.alloc();
    let mut outs = Vec::new(alloc);
    outs.push(None)?;
    outs.push(Some(Vec::from_array(alloc, [1u8])?))?;
    let mut events = Vec::new(alloc);
    events.push(one_event(alloc)?)?;
    let failure = Failure {
        kind: FailKind::OutOfGas,
        codespace: String::from_str(alloc, "sdk")?,
        code: 11,
        detail: String::from_str(alloc, "OutOfGas")?,
    };
    let mut results = Vec::new(alloc);
    results.push(TxResult {
        failure: None,
        outs,
        events,
        gas: 7,
    })?;
    results.push(TxResult {
        failure: Some(failure),
        outs: Vec::new(alloc),
        events: Vec::new(alloc),
        gas: 9,
    })?;
    let text = write_json(alloc, &list_value(alloc, &results)?)?;
    let wanted =
        r#"[{"code":0,"codespace":"","data":[null,"AQ=="],"detail":"","events":[{"attributes":[{"key":"k","value":"v\""}],"type":"ab"}],"gas":7},{"code":11,"codespace":"sdk","data":[],"detail":"OutOfGas","events":[],"gas":9}]"#;
    assert_eq!(rt; text.as_slice(), wanted.as_bytes());
    Ok(())
}

#[test]
fn data_of_replies_is_protobuf(rt: HostRuntime) -> Result<(), Fail> {
    let alloc = rt.alloc();
    let none = reply_bytes(alloc, None, &None)?;
    assert!(rt; none.is_empty());
    let empty = reply_bytes(alloc, Some(""), &Some(Vec::new(alloc)))?;
    assert!(rt; empty.is_empty());
    let alone = reply_bytes(alloc, Some("abc"), &None)?;
    assert_eq!(rt; alone.as_slice(), [10, 3, 97, 98, 99].as_slice());
    let out = Some(vec![in alloc; 7u8; 200]?);
    let long = reply_bytes(alloc, None, &out)?;
    assert_eq!(rt; long.len(), 203);
    assert!(rt; long.starts_with(&[10, 200, 1, 7]));
    let both = reply_bytes(alloc, Some("a"), &out)?;
    assert!(rt; both.starts_with(&[10, 1, 97, 18, 200, 1, 7]));
    Ok(())
}
