use chain_msgs::{
    Answer, Attribute, Block, Event, FailKind, Failure, Genesis, SystemError, TxResult,
};
use line_protocol::{
    BadKind, Line, LineStop, Lines, ParseStop, QueryReply, QueryResult, Question, bad_text,
    block_text, check_text, genesis_text, parse, query_text,
};
use outside_io::{Failed, MemSource, Source, SureSource};
use std::alloc::{AllocError, Global};
use std::process::Abort;
use std::test::Fail;

/// A source that gives one byte a call.
#[derive(Drop)]
struct OneByte<S>(S);

impl<S: Source> Source for OneByte<S> {
    ghost left = { λ s. S.left s.0 };

    ghost faults = { λ s. S.faults s.0 };

    fn take(&mut self, buf: &mut [u8]) -> Result<usize, Failed> {
        self.0.take(&mut buf[..1])
    }
}

/// Takes each of these lines, and then meets the stop, or else the end, twice.
fn expect_lines<S: Source>(
    rt: &impl Abort,
    alloc: Global,
    source: &mut S,
    wanted: &[&[u8]],
    stop: Option<LineStop>,
) -> Result<(), Fail> {
    let mut lines = Lines::new(alloc)?;
    for (place, text) in wanted.iter().enumerate() {
        let line = lines.next(alloc, source)?.ok_or("no line")?;
        assert_eq!(rt; line.number, place as u64 + 1);
        assert_eq!(rt; line.bytes.as_slice(), *text);
    }
    match lines.next(alloc, source) {
        Ok(line) => {
            assert!(rt; line.is_none() && stop.is_none());
            assert!(rt; lines.next(alloc, source)?.is_none());
        }
        Err(found) => assert_eq!(rt; Some(found), stop),
    }
    Ok(())
}

#[test]
fn lines_are_cut_at_line_feeds(rt: HostRuntime) -> Result<(), Fail> {
    let alloc = rt.alloc();
    let none: &[&[u8]] = &[];
    let cases: &[(&[u8], &[&[u8]])] = &[
        (b"", none),
        (b"ab", &[b"ab"]),
        (b"ab\n", &[b"ab"]),
        (b"\n\n", &[b"", b""]),
        (b"ab\r\n\nc", &[b"ab\r", b"", b"c"]),
    ];
    for (input, wanted) in cases {
        let mut whole = SureSource::new(input.to_vec(alloc)?);
        expect_lines(&rt, alloc, &mut whole, wanted, None)?;
        let mut cut = OneByte(SureSource::new(input.to_vec(alloc)?));
        expect_lines(&rt, alloc, &mut cut, wanted, None)?;
    }
    Ok(())
}

#[test]
fn a_failed_read_stops_the_lines_unless_it_comes_after_the_end(
    rt: HostRuntime,
) -> Result<(), Fail> {
    let alloc = rt.alloc();
    let fault = Some(LineStop::ReadFault);
    let none: &[&[u8]] = &[];
    let cases: &[(&[u8], u64, &[&[u8]], Option<LineStop>)] = &[
        (b"ab\nc", 0, none, fault),
        (b"ab\nc", 1, &[b"ab"], fault),
        (b"ab\nc\n", 1, &[b"ab", b"c"], fault),
        (b"", 1, none, None),
        (b"ab", 2, &[b"ab"], None),
        (b"ab\n", 2, &[b"ab"], None),
        (b"ab\nc", 2, &[b"ab", b"c"], None),
    ];
    for (input, failing, wanted, stop) in cases {
        let mut source = MemSource::new(input.to_vec(alloc)?, [*failing].to_vec(alloc)?);
        expect_lines(&rt, alloc, &mut source, wanted, *stop)?;
    }
    let input = b"ab\ncd".to_vec(alloc)?;
    let mut source = OneByte(MemSource::new(input, [4].to_vec(alloc)?));
    expect_lines(&rt, alloc, &mut source, &[b"ab"], fault)
}

/// What the first line of so many bytes and the rest gives.
fn first_len(alloc: Global, len: usize, rest: &[u8]) -> Result<usize, LineStop> {
    let mut input = vec![in alloc; b'a'; len]?;
    input.extend_from_slice(rest)?;
    let mut source = SureSource::new(input);
    match Lines::new(alloc)?.next(alloc, &mut source)? {
        Some(line) => Ok(line.bytes.len()),
        None => Ok(0),
    }
}

#[test]
fn lines_have_at_most_eight_mebibytes(rt: HostRuntime) {
    let long = Err(LineStop::Bad {
        number: 1,
        kind: BadKind::Long,
    });
    for (len, rest, want) in [
        (8_388_608, "", Ok(8_388_608)),
        (8_388_608, "\nb", Ok(8_388_608)),
        (8_388_609, "", long),
        (8_388_609, "\nb", long),
        (9_000_000, "\nb", long),
    ] {
        assert_eq!(rt; first_len(rt.alloc(), len, rest.as_bytes()), want);
    }
}

fn expect_bad(rt: &impl Abort, alloc: Global, text: &[u8], kind: BadKind) {
    let bad = Some(ParseStop::Bad(kind));
    assert_eq!(rt; parse(alloc, 1, text).err(), bad, "{text:?}");
}

#[test]
fn lines_of_blanks_are_empty(rt: HostRuntime) -> Result<(), Fail> {
    for text in ["", " \t\r"] {
        assert!(rt; matches!(parse(rt.alloc(), 1, text.as_bytes())?, Line::Empty));
    }
    Ok(())
}

#[test]
fn lines_that_are_no_json_are_bad(rt: HostRuntime) {
    let cases: &[&[u8]] = &[
        b"\x0b",
        b"\xff",
        b"{\"query\":{\"client\":1,\"request\":\"\xff\"}}",
        b"{\"query\":{\"client\":1,\"request\":1e999}}",
        b"{\"query\":{\"client\":1,\"request\":1}} {}",
    ];
    for text in cases {
        expect_bad(&rt, rt.alloc(), text, BadKind::Json);
    }
}

#[test]
fn lines_with_numbers_that_are_no_integers_are_bad(rt: HostRuntime) -> Result<(), Fail> {
    for number in [
        "1.0",
        "1e3",
        "18446744073709551616",
        "-9223372036854775809",
        "-0",
        "1,\"more\":[0.5]",
    ] {
        let text = format!(in rt.alloc(); "{{\"query\":{{\"client\":1,\"request\":{number}}}}}")?;
        expect_bad(&rt, rt.alloc(), text.as_bytes(), BadKind::Number);
    }
    Ok(())
}

#[test]
fn lines_of_another_shape_are_bad(rt: HostRuntime) {
    let cases: &[&[u8]] = &[
        b"null",
        b"[]",
        b"{}",
        b"{\"genesis\":null}",
        b"{\"block\":{}}",
        b"{\"block\":{\"time\":\"1\",\"txs\":[]},\"query\":{}}",
        b"{\"Block\":{\"time\":\"1\",\"txs\":[]}}",
        b"{\"block\":{\"time\":1,\"txs\":[]}}",
        b"{\"block\":{\"time\":\"18446744073709551616\",\"txs\":[]}}",
        b"{\"block\":{\"time\":\"1\",\"txs\":[{\"gas\":1,\"msgs\":{},\"sender\":\"a\"}]}}",
        b"{\"query\":{\"client\":1}}",
        b"{\"query\":{\"client\":4294967296,\"request\":1}}",
        b"{\"query\":{\"client\":1,\"height\":-1,\"request\":1}}",
    ];
    for text in cases {
        expect_bad(&rt, rt.alloc(), text, BadKind::Shape);
    }
}

/// So many letters, and then a text.
#[derive(Drop)]
struct Letters {
    left: usize,
    text: SureSource,
}

impl Source for Letters {
    ghost use Rattle.std.specs.Prelude.{None};

    ghost left = { λ _. None };

    ghost faults = { λ _. 0 };

    fn take(&mut self, buf: &mut [u8]) -> Result<usize, Failed> {
        if self.left == 0 {
            return self.text.take(buf);
        }
        let count = self.left.min(buf.len());
        buf[..count].fill(b'a');
        self.left -= count;
        Ok(count)
    }
}

/// Why the first line is bad.
fn first_kind<S: Source>(alloc: Global, source: &mut S) -> Result<BadKind, Fail> {
    let line = match Lines::new(alloc)?.next(alloc, source) {
        Ok(line) => line.ok_or("no line")?,
        Err(LineStop::Bad { kind, .. }) => return Ok(kind),
        Err(stop) => return Err(Fail::from(stop)),
    };
    match parse(alloc, line.number, &line.bytes) {
        Ok(_) => Err(Fail::from("no bad line")),
        Err(ParseStop::Bad(kind)) => Ok(kind),
        Err(stop) => Err(Fail::from(stop)),
    }
}

#[test]
fn of_two_kinds_of_a_bad_line_the_first_is_told(rt: HostRuntime) -> Result<(), Fail> {
    for (left, text, want) in [
        (1_073_741_824, "\n", BadKind::Total),
        (1_073_741_824, "", BadKind::Long),
        (8_388_609, "", BadKind::Long),
        (8_388_608, "", BadKind::Json),
        (0, "[1.5", BadKind::Json),
        (0, "[1.5]", BadKind::Number),
        (0, "[1,{\"a\":1.5,\"a\":2}]", BadKind::Shape),
    ] {
        let text = SureSource::new(text.as_bytes().to_vec(rt.alloc())?);
        let found = first_kind(rt.alloc(), &mut Letters { left, text })?;
        assert_eq!(rt; found, want);
    }
    Ok(())
}

/// The query line whose request is so many lists, each within the one before.
fn nested_query(alloc: Global, depth: u8) -> Result<String, AllocError> {
    let mut text = String::from_str(alloc, "{\"query\":{\"client\":1,\"request\":")?;
    for _ in 0..depth {
        text.push('[')?;
    }
    for _ in 0..depth {
        text.push(']')?;
    }
    text.push_str("}}")?;
    Ok(text)
}

/// What a query line asks.
fn question(alloc: Global, text: &[u8]) -> Result<Question, Fail> {
    match parse(alloc, 7, text)? {
        Line::Query(question) => Ok(question),
        _ => Err(Fail::from("no query")),
    }
}

#[test]
fn queries_are_read(rt: HostRuntime) -> Result<(), Fail> {
    let cases: &[(&str, u32, Option<u64>, &str)] = &[
        (
            "\"request\":{ \"b\" : [1, -2], \"a\":\"\\u0041\" }",
            1,
            None,
            "{\"a\":\"A\",\"b\":[1,-2]}",
        ),
        ("\"height\":null,\"request\":null", 1, None, "null"),
        (
            "\"height\":3,\"request\":18446744073709551615",
            1,
            Some(3),
            "18446744073709551615",
        ),
        (
            "\"client\":4294967295,\"request\":-9223372036854775808",
            4294967295,
            None,
            "-9223372036854775808",
        ),
        (
            "\"request\":1.5,\"request\":{\"a\":-0,\"a\":2},\"more\":[]",
            1,
            None,
            "{\"a\":2}",
        ),
    ];
    for (fields, client, height, request) in cases {
        let text = format!(in rt.alloc(); "{{\"query\":{{\"client\":1,{fields}}}}}\t\r")?;
        let found = question(rt.alloc(), text.as_bytes())?;
        assert_eq!(rt;
            (found.line, found.client, found.height),
            (7, *client, *height)
        );
        assert_eq!(rt; found.request.as_slice(), request.as_bytes());
    }
    let deepest = nested_query(rt.alloc(), 125)?;
    assert_eq!(rt;
        question(rt.alloc(), deepest.as_bytes())?.request.len(),
        250
    );
    let deeper = nested_query(rt.alloc(), 126)?;
    expect_bad(&rt, rt.alloc(), deeper.as_bytes(), BadKind::Json);
    Ok(())
}

/// A genesis line without the field of that place, and with more fields behind the others.
fn genesis_line(alloc: Global, left_out: usize, more: &str) -> Result<String, AllocError> {
    let mut text = String::from_str(alloc, "{\"genesis\":{\"more\":[]")?;
    let fields = [
        "\"authority\":\"a\"",
        "\"balances\":[{\"address\":\"a\",\"coins\":[{\"amount\":\"10\",\"denom\":\"utok\"}]}]",
        "\"capabilities\":[\"x\",\"y\"]",
        "\"chain_id\":\"t-1\"",
        "\"prefix\":\"abcdef\"",
        "\"query_gas\":1000000",
        "\"time\":\"0\"",
    ];
    for (place, field) in fields.iter().enumerate() {
        if place != left_out {
            text.push(',')?;
            text.push_str(field)?;
        }
    }
    text.push_str(more)?;
    text.push_str("}}")?;
    Ok(text)
}

fn genesis(alloc: Global, more: &str) -> Result<Genesis, Fail> {
    let text = genesis_line(alloc, 7, more)?;
    match parse(alloc, 1, text.as_bytes())? {
        Line::Genesis(genesis) => Ok(genesis),
        _ => Err(Fail::from("no genesis")),
    }
}

#[test]
fn a_genesis_is_read(rt: HostRuntime) -> Result<(), Fail> {
    let alloc = rt.alloc();
    let found = genesis(alloc, "")?;
    assert_eq!(rt; found.chain_id.as_str(), "t-1");
    assert_eq!(rt; (found.time, found.query_gas), (0, 1_000_000));
    assert_eq!(rt; found.prefix.as_str(), "abcdef");
    assert_eq!(rt; found.authority.ok_or("no authority")?.as_str(), "a");
    assert_eq!(rt; (found.capabilities.len(), found.balances.len()), (2, 1));
    let text = genesis_text(alloc, &genesis(alloc, "")?)?;
    assert_eq!(rt;
        text.as_slice(),
        b"{\"genesis\":{\"chain_id\":\"t-1\",\"height\":0}}\n".as_slice()
    );
    for more in [
        ",\"authority\":null,\"profile\":1",
        ",\"time\":\"18446744073709551615\",\"prefix\":\"abcdefghijklmnopqrst\"",
        ",\"chain_id\":\"1234567890123456789012345678901234567890123456789012345678901234\"",
        ",\"balances\":[],\"capabilities\":[],\"prefix\":\"z\"",
    ] {
        let _ = genesis(alloc, more)?;
    }
    Ok(())
}

#[test]
fn a_genesis_with_a_bad_field_is_bad(rt: HostRuntime) -> Result<(), Fail> {
    for left_out in 0..7 {
        expect_bad(
            &rt,
            rt.alloc(),
            genesis_line(rt.alloc(), left_out, "")?.as_bytes(),
            BadKind::Shape,
        );
    }
    for more in [
        ",\"authority\":7",
        ",\"balances\":[{\"address\":\"a\"}]",
        ",\"balances\":[{\"address\":\"a\",\"coins\":[{\"amount\":10,\"denom\":\"utok\"}]}]",
        ",\"capabilities\":[1]",
        ",\"chain_id\":\"\"",
        ",\"chain_id\":\"12345678901234567890123456789012345678901234567890123456789012345\"",
        ",\"prefix\":\"\"",
        ",\"prefix\":\"abcdefghijklmnopqrstu\"",
        ",\"prefix\":\"aB\"",
        ",\"profile\":2",
        ",\"profile\":null",
        ",\"query_gas\":\"1\"",
        ",\"time\":\"-1\"",
        ",\"time\":0",
    ] {
        expect_bad(
            &rt,
            rt.alloc(),
            genesis_line(rt.alloc(), 7, more)?.as_bytes(),
            BadKind::Shape,
        );
    }
    Ok(())
}

fn block(alloc: Global, text: &str) -> Result<Block, Fail> {
    match parse(alloc, 1, text.as_bytes())? {
        Line::Block(block) => Ok(block),
        _ => Err(Fail::from("no block")),
    }
}

#[test]
fn a_block_is_read(rt: HostRuntime) -> Result<(), Fail> {
    let text =
        "{\"block\":{\"time\":\"1\",\"txs\":[{\"gas\":5000,\"msgs\":[{ \"bank\" : {}},[],7],\"sender\":\"a\"}]}}";
    let found = block(rt.alloc(), text)?;
    assert_eq!(rt; (found.time, found.txs.len()), (1, 1));
    let tx = &found.txs[0];
    assert_eq!(rt; (tx.sender.as_str(), tx.gas, tx.msgs.len()), ("a", 5000, 3));
    assert_eq!(rt; tx.msgs[0].to_string(rt.alloc())?.as_str(), "{\"bank\":{}}");
    Ok(())
}

/// The result of a transaction that sends 3utok.
fn sent(alloc: Global) -> Result<TxResult, AllocError> {
    let mut attributes = Vec::new(alloc);
    for (key, value) in [
        ("recipient", "abcdef1qpzry9x8gf2tvdw0s3jn54khce6mua77xk54mu"),
        ("sender", "abcdef1qpzry9x8gf2tvdw0s3jn54khce6mua7lmqqqxw"),
        ("amount", "3utok"),
    ] {
        attributes.push(Attribute {
            key: String::from_str(alloc, key)?,
            value: String::from_str(alloc, value)?,
        })?;
    }
    let event = Event {
        kind: String::from_str(alloc, "transfer")?,
        attributes,
    };
    Ok(TxResult {
        failure: None,
        outs: vec![in alloc; None]?,
        events: vec![in alloc; event]?,
        gas: 1100,
    })
}

/// The result of a transaction that failed.
fn failed(alloc: Global) -> Result<TxResult, AllocError> {
    let failure = Failure {
        kind: FailKind::OutOfGas,
        codespace: String::from_str(alloc, "sdk")?,
        code: 5,
        detail: String::from_str(alloc, "NotEnough utok 10 11")?,
    };
    Ok(TxResult {
        failure: Some(failure),
        outs: Vec::new(alloc),
        events: Vec::new(alloc),
        gas: 1100,
    })
}

#[test]
fn blocks_are_chained_by_digests(rt: HostRuntime) -> Result<(), Fail> {
    let alloc = rt.alloc();
    let results = vec![in alloc; sent(alloc)?]?;
    let (text, digest) = block_text(alloc, 1, &results, &[0; 32])?;
    let first =
        "{\"block\":{\"body\":{\"height\":1,\"results\":[{\"code\":0,\"codespace\":\"\",\"data\":[null],\"detail\":\"\",\"events\":[{\"attributes\":[{\"key\":\"recipient\",\"value\":\"abcdef1qpzry9x8gf2tvdw0s3jn54khce6mua77xk54mu\"},{\"key\":\"sender\",\"value\":\"abcdef1qpzry9x8gf2tvdw0s3jn54khce6mua7lmqqqxw\"},{\"key\":\"amount\",\"value\":\"3utok\"}],\"type\":\"transfer\"}],\"gas\":1100}]},\"digest\":\"26c90ca225e9726b90811a2ec3833dcfe7437bd2763ca9c982c0f2203fc4033c\"}}\n";
    assert_eq!(rt; text.as_slice(), first.as_bytes());
    let answered = TxResult {
        failure: None,
        outs: vec![in alloc; Some(b"r".to_vec(alloc)?)]?,
        events: Vec::new(alloc),
        gas: 303278,
    };
    let results = vec![in alloc; failed(alloc)?, answered]?;
    let (text, _) = block_text(alloc, 2, &results, &digest)?;
    let second =
        "{\"block\":{\"body\":{\"height\":2,\"results\":[{\"code\":5,\"codespace\":\"sdk\",\"data\":[],\"detail\":\"NotEnough utok 10 11\",\"events\":[],\"gas\":1100},{\"code\":0,\"codespace\":\"\",\"data\":[\"cg==\"],\"detail\":\"\",\"events\":[],\"gas\":303278}]},\"digest\":\"9b081ffb9a5c51e0dae4a1360b453a1aea9219c05dd089bc7b6062b37338af99\"}}\n";
    assert_eq!(rt; text.as_slice(), second.as_bytes());
    Ok(())
}

fn expect_reply(
    rt: &impl Abort,
    alloc: Global,
    found: QueryResult,
    want: &str,
) -> Result<(), AllocError> {
    let reply = QueryReply {
        line: 9,
        client: 1,
        n: 3,
        height: 2,
        gas: 1000,
        result: found,
    };
    let text = query_text(alloc, &reply)?;
    let line = format!(in alloc;
        "{{\"query\":{{\"client\":1,\"gas\":1000,\"height\":2,\"n\":3,\"result\":{want}}}}}\n"
    )?;
    assert_eq!(rt; text.as_slice(), line.as_bytes());
    Ok(())
}

#[test]
fn answers_are_written(rt: HostRuntime) -> Result<(), Fail> {
    let alloc = rt.alloc();
    let bytes = b"{\"amount\":{\"amount\":\"7\",\"denom\":\"utok\"}}".to_vec(alloc)?;
    let want = "{\"ok\":{\"ok\":\"eyJhbW91bnQiOnsiYW1vdW50IjoiNyIsImRlbm9tIjoidXRvayJ9fQ==\"}}";
    expect_reply(&rt, alloc, QueryResult::Answer(Answer::Ok(bytes)), want)?;
    let text = String::from_str(alloc, "no \"x\"")?;
    let answer = Answer::ContractError(text);
    expect_reply(
        &rt,
        alloc,
        QueryResult::Answer(answer),
        "{\"ok\":{\"error\":\"no \\\"x\\\"\"}}",
    )?;
    expect_reply(&rt, alloc, QueryResult::OutOfGas, "\"out_of_gas\"")?;
    let later = QueryResult::NotYet { newest: 3 };
    expect_reply(&rt, alloc, later, "{\"not_yet\":{\"newest\":3}}")?;
    let earlier = QueryResult::Pruned {
        oldest: 2,
        newest: 3,
    };
    expect_reply(
        &rt,
        alloc,
        earlier,
        "{\"pruned\":{\"newest\":3,\"oldest\":2}}",
    )?;
    Ok(())
}

#[test]
fn errors_of_the_host_are_written(rt: HostRuntime) -> Result<(), Fail> {
    let alloc = rt.alloc();
    for (error, want) in [
        (
            SystemError::InvalidRequest {
                error: String::from_str(alloc, "json")?,
                request: b"r".to_vec(alloc)?,
            },
            "{\"error\":{\"invalid_request\":{\"error\":\"json\",\"request\":\"cg==\"}}}",
        ),
        (
            SystemError::UnsupportedRequest {
                kind: String::from_str(alloc, "staking")?,
            },
            "{\"error\":{\"unsupported_request\":{\"kind\":\"staking\"}}}",
        ),
        (
            SystemError::NoSuchContract {
                addr: String::from_str(alloc, "a")?,
            },
            "{\"error\":{\"no_such_contract\":{\"addr\":\"a\"}}}",
        ),
        (
            SystemError::NoSuchCode { code_id: 5 },
            "{\"error\":{\"no_such_code\":{\"code_id\":5}}}",
        ),
    ] {
        let answer = QueryResult::Answer(Answer::System(error));
        expect_reply(&rt, alloc, answer, want)?;
    }
    Ok(())
}

#[test]
fn answers_to_codes_and_to_bad_lines_are_written(rt: HostRuntime) -> Result<(), Fail> {
    let text = check_text(rt.alloc(), "MemoryInitial 513")?;
    assert_eq!(rt;
        text.as_slice(),
        b"{\"check\":\"MemoryInitial 513\"}\n".as_slice()
    );
    for (kind, name) in [
        (BadKind::Total, "total"),
        (BadKind::Long, "long"),
        (BadKind::Json, "json"),
        (BadKind::Number, "number"),
        (BadKind::Shape, "shape"),
        (BadKind::Order, "order"),
        (BadKind::Address, "address"),
        (BadKind::Coins, "coins"),
        (BadKind::Supply, "supply"),
        (BadKind::Missing, "missing"),
        (BadKind::Base64, "base64"),
    ] {
        let text = bad_text(rt.alloc(), &kind, 2)?;
        let want = format!(in rt.alloc(); "{{\"bad_line\":{{\"kind\":\"{name}\",\"line\":2}}}}\n")?;
        assert_eq!(rt; text.as_slice(), want.as_bytes());
    }
    Ok(())
}
