use crate::bodies::{
    ALLOCATE, AT_TEXT, Body, CALL_ABORT, CALL_DEBUG, CALL_QUERY_CHAIN, DEALLOCATE, EXECUTE, GET_0,
    GET_1, GET_2, QUERY, UNREACHABLE, contract, put_body,
};
use crate::calls::expect_run;
use contract_call::Entry;
use std::alloc::Global;
use std::process::Abort;
use std::test::Fail;
use wasm_types::{Instr, Value};

/// Two functions and their bodies, the gas, what comes of the call, and the gas that is used.
type Case = (usize, Body, usize, Body, u64, &'static str, u64);

fn expect_case(
    rt: &impl Abort,
    alloc: Global,
    entry: Entry,
    case: Case,
    answer: &[u8],
) -> Result<(), Fail> {
    let (first, first_body, second, second_body, gas, want, used) = case;
    let mut module = contract(alloc, first, first_body)?;
    put_body(alloc, &mut module, second, second_body)?;
    let _chain = expect_run(rt, alloc, module, entry, false, answer, gas, want, used)?;
    Ok(())
}

/// A Region that begins nowhere.
const AT_NOWHERE: Instr = Instr::Const(Value::I32(100));

/// A Region of one byte more than a result has at most.
const AT_TOO_LONG: Instr = Instr::Const(Value::I32(88));

/// Two functions that both go wrong.
const FAULTS: [Case; 11] = [
    (
        EXECUTE,
        &[UNREACHABLE],
        DEALLOCATE,
        &[GET_0, CALL_DEBUG],
        99_999,
        "Trap Unreachable",
        60_064,
    ),
    (
        EXECUTE,
        &[GET_2, CALL_ABORT],
        DEALLOCATE,
        &[UNREACHABLE],
        99_999,
        "Aborted message",
        60_074,
    ),
    (
        EXECUTE,
        &[AT_NOWHERE],
        DEALLOCATE,
        &[UNREACHABLE],
        99_999,
        "RegionBad Offset",
        60_064,
    ),
    (
        EXECUTE,
        &[AT_TOO_LONG],
        DEALLOCATE,
        &[UNREACHABLE],
        60_064,
        "TooLong 1048577 1048576",
        60_064,
    ),
    (
        EXECUTE,
        &[AT_TOO_LONG],
        DEALLOCATE,
        &[UNREACHABLE],
        60_063,
        "out of gas",
        60_063,
    ),
    (
        EXECUTE,
        &[GET_2],
        DEALLOCATE,
        &[UNREACHABLE],
        60_065,
        "Trap Unreachable",
        60_065,
    ),
    (
        EXECUTE,
        &[GET_2],
        DEALLOCATE,
        &[UNREACHABLE],
        60_064,
        "out of gas",
        60_064,
    ),
    (
        EXECUTE,
        &[GET_2],
        DEALLOCATE,
        &[GET_0, CALL_ABORT],
        99_999,
        "Aborted message",
        60_075,
    ),
    (
        ALLOCATE,
        &[AT_NOWHERE],
        EXECUTE,
        &[UNREACHABLE],
        60_001,
        "RegionBad Offset",
        60_001,
    ),
    (
        ALLOCATE,
        &[AT_NOWHERE],
        EXECUTE,
        &[UNREACHABLE],
        60_000,
        "out of gas",
        60_000,
    ),
    (
        ALLOCATE,
        &[AT_TEXT, CALL_ABORT, UNREACHABLE],
        EXECUTE,
        &[UNREACHABLE],
        99_999,
        "Aborted {\"ok\":\"aGk=\"}",
        60_011,
    ),
];

#[test]
fn of_two_faults_of_a_call_the_first_is_told(rt: HostRuntime) -> Result<(), Fail> {
    let alloc = rt.alloc();
    for case in FAULTS {
        expect_case(&rt, alloc, Entry::Execute, case, &[])?;
    }
    Ok(())
}

/// Each Region that is given has room for 13 bytes, and the answer to a query is the result.
const ASKING: (usize, Body, usize, Body) = (
    ALLOCATE,
    &[AT_TEXT],
    QUERY,
    &[GET_1, CALL_QUERY_CHAIN],
);

#[test]
fn an_answer_to_a_query_is_given_where_it_fits(rt: HostRuntime) -> Result<(), Fail> {
    let alloc = rt.alloc();
    for (answer, gas, want, used) in [
        (
            "an answer, ok",
            99_999,
            "asks message; an answer, ok",
            60_014,
        ),
        (
            "an answer, ok!",
            99_999,
            "asks message; TooLong 14 13",
            60_014,
        ),
        ("an answer, ok!", 60_013, "asks message; out of gas", 60_013),
        ("", 99_999, "asks message; ", 60_014),
    ] {
        let (first, first_body, second, second_body) = ASKING;
        let case = (first, first_body, second, second_body, gas, want, used);
        expect_case(&rt, alloc, Entry::Query, case, answer.as_bytes())?;
    }
    Ok(())
}
