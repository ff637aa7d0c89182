use crate::bodies::{
    ALLOCATE, AT_TEXT, Body, CALL_ABORT, CALL_DB_WRITE, CALL_DEBUG, CALL_QUERY_CHAIN, DEALLOCATE,
    DROP, EXECUTE, GET_0, GET_1, GET_2, QUERY, UNREACHABLE, contract,
};
use crate::calls::expect_run;
use contract_call::Entry;
use std::alloc::Global;
use std::process::Abort;
use std::test::Fail;
use wasm_types::{Instr, Value};

/// An entry point, a function and its body, the gas, what comes of the call, and the gas that is used.
type Case = (Entry, usize, Body, u64, &'static str, u64);

fn expect_case(rt: &impl Abort, alloc: Global, case: Case, answer: &[u8]) -> Result<(), Fail> {
    let (entry, place, body, gas, want, used) = case;
    let module = contract(alloc, place, body)?;
    let _chain = expect_run(rt, alloc, module, entry, false, answer, gas, want, used)?;
    Ok(())
}

/// What `execute` gives, and what comes of it.
const RESULTS: [(Body, &str); 10] = [
    (&[AT_TEXT], "{\"ok\":\"aGk=\"}"),
    (&[Instr::Const(Value::I32(76))], "1048576 bytes"),
    (&[Instr::Const(Value::I32(88))], "TooLong 1048577 1048576"),
    (&[Instr::Const(Value::I32(1_114_101))], "RegionBad Pointer"),
    (&[Instr::Const(Value::I32(100))], "RegionBad Offset"),
    (&[Instr::Const(Value::I32(112))], "RegionBad Length"),
    (&[Instr::Const(Value::I32(124))], "RegionBad Range"),
    (&[Instr::Const(Value::I32(136))], "RegionBad End"),
    (&[Instr::Const(Value::I32(148))], ""),
    (&[Instr::Const(Value::I32(160))], "4 bytes"),
];

#[test]
fn a_result_is_a_region_of_at_most_1048576_bytes(rt: HostRuntime) -> Result<(), Fail> {
    let alloc = rt.alloc();
    for (body, want) in RESULTS {
        let case = (Entry::Execute, EXECUTE, body, 60_064, want, 60_064);
        expect_case(&rt, alloc, case, &[])?;
    }
    Ok(())
}

/// Calls that end in functions of all kinds, and two that do not.
const FAULTS: [Case; 9] = [
    (
        Entry::Execute,
        EXECUTE,
        &[UNREACHABLE],
        99_999,
        "Trap Unreachable",
        60_064,
    ),
    (
        Entry::Execute,
        EXECUTE,
        &[GET_2, CALL_ABORT],
        99_999,
        "Aborted message",
        60_074,
    ),
    (
        Entry::Execute,
        ALLOCATE,
        &[GET_0, CALL_DEBUG],
        99_999,
        "ImportInAllocate",
        60_011,
    ),
    (
        Entry::Execute,
        DEALLOCATE,
        &[GET_0, CALL_DEBUG],
        99_999,
        "ImportInAllocate",
        60_075,
    ),
    (
        Entry::Execute,
        DEALLOCATE,
        &[GET_0, CALL_DEBUG],
        60_074,
        "out of gas",
        60_074,
    ),
    (
        Entry::Execute,
        ALLOCATE,
        &[Instr::Const(Value::I32(100))],
        99_999,
        "RegionBad Offset",
        60_001,
    ),
    (
        Entry::Query,
        QUERY,
        &[GET_0, GET_1, CALL_DB_WRITE, GET_1],
        99_999,
        "WriteInQuery",
        60_054,
    ),
    (
        Entry::Sudo,
        QUERY,
        &[GET_0, GET_1, CALL_DB_WRITE, GET_1],
        99_999,
        "message",
        60_043,
    ),
    (
        Entry::Execute,
        EXECUTE,
        &[GET_0, GET_1, CALL_DB_WRITE, GET_2],
        99_999,
        "message",
        62_286,
    ),
];

#[test]
fn a_fault_ends_a_call_where_it_comes(rt: HostRuntime) -> Result<(), Fail> {
    let alloc = rt.alloc();
    for case in FAULTS {
        expect_case(&rt, alloc, case, &[])?;
    }
    Ok(())
}

/// Asks a query and gives the answer.
const ASK: Body = &[GET_1, CALL_QUERY_CHAIN];

/// The same in `execute`.
const EXECUTE_ASK: Body = &[GET_2, CALL_QUERY_CHAIN];

/// Asks a query and gives a text.
const ASK_AND_TELL: Body = &[GET_1, CALL_QUERY_CHAIN, DROP, AT_TEXT];

/// Asks the answer to a query again.
const ASK_TWICE: Body = &[GET_1, CALL_QUERY_CHAIN, CALL_QUERY_CHAIN];

const TOLD: &str = "asks message; {\"ok\":\"aGk=\"}";

const ASKED: [Case; 11] = [
    (
        Entry::Query,
        QUERY,
        ASK,
        60_074,
        "asks message; answer",
        60_074,
    ),
    (
        Entry::Execute,
        EXECUTE,
        EXECUTE_ASK,
        99_999,
        "asks message; answer",
        60_095,
    ),
    (Entry::Query, QUERY, ASK_AND_TELL, 60_076, TOLD, 60_076),
    (
        Entry::Query,
        QUERY,
        ASK_AND_TELL,
        60_075,
        "asks message; out of gas",
        60_075,
    ),
    (
        Entry::Query,
        QUERY,
        ASK_AND_TELL,
        60_073,
        "asks message; out of gas",
        60_073,
    ),
    (
        Entry::Query,
        QUERY,
        ASK_AND_TELL,
        60_053,
        "asks message; out of gas",
        60_053,
    ),
    (
        Entry::Query,
        QUERY,
        ASK_AND_TELL,
        60_052,
        "out of gas",
        60_052,
    ),
    (
        Entry::Query,
        QUERY,
        ASK_TWICE,
        99_999,
        "asks message; asks answer; answer",
        60_105,
    ),
    (
        Entry::Query,
        QUERY,
        ASK_TWICE,
        60_084,
        "asks message; asks answer; out of gas",
        60_084,
    ),
    (
        Entry::Query,
        QUERY,
        ASK_TWICE,
        60_083,
        "asks message; out of gas",
        60_083,
    ),
    (
        Entry::Query,
        ALLOCATE,
        &[AT_TEXT],
        99_999,
        "message",
        60_003,
    ),
];

#[test]
fn a_query_is_answered_and_the_call_goes_on(rt: HostRuntime) -> Result<(), Fail> {
    let alloc = rt.alloc();
    for case in ASKED {
        expect_case(&rt, alloc, case, b"answer")?;
    }
    Ok(())
}

#[test]
fn an_answer_that_does_not_fit_ends_the_call(rt: HostRuntime) -> Result<(), Fail> {
    let alloc = rt.alloc();
    let answer = vec![in alloc; 0; 1_200_000]?;
    let want = "asks message; RegionBad End";
    let case = (Entry::Query, QUERY, ASK, 99_999, want, 60_074);
    expect_case(&rt, alloc, case, &answer)
}
