ghost use Rattle.std.specs.Prelude.{OnOk};
ghost use Rattle.kv_layers.specs.Layers.{HasCurrent};
ghost use Rattle.query_router.specs.Lawful.{HasLawful};

use crate::chain::chain;
use crate::filled::filled;
use chain_msgs::{Answer, Shown, Tx, write_answer};
use gas_meter::{Meter, Schedule};
use gatekeeper::Decoding;
use json_shapes::{read_json, write_json};
use kv_layers::{Base, Layers, Plain};
use query_router::{QueryStop, query};
use serde_json::Value;
use std::alloc::{AllocError, Global};
use std::process::Abort;
use std::test::Fail;
use submsg_dispatch::run_tx;

/// What is done with a chain, or asked.
#[derive(Clone, Copy, Drop)]
pub enum Act {
    /// A transaction of this sender, with this gas and a list of messages.
    Tx(&'static str, u64, &'static str),
    /// A query with this gas.
    Query(u64, &'static str),
}

/// The sample `echo` is stored, and gets a contract.
pub const FIRST: (Act, &str) = (
    Act::Tx(
        "%A%",
        1_000_000,
        r#"[{"store_code":{"code":"%ECHO%"}},{"wasm":{"instantiate":{"admin":null,"code_id":1,"funds":[],"label":"e","msg":"<{"ok":{}}>"}}}]"#,
    ),
    r#"{"code":0,"codespace":"","data":[null,null],"detail":"","events":[{"attributes":[{"key":"code_checksum","value":"6f0d71d4074a8824ee18920cefede8c222f8601821870ec3b97b85806b0d9d74"},{"key":"code_id","value":"1"}],"type":"store_code"},{"attributes":[{"key":"_contract_address","value":"%1%"},{"key":"code_id","value":"1"}],"type":"instantiate"}],"gas":72940}"#,
);

/// It gets another one.
pub const SECOND: (Act, &str) = (
    Act::Tx(
        "%A%",
        1_000_000,
        r#"[{"wasm":{"instantiate":{"admin":null,"code_id":1,"funds":[],"label":"e","msg":"<{"ok":{}}>"}}}]"#,
    ),
    r#"{"code":0,"codespace":"","data":[null],"detail":"","events":[{"attributes":[{"key":"_contract_address","value":"%1.2%"},{"key":"code_id","value":"1"}],"type":"instantiate"}],"gas":61064}"#,
);

fn messages(alloc: Global, text: &str) -> Result<Vec<Value>, Fail> {
    match read_json(alloc, filled(alloc, text)?.as_bytes())? {
        Value::Array(msgs) => Ok(msgs),
        _ => Ok(Vec::new(alloc)),
    }
}

/// A transaction of which these are the sender, the gas and the messages.
pub fn read_tx(alloc: Global, sender: &str, gas: u64, msgs: &str) -> Result<Tx, Fail> {
    Ok(Tx {
        sender: filled(alloc, sender)?,
        gas,
        msgs: messages(alloc, msgs)?,
    })
}

/// Does a transaction, and tells its result.
fn told_tx(alloc: Global, layers: &mut Layers<Plain>, tx: &Tx) -> Result<Vec<u8>, AllocError>
    requires lawful { HasLawful (HasCurrent ⟦<Plain as Base>⟧.stands_for layers.old) }
    ensures { OnOk result (HasLawful (HasCurrent ⟦<Plain as Base>⟧.stands_for layers.new)) }
{
    let costs = Schedule::standard();
    let done = run_tx(alloc, layers, &mut Decoding::new(), tx, 0, &costs)?;
    let value = done.value(alloc)?;
    write_json(alloc, &value)
}

/// What stands for an answer.
pub fn text_of(alloc: Global, answer: Result<Answer, QueryStop>) -> Result<Vec<u8>, AllocError> {
    match answer {
        Ok(Answer::Ok(bytes)) => Ok(bytes),
        Ok(answer) => write_answer(alloc, &answer),
        Err(QueryStop::OutOfGas) => b"out of gas".to_vec(alloc),
        Err(QueryStop::NoMemory) => Err(AllocError),
    }
}

/// Asks, and tells the gas that was used and the answer.
fn told_query(
    alloc: Global,
    layers: &mut Layers<Plain>,
    gas: u64,
    request: &str,
) -> Result<Vec<u8>, Fail>
    requires lawful { HasLawful (HasCurrent ⟦<Plain as Base>⟧.stands_for layers.old) }
    ensures { OnOk result (HasLawful (HasCurrent ⟦<Plain as Base>⟧.stands_for layers.new)) }
{
    let request = filled(alloc, request)?;
    let mut meter = Meter::new(gas);
    let costs = Schedule::standard();
    let answer = query(
        alloc,
        layers,
        &mut Decoding::new(),
        request.as_bytes(),
        &mut meter,
        &costs,
        0,
    );
    let mut told = format!(in alloc; "{} ", meter.used())?.into_bytes();
    told.extend_from_slice(&text_of(alloc, answer)?)?;
    Ok(told)
}

/// Does this, and tells what came of it.
pub fn told(alloc: Global, layers: &mut Layers<Plain>, act: Act) -> Result<Vec<u8>, Fail>
    requires lawful { HasLawful (HasCurrent ⟦<Plain as Base>⟧.stands_for layers.old) }
    ensures { OnOk result (HasLawful (HasCurrent ⟦<Plain as Base>⟧.stands_for layers.new)) }
{
    match act {
        Act::Tx(sender, gas, msgs) => {
            let tx = read_tx(alloc, sender, gas, msgs)?;
            let text = told_tx(alloc, layers, &tx)?;
            Ok(text)
        }
        Act::Query(gas, request) => told_query(alloc, layers, gas, request),
    }
}

/// Does these one after another on a chain, and compares what comes of each.
pub fn expect_on(
    rt: &impl Abort,
    alloc: Global,
    layers: Layers<Plain>,
    acts: &[(Act, &str)],
) -> Result<(), Fail>
    requires { HasLawful (HasCurrent ⟦<Plain as Base>⟧.stands_for layers) }
{
    let mut layers = layers;
    for (act, want) in acts {
        let want = filled(alloc, want)?;
        assert_eq!(rt;
            told(alloc, &mut layers, *act)?.as_slice(),
            want.as_bytes(),
            "after {want}"
        );
    }
    Ok(())
}

/// Does these on a new chain.
pub fn expect_all(rt: &impl Abort, alloc: Global, acts: &[(Act, &str)]) -> Result<(), Fail> {
    let layers = chain(alloc)?;
    expect_on(rt, alloc, layers, acts)
}
