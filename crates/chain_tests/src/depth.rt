ghost use Rattle.std.specs.Prelude.{◌≤◌};
ghost use Rattle.kv_layers.specs.Layers.{HasCurrent};
ghost use Rattle.query_router.specs.Lawful.{HasLawful};

use crate::acts::{FIRST, told};
use crate::chain::chain;
use crate::filled::filled;
use chain_msgs::CosmosMsg;
use coin_amounts::RawCoin;
use gas_meter::{Meter, Schedule};
use gatekeeper::Decoding;
use kv_layers::{Base, Layers, Plain};
use std::alloc::Global;
use std::test::Fail;
use submsg_dispatch::{HandleStop, Outcome, handle};

/// The detail of a failure.
fn detail_of(alloc: Global, done: Result<Outcome, HandleStop>) -> String {
    match done {
        Ok(_outcome) => String::new(alloc),
        Err(stop) => match stop {
            HandleStop::Failed(failure) => failure.detail,
            _other => String::new(alloc),
        },
    }
}

/// What it comes to that a message is handled at this depth, and its gas.
fn handled(alloc: Global, layers: &mut Layers<Plain>, msg: &CosmosMsg, depth: u32) -> (String, u64)
    requires depth { depth ≤ 32 }
    requires lawful { HasLawful (HasCurrent ⟦<Plain as Base>⟧.stands_for layers.old) }
{
    let mut meter = Meter::new(1_000_000);
    let costs = Schedule::standard();
    let done = handle(
        alloc,
        layers,
        &mut Decoding::new(),
        &[1],
        msg,
        0,
        &mut meter,
        &costs,
        depth,
    );
    (detail_of(alloc, done), meter.used())
}

/// What burning a coin that nobody has comes to at this depth, and its gas.
fn burned(alloc: Global, depth: u32) -> Result<(String, u64), Fail>
    requires { depth ≤ 32 }
{
    let mut layers = chain(alloc)?;
    let mut amount = Vec::new(alloc);
    amount.push(RawCoin {
        denom: String::from_str(alloc, "atok")?,
        amount: String::from_str(alloc, "1")?,
    })?;
    let msg = CosmosMsg::BankBurn { amount };
    Ok(handled(alloc, &mut layers, &msg, depth))
}

#[test]
fn messages_nest_at_most_31_deep(rt: HostRuntime) -> Result<(), Fail> {
    let (detail, gas) = burned(rt.alloc(), 31)?;
    assert_eq!(rt; (detail.as_str(), gas), ("NotEnough atok 0 1", 1100));
    let (detail, gas) = burned(rt.alloc(), 32)?;
    assert_eq!(rt; (detail.as_str(), gas), ("TooDeep", 1000));
    Ok(())
}

/// What it comes to at this depth that a contract is executed which answers so, and its gas.
fn executed(alloc: Global, depth: u32, answer: &str) -> Result<(String, u64), Fail>
    requires { depth ≤ 32 }
{
    let mut layers = chain(alloc)?;
    let (first, _) = FIRST;
    told(alloc, &mut layers, first)?;
    let msg = CosmosMsg::Execute {
        contract: filled(alloc, "%1%")?,
        msg: filled(alloc, answer)?.into_bytes(),
        funds: Vec::new(alloc),
    };
    Ok(handled(alloc, &mut layers, &msg, depth))
}

#[test]
fn a_reply_of_depth_32_is_not_called(rt: HostRuntime) -> Result<(), Fail> {
    let alloc = rt.alloc();
    // the depth, what the contract answers, and what comes of it with its gas
    let rows: &[(u32, &str, &str, u64)] = &[
        (31, r#"{"ok":{}}"#, "", 61064),
        (
            31,
            r#"{"ok":{"messages":[{"gas_limit":null,"id":1,"msg":{"wasm":{"execute":{"contract_addr":"%1%","funds":[],"msg":"<{"ok":{}}>"}}},"reply_on":"never"}]}}"#,
            "TooDeep",
            62064,
        ),
        (
            31,
            r#"{"ok":{"messages":[{"gas_limit":null,"id":1,"msg":{"wasm":{"execute":{"contract_addr":"%1%","funds":[],"msg":"<{"ok":{}}>"}}},"reply_on":"error"}]}}"#,
            "TooDeep",
            62064,
        ),
        (
            30,
            r#"{"ok":{"messages":[{"gas_limit":null,"id":1,"msg":{"wasm":{"execute":{"contract_addr":"%1%","funds":[],"msg":"<{"ok":{}}>"}}},"reply_on":"always"}]}}"#,
            "",
            182171,
        ),
        (
            30,
            r#"{"ok":{"messages":[{"gas_limit":null,"id":1,"msg":{"wasm":{"execute":{"contract_addr":"%1%","funds":[],"msg":"<{"ok":{"messages":[{"gas_limit":null,"id":1,"msg":{"wasm":{"execute":{"contract_addr":"%1%","funds":[],"msg":"<{"ok":{}}>"}}},"reply_on":"never"}]}}>"}}},"reply_on":"error"}]}}"#,
            "",
            183171,
        ),
        (
            30,
            r#"{"ok":{"messages":[{"gas_limit":null,"id":1,"msg":{"wasm":{"execute":{"contract_addr":"%1%","funds":[],"msg":"<{"ok":{"messages":[{"gas_limit":null,"id":1,"msg":{"wasm":{"execute":{"contract_addr":"%1%","funds":[],"msg":"<{"ok":{}}>"}}},"reply_on":"always"}]}}>"}}},"reply_on":"never"}]}}"#,
            "TooDeep",
            123128,
        ),
    ];
    for (depth, answer, want, used) in rows {
        assert!(rt; *depth <= 32);
        let (detail, gas) = executed(alloc, *depth, *answer)?;
        assert_eq!(rt; (detail.as_str(), gas), (*want, *used), "{answer}");
    }
    Ok(())
}
