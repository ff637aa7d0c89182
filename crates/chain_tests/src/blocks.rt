ghost use Rattle.std.specs.Prelude.{IfOk};
ghost use Rattle.block_runner.specs.Delivering.{HasNextHeight};

use crate::acts::read_tx;
use crate::chain::opened;
use crate::filled::filled;
use block_runner::{BlockDone, run_block};
use chain_msgs::{Block, list_value};
use chain_records::{Key, Stored, stored_of};
use gas_meter::Schedule;
use gatekeeper::Decoding;
use json_shapes::write_json;
use kv_layers::{Base, Change, Plain};
use state_records::facts;
use std::alloc::Global;
use std::process::Abort;
use std::test::Fail;

/// Transactions: their senders, gas and messages.
type Txs = &'static [(&'static str, u64, &'static str)];

/// The records of the new chain, whose height isn't the last one.
fn begun(alloc: Global) -> Result<Plain, Fail>
    ensures { IfOk result (λ plain. HasNextHeight (⟦<Plain as Base>⟧.stands_for plain)) }
{
    let plain = opened(alloc)?;
    let chain = facts(alloc, &plain)?;
    if chain.height >= 1000 {
        return Err(Fail::new("a chain of many blocks"));
    }
    Ok(plain)
}

/// Delivers a block of these with the time 7.
fn delivered(rt: &impl Abort, alloc: Global, list: Txs) -> Result<BlockDone, Fail> {
    let mut txs = Vec::new(alloc);
    for (sender, gas, msgs) in list {
        txs.push(read_tx(alloc, sender, *gas, msgs)?)?;
    }
    assert!(rt; txs.len() < 1000);
    let block = Block { time: 7, txs };
    let plain = begun(alloc)?;
    let costs = Schedule::standard();
    let done = run_block(alloc, plain, &mut Decoding::new(), &block, &costs)?;
    Ok(done)
}

/// The height and the time of the facts with which changes begin.
fn moment_of(alloc: Global, changes: &[Change]) -> Result<(u64, u64), Fail> {
    match changes.first() {
        Some((_, Some(bytes))) => match stored_of(alloc, &Key::Facts, bytes)? {
            Stored::Facts(facts) => Ok((facts.height, facts.time)),
            _ => Ok((0, 0)),
        },
        _ => Ok((0, 0)),
    }
}

#[test]
fn a_block_has_the_next_height_and_a_result_for_each_transaction(
    rt: HostRuntime,
) -> Result<(), Fail> {
    let alloc = rt.alloc();
    let txs: Txs = &[
        (
            "%A%",
            5000,
            r#"[{"bank":{"send":{"amount":[{"amount":"3","denom":"utok"}],"to_address":"%B%"}}}]"#,
        ),
        (
            "%A%",
            5000,
            r#"[{"bank":{"burn":{"amount":[{"amount":"8","denom":"utok"}]}}}]"#,
        ),
    ];
    let done = delivered(&rt, alloc, txs)?;
    assert_eq!(rt; moment_of(alloc, &done.delta.changes)?, (1, 7));
    // the facts, and what the two addresses have
    assert_eq!(rt; done.delta.changes.len(), 3);
    assert!(rt; done.pins.is_empty());
    let results = list_value(alloc, &done.results)?;
    let want = filled(
        alloc,
        r#"[{"code":0,"codespace":"","data":[null],"detail":"","events":[{"attributes":[{"key":"recipient","value":"%B%"},{"key":"sender","value":"%A%"},{"key":"amount","value":"3utok"}],"type":"transfer"}],"gas":1100},{"code":5,"codespace":"sdk","data":[],"detail":"NotEnough utok 7 8","events":[],"gas":1100}]"#,
    )?;
    assert_eq!(rt; write_json(alloc, &results)?.as_slice(), want.as_bytes());
    Ok(())
}

#[test]
fn a_block_says_which_codes_are_pinned_after_it(rt: HostRuntime) -> Result<(), Fail> {
    let txs: Txs = &[
        (
            "%A%",
            60000,
            r#"[{"store_code":{"code":"AGFzbQEAAAABFARgAABgAX8Bf2ABfwBgA39/fwF/AwUEAAECAwUDAQABBz0EE2ludGVyZmFjZV92ZXJzaW9uXzgAAAhhbGxvY2F0ZQABCmRlYWxsb2NhdGUAAgtpbnN0YW50aWF0ZQADChEEAgALBAAgAAsCAAsEACAACw=="}},{"store_code":{"code":"AGFzbQEAAAABFARgAABgAX8Bf2ABfwBgA39/fwF/AwUEAAECAwUDAQABBz0EE2ludGVyZmFjZV92ZXJzaW9uXzgAAAhhbGxvY2F0ZQABCmRlYWxsb2NhdGUAAgtpbnN0YW50aWF0ZQADChEEAgALBAAgAAsCAAsEACAACw=="}},{"pin_code":{"ids":[2,1]}}]"#,
        ),
        // what a failed transaction unpins stays pinned
        (
            "%A%",
            5000,
            r#"[{"unpin_code":{"ids":[1]}},{"unpin_code":{"ids":[3]}}]"#,
        ),
        ("%A%", 5000, r#"[{"unpin_code":{"ids":[2]}}]"#),
    ];
    let done = delivered(&rt, rt.alloc(), txs)?;
    let pins: &[u64] = &[1];
    assert_eq!(rt; done.pins.as_slice(), pins);
    Ok(())
}
