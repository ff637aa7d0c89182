//! What a block does.

ghost use Rattle.std.specs.Prelude.{◌≡◌, ◌<◌, ◌^◌, vec_len, IfOk, OnOk};
ghost use Rattle.chain_msgs.specs.Plain.{block_view};
ghost use Rattle.chain_records.specs.State.{Spells};
ghost use Rattle.gas_meter.specs.Ranges.{IsInRange};
ghost use Rattle.kv_layers.specs.Layers as stacks;
ghost use Rattle.kv_layers.specs.Layers.{HasCurrent};
ghost use Rattle.kv_layers.specs.Spelling.{Writes};
ghost use Rattle.submsg_dispatch.specs.Blocks.{begun};
ghost use Rattle.block_runner.specs.Delivering.{HasNextHeight, Delivers};

use chain_msgs::{Block, TxResult};
use code_registry::pinned;
use gas_meter::Schedule;
use gatekeeper::Modules;
use kv_layers::{Base, Delta, Layers};
use state_records::{facts, set_facts};
use std::alloc::{AllocError, Global};
use submsg_dispatch::run_txs;

/// What a block did.
#[derive(Debug, Drop)]
pub struct BlockDone {
    /// The changes from the state before it to the state after it.
    pub delta: Delta,
    /// Of its transactions, in order.
    pub results: Vec<TxResult>,
    /// The ids of the codes that are pinned after it, rising.
    pub pins: Vec<u64>,
}

/// Delivers a block on a state: the next one of its chain.
pub fn run_block<B: Base, M: Modules>(
    alloc: Global,
    base: B,
    modules: &mut M,
    block: &Block,
    costs: &Schedule,
) -> Result<BlockDone, AllocError>
where
    B: Drop,
    requires costs { IsInRange costs.now }
    requires lawful { HasNextHeight (B.stands_for base) }
    requires few { vec_len block.now.txs < 2 ^ 32 }
    ensures { IfOk result (λ done. Delivers (B.stands_for base) costs.now
        (M.tally modules.old) (M.tally modules.new) (block_view block.now) done) }
{
    let mut layers = Layers::new(alloc, base);
    begin(alloc, &mut layers, block.time)?;
    let results = run_txs(alloc, &mut layers, modules, &block.txs, costs)?;
    let pins = pinned(alloc, &layers)?;
    Ok(BlockDone {
        delta: layers.into_delta(),
        results,
        pins,
    })
}

/// Writes the height of the next block, and its time.
fn begin<B: Base>(alloc: Global, layers: &mut Layers<B>, time: u64) -> Result<(), AllocError>
    requires { HasNextHeight (HasCurrent B.stands_for layers.old) }
    ensures ok { OnOk result (Writes Spells B.stands_for layers.old layers.new
        (λ s. begun s time)) }
    ensures depth { stacks.depth layers.new ≡ stacks.depth layers.old }
{
    let mut chain = facts(alloc, &*layers)?;
    chain.height += 1;
    chain.time = time;
    set_facts(alloc, layers, chain)?;
    Ok(())
}
