ghost use Rattle.std.specs.Prelude.{◌≡◌, map, codes, string_bytes, IfOk};
ghost use Rattle.serde_json.specs.View.{view, items_view};
ghost use Rattle.json_shapes.specs.Answers.{Reads};
ghost use Rattle.json_shapes.specs.Shapes.{each, list, field};
ghost use Rattle.chain_msgs.specs.Plain.{tx_view, block_view};
ghost use Rattle.line_protocol.specs.Parts.{values_at, decimal_at, payer_of, tx, tx_of, block_of};

use crate::fields::decimal_at;
use chain_msgs::{Block, Tx};
use json_shapes::{ShapeStop, field, take_list, u64_at, within, within_place};
use serde_json::Value;
use std::alloc::Global;

/// The messages of a transaction, and what else it says.
fn cut_msgs(alloc: Global, value: Value) -> Result<(Vec<Value>, Value), ShapeStop>
    ensures msgs { Reads (λ cut. map view cut.0.items) result
        (values_at (codes "msgs") (view value)) }
    ensures payer { IfOk result (λ cut. payer_of (view cut.1) ≡ payer_of (view value)) }
{
    take_list(alloc, value, "msgs")
}

#[tactic(auto, unfolding(crate::specs::Parts::payer_of))]
fn payer_of(alloc: Global, value: &Value) -> Result<(String, u64), ShapeStop>
    ensures { Reads (λ payer. (string_bytes payer.0, payer.1)) result (payer_of (view value.now)) }
{
    let sender = field(alloc, value, "sender")?;
    let gas = u64_at(alloc, value, "gas")?;
    Ok((sender, gas))
}

/// What a transaction says. Its messages are moved, and not copied.
#[tactic(auto, unfolding(crate::specs::Parts::tx_of))]
fn tx_of(alloc: Global, value: Value) -> Result<Tx, ShapeStop>
    ensures { Reads tx_view result (tx_of (view value)) }
{
    let (msgs, rest) = cut_msgs(alloc, value)?;
    let (sender, gas) = payer_of(alloc, &rest)?;
    Ok(Tx { sender, gas, msgs })
}

/// Each transaction of a list.
fn txs_of(alloc: Global, items: Vec<Value>) -> Result<Vec<Tx>, ShapeStop>
    ensures { Reads (λ txs. map tx_view txs.items) result (each tx 0 (items_view items.items)) }
{
    let mut txs = Vec::new(alloc);
    for item in items {
        txs.push(within_place(alloc, txs.len(), tx_of(alloc, item))?)?;
    }
    Ok(txs)
}

/// The transactions of a block, and what else it says.
fn cut_txs(alloc: Global, value: Value) -> Result<(Vec<Tx>, Value), ShapeStop>
    ensures txs { Reads (λ cut. map tx_view cut.0.items) result
        (field (codes "txs") (list tx) (view value)) }
    ensures time { IfOk result (λ cut. decimal_at (codes "time") (view cut.1)
        ≡ decimal_at (codes "time") (view value)) }
{
    let (items, rest) = take_list(alloc, value, "txs")?;
    let txs = within(alloc, "txs", txs_of(alloc, items))?;
    Ok((txs, rest))
}

/// What a block line says.
#[tactic(auto, unfolding(crate::specs::Parts::block_of))]
pub(crate) fn block_of(alloc: Global, value: Value) -> Result<Block, ShapeStop>
    ensures { Reads block_view result (block_of (view value)) }
{
    let (txs, rest) = cut_txs(alloc, value)?;
    let time = decimal_at(alloc, &rest, "time")?;
    Ok(Block { time, txs })
}
