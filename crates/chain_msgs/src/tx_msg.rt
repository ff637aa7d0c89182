//! How messages of transactions are read.

ghost use Rattle.std.specs.Prelude.{◌≡◌, ℕ, List};
ghost use Rattle.serde_json.specs.View.{view, items_view};
ghost use Rattle.json_shapes.specs.Answers.{Reads};
ghost use Rattle.chain_msgs.specs.Messages.{tx_msg_view};
ghost use Rattle.chain_msgs.specs.Forms.{tx_msg_of, named_tx_msg, store_code_of, has_fit_count, counted_ids, ids, pin_of, unpin_of, sudo_of};

use crate::cosmos::named_cosmos;
use crate::messages::TxMsg;
use json_shapes::{
    Form, ShapeStop, Want, bytes_at, each, field, optional_field, stop_for, variant, within,
};
use serde_json::Value;
use std::alloc::Global;

/// A message of a transaction.
#[tactic(auto, unfolding(crate::specs::Forms::tx_msg_of))]
pub fn read_tx_msg(alloc: Global, value: &Value) -> Result<TxMsg, ShapeStop>
    ensures { Reads tx_msg_view result (tx_msg_of (view value.now)) }
{
    let (name, inner) = variant(alloc, value)?;
    named_tx_msg(alloc, name, inner)
}

#[tactic(auto, unfolding(crate::specs::Forms::named_tx_msg))]
fn named_tx_msg(alloc: Global, name: &str, inner: &Value) -> Result<TxMsg, ShapeStop>
    ensures { Reads tx_msg_view result (named_tx_msg (name.now, view inner.now)) }
{
    match name {
        "store_code" => within(alloc, "store_code", store_code_of(alloc, inner)),
        "pin_code" => within(alloc, "pin_code", pin_of(alloc, inner)),
        "unpin_code" => within(alloc, "unpin_code", unpin_of(alloc, inner)),
        "sudo" => within(alloc, "sudo", sudo_of(alloc, inner)),
        _ => Ok(TxMsg::Cosmos(named_cosmos(alloc, name, inner)?)),
    }
}

#[tactic(auto, unfolding(crate::specs::Forms::store_code_of))]
fn store_code_of(alloc: Global, inner: &Value) -> Result<TxMsg, ShapeStop>
    ensures { Reads tx_msg_view result (store_code_of (view inner.now)) }
{
    let allow = optional_field(alloc, inner, "allow")?;
    let code = bytes_at(alloc, inner, "code")?;
    Ok(TxMsg::StoreCode { code, allow })
}

/// The ids of a message.
#[derive(Drop)]
struct Ids(Vec<u64>);

impl Form for Ids {
    ghost Plain = { List ℕ };

    ghost plain_view = { λ ids. ids.0.items };

    ghost form = { ids };

    fn want() -> Want {
        Want::List
    }

    fn read(alloc: Global, value: &Value) -> Result<Ids, ShapeStop> {
        match value.as_array() {
            Some(items) => counted_ids(alloc, items.as_slice()),
            None => Err(stop_for(alloc, Want::List)),
        }
    }
}

/// The ids of a list, which has 1 to 64 of them.
#[tactic(auto, using(crate::proofs::Numbers::map_same))]
fn counted_ids(alloc: Global, items: &[Value]) -> Result<Ids, ShapeStop>
    ensures { Reads (λ ids. ids.0.items) result (counted_ids (items_view items.now)) }
{
    if has_fit_count(items) {
        Ok(Ids(each(alloc, items)?))
    } else {
        Err(stop_for(alloc, Want::List))
    }
}

fn has_fit_count(items: &[Value]) -> bool
    ensures { result ≡ has_fit_count (items_view items.now) }
{
    1 <= items.len() && items.len() <= 64
}

#[tactic(auto, unfolding(crate::specs::Forms::pin_of))]
fn pin_of(alloc: Global, inner: &Value) -> Result<TxMsg, ShapeStop>
    ensures { Reads tx_msg_view result (pin_of (view inner.now)) }
{
    let ids: Ids = field(alloc, inner, "ids")?;
    Ok(TxMsg::Pin { ids: ids.0 })
}

#[tactic(auto, unfolding(crate::specs::Forms::unpin_of))]
fn unpin_of(alloc: Global, inner: &Value) -> Result<TxMsg, ShapeStop>
    ensures { Reads tx_msg_view result (unpin_of (view inner.now)) }
{
    let ids: Ids = field(alloc, inner, "ids")?;
    Ok(TxMsg::Unpin { ids: ids.0 })
}

#[tactic(auto, unfolding(crate::specs::Forms::sudo_of))]
fn sudo_of(alloc: Global, inner: &Value) -> Result<TxMsg, ShapeStop>
    ensures { Reads tx_msg_view result (sudo_of (view inner.now)) }
{
    Ok(TxMsg::Sudo {
        contract: field(alloc, inner, "contract")?,
        msg: bytes_at(alloc, inner, "msg")?,
    })
}
