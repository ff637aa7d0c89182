//! How messages that contracts and senders may ask for are read.

ghost use Rattle.std.specs.Prelude.{◌≡◌, ◌++◌, Ok, map};
ghost use Rattle.serde_json.specs.View.{view};
ghost use Rattle.json_shapes.specs.Answers.{Reads};
ghost use Rattle.coin_amounts.specs.Plain.{raw_coin_view};
ghost use Rattle.chain_msgs.specs.Messages.{CosmosMsg as PlainCosmosMsg, cosmos_view, other};
ghost use Rattle.chain_msgs.specs.Forms.{cosmos_msg, send_of, burn_of, funds_of, execute_of, instantiate_of, instantiate2_of, migrate_of, update_admin_of, clear_admin_of, named_bank, named_wasm, bank_of, wasm_of, named_cosmos};

use crate::messages::CosmosMsg;
use crate::pieces::coins_at;
use coin_amounts::RawCoin;
use json_shapes::{
    Form, ShapeStop, Want, bytes_at, field, nullable_field, u64_at, variant, within,
};
use serde_json::Value;
use std::alloc::Global;

impl Form for CosmosMsg {
    ghost Plain = { PlainCosmosMsg };

    ghost plain_view = { cosmos_view };

    ghost form = { cosmos_msg };

    fn want() -> Want {
        Want::Variant
    }

    #[tactic(auto, unfolding(crate::specs::Forms::cosmos_of))]
    fn read(alloc: Global, value: &Value) -> Result<CosmosMsg, ShapeStop> {
        let (name, inner) = variant(alloc, value)?;
        named_cosmos(alloc, name, inner)
    }
}

#[tactic(auto, unfolding(crate::specs::Forms::named_cosmos))]
pub(crate) fn named_cosmos(alloc: Global, name: &str, inner: &Value) -> Result<CosmosMsg, ShapeStop>
    ensures { Reads cosmos_view result (named_cosmos (name.now, view inner.now)) }
{
    match name {
        "bank" => within(alloc, "bank", bank_of(alloc, inner)),
        "wasm" => within(alloc, "wasm", wasm_of(alloc, inner)),
        _ => other_of(alloc, "", name),
    }
}

/// A message that the chain doesn't know, by the two parts of its kind.
fn other_of(alloc: Global, front: &str, name: &str) -> Result<CosmosMsg, ShapeStop>
    ensures { Reads cosmos_view result (Ok (other (front.now ++ name.now))) }
{
    let mut kind = String::from_str(alloc, front)?;
    kind.push_str(name)?;
    Ok(CosmosMsg::Other { kind })
}

#[tactic(auto, unfolding(crate::specs::Forms::bank_of))]
fn bank_of(alloc: Global, value: &Value) -> Result<CosmosMsg, ShapeStop>
    ensures { Reads cosmos_view result (bank_of (view value.now)) }
{
    let (name, inner) = variant(alloc, value)?;
    named_bank(alloc, name, inner)
}

#[tactic(auto, unfolding(crate::specs::Forms::named_bank))]
fn named_bank(alloc: Global, name: &str, inner: &Value) -> Result<CosmosMsg, ShapeStop>
    ensures { Reads cosmos_view result (named_bank (name.now, view inner.now)) }
{
    match name {
        "send" => within(alloc, "send", send_of(alloc, inner)),
        "burn" => within(alloc, "burn", burn_of(alloc, inner)),
        _ => other_of(alloc, "bank.", name),
    }
}

#[tactic(auto, unfolding(crate::specs::Forms::send_of))]
fn send_of(alloc: Global, inner: &Value) -> Result<CosmosMsg, ShapeStop>
    ensures { Reads cosmos_view result (send_of (view inner.now)) }
{
    Ok(CosmosMsg::BankSend {
        to: field(alloc, inner, "to_address")?,
        amount: coins_at(alloc, inner, "amount")?,
    })
}

#[tactic(auto, unfolding(crate::specs::Forms::burn_of))]
fn burn_of(alloc: Global, inner: &Value) -> Result<CosmosMsg, ShapeStop>
    ensures { Reads cosmos_view result (burn_of (view inner.now)) }
{
    Ok(CosmosMsg::BankBurn {
        amount: coins_at(alloc, inner, "amount")?,
    })
}

#[tactic(auto, unfolding(crate::specs::Forms::wasm_of))]
fn wasm_of(alloc: Global, value: &Value) -> Result<CosmosMsg, ShapeStop>
    ensures { Reads cosmos_view result (wasm_of (view value.now)) }
{
    let (name, inner) = variant(alloc, value)?;
    named_wasm(alloc, name, inner)
}

#[tactic(auto, unfolding(crate::specs::Forms::named_wasm))]
fn named_wasm(alloc: Global, name: &str, inner: &Value) -> Result<CosmosMsg, ShapeStop>
    ensures { Reads cosmos_view result (named_wasm (name.now, view inner.now)) }
{
    match name {
        "execute" => within(alloc, "execute", execute_of(alloc, inner)),
        "instantiate" => within(alloc, "instantiate", instantiate_of(alloc, inner)),
        "instantiate2" => within(alloc, "instantiate2", instantiate2_of(alloc, inner)),
        "migrate" => within(alloc, "migrate", migrate_of(alloc, inner)),
        "update_admin" => within(alloc, "update_admin", update_admin_of(alloc, inner)),
        "clear_admin" => within(alloc, "clear_admin", clear_admin_of(alloc, inner)),
        _ => other_of(alloc, "wasm.", name),
    }
}

/// The coins that come along, which have to be a list.
fn funds_of(alloc: Global, inner: &Value) -> Result<Vec<RawCoin>, ShapeStop>
    ensures { Reads (λ funds. map raw_coin_view funds.items) result (funds_of (view inner.now)) }
{
    coins_at(alloc, inner, "funds")
}

#[tactic(auto, unfolding(crate::specs::Forms::execute_of))]
fn execute_of(alloc: Global, inner: &Value) -> Result<CosmosMsg, ShapeStop>
    ensures { Reads cosmos_view result (execute_of (view inner.now)) }
{
    Ok(CosmosMsg::Execute {
        contract: field(alloc, inner, "contract_addr")?,
        msg: bytes_at(alloc, inner, "msg")?,
        funds: funds_of(alloc, inner)?,
    })
}

#[tactic(auto, unfolding(crate::specs::Forms::instantiate_of))]
fn instantiate_of(alloc: Global, inner: &Value) -> Result<CosmosMsg, ShapeStop>
    ensures { Reads cosmos_view result (instantiate_of (view inner.now)) }
{
    Ok(CosmosMsg::Instantiate {
        admin: nullable_field(alloc, inner, "admin")?,
        code_id: u64_at(alloc, inner, "code_id")?,
        msg: bytes_at(alloc, inner, "msg")?,
        funds: funds_of(alloc, inner)?,
        label: field(alloc, inner, "label")?,
        salt: None,
    })
}

#[tactic(auto, unfolding(crate::specs::Forms::instantiate2_of))]
fn instantiate2_of(alloc: Global, inner: &Value) -> Result<CosmosMsg, ShapeStop>
    ensures { Reads cosmos_view result (instantiate2_of (view inner.now)) }
{
    Ok(CosmosMsg::Instantiate {
        admin: nullable_field(alloc, inner, "admin")?,
        code_id: u64_at(alloc, inner, "code_id")?,
        msg: bytes_at(alloc, inner, "msg")?,
        funds: funds_of(alloc, inner)?,
        label: field(alloc, inner, "label")?,
        salt: Some(bytes_at(alloc, inner, "salt")?),
    })
}

#[tactic(auto, unfolding(crate::specs::Forms::migrate_of))]
fn migrate_of(alloc: Global, inner: &Value) -> Result<CosmosMsg, ShapeStop>
    ensures { Reads cosmos_view result (migrate_of (view inner.now)) }
{
    Ok(CosmosMsg::Migrate {
        contract: field(alloc, inner, "contract_addr")?,
        new_code_id: u64_at(alloc, inner, "new_code_id")?,
        msg: bytes_at(alloc, inner, "msg")?,
    })
}

#[tactic(auto, unfolding(crate::specs::Forms::update_admin_of))]
fn update_admin_of(alloc: Global, inner: &Value) -> Result<CosmosMsg, ShapeStop>
    ensures { Reads cosmos_view result (update_admin_of (view inner.now)) }
{
    Ok(CosmosMsg::UpdateAdmin {
        contract: field(alloc, inner, "contract_addr")?,
        admin: field(alloc, inner, "admin")?,
    })
}

#[tactic(auto, unfolding(crate::specs::Forms::clear_admin_of))]
fn clear_admin_of(alloc: Global, inner: &Value) -> Result<CosmosMsg, ShapeStop>
    ensures { Reads cosmos_view result (clear_admin_of (view inner.now)) }
{
    Ok(CosmosMsg::ClearAdmin {
        contract: field(alloc, inner, "contract_addr")?,
    })
}
