ghost use Rattle.std.specs.Prelude.{◌≡◌, IfOk, string_bytes, true};
ghost use Rattle.serde_json.specs.View.{view};
ghost use Rattle.json_shapes.specs.Answers.{Reads};
ghost use Rattle.chain_msgs.specs.Plain.{Holding, holding_view, genesis_view};
ghost use Rattle.line_protocol.specs.Parts.{holding, genesis_of, is_chain_id, chain_id_at, is_prefix, prefix_at};

use crate::fields::{decimal_at, has_first_profile};
use crate::prefix::is_prefix;
use chain_msgs::{Genesis, coins_at};
use coin_amounts::RawCoin;
use json_shapes::{
    Form, ShapeStop, Want, Wrapper, field, list_field, nullable_field, stop_at, text_at, u64_at,
    wrapped_list,
};
use serde_json::Value;
use std::alloc::Global;

/// An account and what it holds, as it is read.
#[derive(Drop)]
struct ReadHolding((String, Vec<RawCoin>));

impl Form for ReadHolding {
    ghost Plain = { Holding };

    ghost plain_view = { λ h. holding_view h.0 };

    ghost form = { holding };

    fn want() -> Want {
        Want::Text
    }

    #[tactic(auto, unfolding(crate::specs::Parts::holding_of))]
    fn read(alloc: Global, value: &Value) -> Result<ReadHolding, ShapeStop> {
        let address = field(alloc, value, "address")?;
        let coins = coins_at(alloc, value, "coins")?;
        Ok(ReadHolding((address, coins)))
    }
}

impl Wrapper for ReadHolding {
    type Inner = (String, Vec<RawCoin>);

    ghost around = { λ h. record { 0 = h } };

    fn into_inner(self) -> (String, Vec<RawCoin>) {
        self.0
    }
}

/// Whether the text has 1 to 64 bytes.
fn is_chain_id(text: &str) -> bool
    ensures { result ≡ is_chain_id text.now }
{
    1 <= text.len() && text.len() <= 64
}

/// The text in a field that passes for a chain id.
fn chain_id_at(alloc: Global, value: &Value) -> Result<&str, ShapeStop>
    ensures { Reads (λ text. text.now) result (chain_id_at (view value.now)) }
{
    let text = text_at(alloc, value, "chain_id")?;
    if is_chain_id(text) {
        Ok(text)
    } else {
        Err(stop_at(alloc, "chain_id", Want::Text))
    }
}

fn prefix_at(alloc: Global, value: &Value) -> Result<&str, ShapeStop>
    ensures text { Reads (λ text. text.now) result (prefix_at (view value.now)) }
    ensures prefix { IfOk result (λ text. is_prefix text.now ≡ true) }
{
    let text = text_at(alloc, value, "prefix")?;
    if is_prefix(text) {
        Ok(text)
    } else {
        Err(stop_at(alloc, "prefix", Want::Text))
    }
}

/// What a genesis line says.
#[tactic(auto, unfolding(crate::specs::Parts::genesis_of))]
pub(crate) fn genesis_of(alloc: Global, value: &Value) -> Result<Genesis, ShapeStop>
    ensures said { Reads genesis_view result (genesis_of (view value.now)) }
    ensures prefix { IfOk result (λ g. is_prefix (string_bytes g.prefix) ≡ true) }
{
    let chain_id = chain_id_at(alloc, value)?;
    let time = decimal_at(alloc, value, "time")?;
    let prefix = prefix_at(alloc, value)?;
    let authority = nullable_field(alloc, value, "authority")?;
    let capabilities = list_field(alloc, value, "capabilities")?;
    let balances = wrapped_list::<ReadHolding>(alloc, value, "balances")?;
    let query_gas = u64_at(alloc, value, "query_gas")?;
    if !has_first_profile(value) {
        return Err(stop_at(alloc, "profile", Want::Number));
    }
    Ok(Genesis {
        chain_id: String::from_str(alloc, chain_id)?,
        time,
        prefix: String::from_str(alloc, prefix)?,
        authority,
        capabilities,
        balances,
        query_gas,
    })
}
