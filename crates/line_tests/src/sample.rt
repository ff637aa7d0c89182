ghost use Rattle.std.specs.Prelude.{◌≡◌, codes, string_bytes, option_map, map};
ghost use Rattle.serde_json.specs.View.{view};
ghost use Rattle.json_shapes.specs.Answers.{Reads};
ghost use Rattle.line_tests.specs.Sample.{Coin as PlainCoin, Act as PlainAct, Order as PlainOrder, coin, act, order, send_of, burn_of, named_act, send, burn};

use json_shapes::{
    Form, ShapeStop, Want, field, list_field, optional_field, stop_for, variant, within,
};
use serde_json::Value;
use std::alloc::Global;

#[derive(Drop)]
pub struct Coin {
    pub denom: String,
    pub amount: u64,
}

#[derive(Drop)]
pub enum Act {
    Send(String),
    Burn(u64),
}

/// What a caller reads: a record with a list of records, a text that may be missing, and a variant.
#[derive(Drop)]
pub struct Order {
    pub id: u64,
    pub coins: Vec<Coin>,
    pub memo: Option<String>,
    pub act: Act,
}

impl Form for Coin {
    ghost Plain = { PlainCoin };

    ghost plain_view = { λ c. record { denom = string_bytes c.denom; amount = c.amount } };

    ghost form = { coin };

    fn want() -> Want {
        Want::Text
    }

    #[tactic(auto, unfolding(crate::specs::Sample::coin_of))]
    fn read(alloc: Global, value: &Value) -> Result<Coin, ShapeStop> {
        Ok(Coin {
            denom: field(alloc, value, "denom")?,
            amount: field(alloc, value, "amount")?,
        })
    }
}

impl Form for Act {
    ghost use Rattle.line_tests.specs.declared.sample.Act.TheVariants.{Send, Burn};

    ghost Plain = { PlainAct };

    ghost plain_view = { elim [ Send to ↦ send (string_bytes to) | Burn n ↦ burn n ] };

    ghost form = { act };

    fn want() -> Want {
        Want::Variant
    }

    #[tactic(auto, unfolding(crate::specs::Sample::act_of))]
    fn read(alloc: Global, value: &Value) -> Result<Act, ShapeStop> {
        let (name, inner) = variant(alloc, value)?;
        named_act(alloc, name, inner)
    }
}

fn send_of(alloc: Global, inner: &Value) -> Result<Act, ShapeStop>
    ensures { Reads ⟦<Act as Form>⟧.plain_view result (send_of (view inner.now)) }
{
    Ok(Act::Send(field(alloc, inner, "to")?))
}

fn burn_of(alloc: Global, inner: &Value) -> Result<Act, ShapeStop>
    ensures { Reads ⟦<Act as Form>⟧.plain_view result (burn_of (view inner.now)) }
{
    Ok(Act::Burn(field(alloc, inner, "amount")?))
}

fn named_act(alloc: Global, name: &str, inner: &Value) -> Result<Act, ShapeStop>
    ensures { Reads ⟦<Act as Form>⟧.plain_view result (named_act (name.now, view inner.now)) }
{
    match name {
        "send" => within(alloc, "send", send_of(alloc, inner)),
        "burn" => within(alloc, "burn", burn_of(alloc, inner)),
        _ => Err(stop_for(alloc, Want::Variant)),
    }
}

impl Form for Order {
    ghost Plain = { PlainOrder };

    ghost plain_view = { λ o. record {
      id = o.id;
      coins = map ⟦<Coin as Form>⟧.plain_view o.coins.items;
      memo = option_map string_bytes o.memo;
      act = ⟦<Act as Form>⟧.plain_view o.act;
    } };

    ghost form = { order };

    fn want() -> Want {
        Want::Number
    }

    #[tactic(auto, unfolding(crate::specs::Sample::order_of))]
    fn read(alloc: Global, value: &Value) -> Result<Order, ShapeStop> {
        Ok(Order {
            id: field(alloc, value, "id")?,
            coins: list_field(alloc, value, "coins")?,
            memo: optional_field(alloc, value, "memo")?,
            act: field(alloc, value, "act")?,
        })
    }
}
