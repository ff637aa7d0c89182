//! Coins, attributes and events, as JSON has them.

ghost use Rattle.std.specs.Prelude.{◌≡◌, map};
ghost use Rattle.json_shapes.specs.Shapes.{field, list};
ghost use Rattle.serde_json.specs.View.{view};
ghost use Rattle.json_shapes.specs.Answers.{Reads};
ghost use Rattle.coin_amounts.specs.Plain.{RawCoin as PlainRawCoin, raw_coin_view};
ghost use Rattle.chain_msgs.specs.Plain.{Attribute as PlainAttribute, Event as PlainEvent, attribute_view, event_view};
ghost use Rattle.chain_msgs.specs.Forms.{coin, attribute, event};

use crate::event::{Attribute, Event};
use coin_amounts::RawCoin;
use json_shapes::{Form, ShapeStop, Want, Wrapper, field, list_field, wrapped_list};
use serde_json::Value;
use std::alloc::Global;

/// A coin as it is read: the trait is of another crate, and so is the coin.
#[derive(Drop)]
struct ReadCoin(RawCoin);

impl Form for ReadCoin {
    ghost Plain = { PlainRawCoin };

    ghost plain_view = { λ c. raw_coin_view c.0 };

    ghost form = { coin };

    fn want() -> Want {
        Want::Text
    }

    #[tactic(auto, unfolding(crate::specs::Forms::coin_of))]
    fn read(alloc: Global, value: &Value) -> Result<ReadCoin, ShapeStop> {
        Ok(ReadCoin(RawCoin {
            denom: field(alloc, value, "denom")?,
            amount: field(alloc, value, "amount")?,
        }))
    }
}

impl Wrapper for ReadCoin {
    type Inner = RawCoin;

    ghost around = { λ c. record { 0 = c } };

    fn into_inner(self) -> RawCoin {
        self.0
    }
}

/// The coins of the list in a field, which has to be there. Whether they name denoms and write amounts isn't looked at.
pub fn coins_at(alloc: Global, value: &Value, name: &str) -> Result<Vec<RawCoin>, ShapeStop>
    ensures { Reads (λ coins. map raw_coin_view coins.items) result
        (field name.now (list coin) (view value.now)) }
{
    wrapped_list::<ReadCoin>(alloc, value, name)
}

impl Form for Attribute {
    ghost Plain = { PlainAttribute };

    ghost plain_view = { attribute_view };

    ghost form = { attribute };

    fn want() -> Want {
        Want::Text
    }

    #[tactic(auto, unfolding(crate::specs::Forms::attribute_of))]
    fn read(alloc: Global, value: &Value) -> Result<Attribute, ShapeStop> {
        Ok(Attribute {
            key: field(alloc, value, "key")?,
            value: field(alloc, value, "value")?,
        })
    }
}

impl Form for Event {
    ghost Plain = { PlainEvent };

    ghost plain_view = { event_view };

    ghost form = { event };

    fn want() -> Want {
        Want::Text
    }

    #[tactic(auto, unfolding(crate::specs::Forms::event_of))]
    fn read(alloc: Global, value: &Value) -> Result<Event, ShapeStop> {
        Ok(Event {
            kind: field(alloc, value, "type")?,
            attributes: list_field(alloc, value, "attributes")?,
        })
    }
}
