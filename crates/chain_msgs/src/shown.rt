//! Values that are written as JSON.

ghost use Rattle.std.specs.Prelude.{◌≡◌, ◌<◌, ◌^◌, ℕ, List, Option, length, map, codes, IfOk};
ghost use Rattle.serde_json.specs.Data.{Data};
ghost use Rattle.serde_json.specs.View.{view};
ghost use Rattle.coin_amounts.specs.Plain.{Coin as PlainCoin, coin_view};
ghost use Rattle.json_shapes.specs.Values.{list_data};
ghost use Rattle.chain_msgs.specs.Plain.{Attribute as PlainAttribute, Event as PlainEvent, attribute_view, event_view, out_view};
ghost use Rattle.chain_msgs.specs.Texts.{coin_data, attribute_data, event_data, out_data};

use crate::event::{Attribute, Event};
use coin_amounts::Coin;
use json_shapes::binary_value;
use serde_json::{Value, json};
use std::alloc::{AllocError, Global};

/// What is written as JSON.
pub trait Shown {
    /// Its plain form.
    ghost Plain: { Type 0 };

    ghost plain_view: { Self → Plain };

    ghost data_of: { Plain → Data };

    fn value(&self, alloc: Global) -> Result<Value, AllocError>
        ensures { IfOk result (λ value. view value ≡ data_of (plain_view self.now)) };
}

/// A list, item by item.
pub fn list_value<T: Shown>(alloc: Global, list: &[T]) -> Result<Value, AllocError>
    requires { length list.now < 2 ^ 63 }
    ensures { IfOk result (λ value. view value ≡ list_data (map T.data_of (map T.plain_view list.now))) }
{
    let mut values = Vec::with_capacity(alloc, list.len())?;
    for item in list {
        values.push(item.value(alloc)?)?;
    }
    Ok(Value::Array(values))
}

impl Shown for Coin {
    ghost Plain = { PlainCoin };

    ghost plain_view = { coin_view };

    ghost data_of = { coin_data };

    fn value(&self, alloc: Global) -> Result<Value, AllocError> {
        let amount = self.amount.to_string(alloc)?;
        json!(in alloc; {"amount": amount, "denom": &self.denom})
    }
}

impl Shown for Attribute {
    ghost Plain = { PlainAttribute };

    ghost plain_view = { attribute_view };

    ghost data_of = { attribute_data };

    fn value(&self, alloc: Global) -> Result<Value, AllocError> {
        json!(in alloc; {"key": &self.key, "value": &self.value})
    }
}

impl Shown for Event {
    ghost Plain = { PlainEvent };

    ghost plain_view = { event_view };

    ghost data_of = { event_data };

    fn value(&self, alloc: Global) -> Result<Value, AllocError> {
        let attributes = list_value(alloc, &self.attributes)?;
        json!(in alloc; {"attributes": attributes, "type": &self.kind})
    }
}

/// Bytes in base64, or null.
impl Shown for Option<Vec<u8>> {
    ghost Plain = { Option (List ℕ) };

    ghost plain_view = { out_view };

    ghost data_of = { out_data };

    fn value(&self, alloc: Global) -> Result<Value, AllocError> {
        match self {
            None => Ok(Value::Null),
            Some(bytes) => binary_value(alloc, bytes),
        }
    }
}
