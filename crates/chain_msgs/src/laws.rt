//! What follows from the definitions. The function here does nothing: its clauses are laws.

ghost use Rattle.std.specs.Prelude.{◌≡◌, Ok, decimal};
ghost use Rattle.coin_amounts.specs.Plain.{Coin};
ghost use Rattle.chain_msgs.specs.Plain.{Attribute, Event};
ghost use Rattle.chain_msgs.specs.Forms.{attribute_of, event_of, coin_of};
ghost use Rattle.chain_msgs.specs.Texts.{attribute_data, event_data, coin_data};

/// Attributes, events and coins that are written are read as the same ones.
pub fn shown_events_are_read_again()
    ensures attributes { (a : Attribute) → attribute_of (attribute_data a) ≡ Ok a }
    ensures events { (e : Event) → event_of (event_data e) ≡ Ok e }
    ensures coins { (c : Coin) →
        coin_of (coin_data c) ≡ Ok (record { denom = c.denom; amount = decimal c.amount }) }
{}
