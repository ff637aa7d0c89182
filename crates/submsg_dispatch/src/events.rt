//! The events of messages.

ghost use Rattle.std.specs.Prelude.{◌≡◌, ℕ, List, [], ◌∷◌, IfOk, map, string_bytes};
ghost use Rattle.hex.specs.Hex.{encode_lower};
ghost use Rattle.sha2.specs.Sha256.{sha256};
ghost use Rattle.coin_amounts.specs.Coins.{coins_view};
ghost use Rattle.chain_addr.specs.Letters.{IsPrefix};
ghost use Rattle.chain_msgs.specs.Plain.{attribute_view, event_view};
ghost use Rattle.submsg_dispatch.specs.Events as plain;

use chain_addr::encode;
use chain_msgs::{Attribute, Event};
use coin_amounts::{Coins, coins_text};
use std::alloc::{AllocError, Global};

fn attribute(alloc: Global, key: &str, value: String) -> Result<Attribute, AllocError>
    ensures { IfOk result (λ made. attribute_view made ≡ plain.attribute key.now (string_bytes value)) }
{
    Ok(Attribute {
        key: String::from_str(alloc, key)?,
        value,
    })
}

/// One event.
pub(crate) fn one(alloc: Global, event: Event) -> Result<Vec<Event>, AllocError>
    ensures { IfOk result (λ events. events.items ≡ event ∷ []) }
{
    let mut events = Vec::with_capacity(alloc, 1)?;
    events.push(event)?;
    Ok(events)
}

/// The event of coins that moved.
pub(crate) fn transfer(
    alloc: Global,
    prefix: &str,
    from: &[u8],
    to: &[u8],
    coins: &Coins,
) -> Result<Event, AllocError>
    requires { IsPrefix prefix.now }
    ensures { IfOk result (λ event. event_view event
        ≡ plain.transfer prefix.now from.now to.now (coins_view coins.now)) }
{
    let recipient = encode(alloc, prefix, to)?;
    let sender = encode(alloc, prefix, from)?;
    let amount = coins_text(alloc, coins)?;
    let mut attributes = Vec::with_capacity(alloc, 3)?;
    attributes.push(attribute(alloc, "recipient", recipient)?)?;
    attributes.push(attribute(alloc, "sender", sender)?)?;
    attributes.push(attribute(alloc, "amount", amount)?)?;
    Ok(Event {
        kind: String::from_str(alloc, "transfer")?,
        attributes,
    })
}

/// The event of coins that are gone.
pub(crate) fn burn(
    alloc: Global,
    prefix: &str,
    from: &[u8],
    coins: &Coins,
) -> Result<Event, AllocError>
    requires { IsPrefix prefix.now }
    ensures { IfOk result (λ event. event_view event
        ≡ plain.burn prefix.now from.now (coins_view coins.now)) }
{
    let burner = encode(alloc, prefix, from)?;
    let amount = coins_text(alloc, coins)?;
    let mut attributes = Vec::with_capacity(alloc, 2)?;
    attributes.push(attribute(alloc, "burner", burner)?)?;
    attributes.push(attribute(alloc, "amount", amount)?)?;
    Ok(Event {
        kind: String::from_str(alloc, "burn")?,
        attributes,
    })
}

/// The event of a code that is stored under an id; this is its checksum in hex.
pub(crate) fn code_stored(alloc: Global, checksum: String, id: u64) -> Result<Event, AllocError>
    ensures { (code : List ℕ) → string_bytes checksum ≡ encode_lower (sha256 code)
        → IfOk result (λ event. event_view event ≡ plain.code_stored code id) }
{
    let mut attributes = Vec::with_capacity(alloc, 2)?;
    attributes.push(attribute(alloc, "code_checksum", checksum)?)?;
    attributes.push(attribute(alloc, "code_id", format!(in alloc; "{id}")?)?)?;
    Ok(Event {
        kind: String::from_str(alloc, "store_code")?,
        attributes,
    })
}

/// An event of this kind on the code with an id.
fn of_code(alloc: Global, kind: &str, id: u64) -> Result<Event, AllocError>
    ensures { IfOk result (λ event. event_view event ≡ plain.of_code kind.now id) }
{
    let mut attributes = Vec::with_capacity(alloc, 1)?;
    attributes.push(attribute(alloc, "code_id", format!(in alloc; "{id}")?)?)?;
    Ok(Event {
        kind: String::from_str(alloc, kind)?,
        attributes,
    })
}

/// One such event for each id of a list, in order.
pub(crate) fn of_codes(alloc: Global, kind: &str, ids: &[u64]) -> Result<Vec<Event>, AllocError>
    ensures { IfOk result (λ events. map event_view events.items
        ≡ map (plain.of_code kind.now) ids.now) }
{
    let mut events = Vec::with_capacity(alloc, ids.len())?;
    for id in ids {
        events.push(of_code(alloc, kind, *id)?)?;
    }
    Ok(events)
}
