//! The events of a contract's call.

ghost use Rattle.std.specs.Prelude.{◌≡◌, ◌++◌, ◌∷◌, [], List, IfOk, OnOk, map, string_bytes};
ghost use Rattle.chain_msgs.specs.Plain.{attribute_view, event_view};
ghost use Rattle.call_outcomes.specs.Events as plain;

use chain_msgs::{Attribute, Event};
use std::alloc::{AllocError, Global};

/// The key under which an event names the contract.
const CONTRACT: &str = "_contract_address";

/// An attribute of an event.
pub fn attribute(alloc: Global, key: &str, value: String) -> Result<Attribute, AllocError>
    ensures { IfOk result (λ made. attribute_view made ≡ plain.attribute key.now (string_bytes value)) }
{
    Ok(Attribute {
        key: String::from_str(alloc, key)?,
        value,
    })
}

/// These attributes behind one that names the contract.
fn of_contract(
    alloc: Global,
    contract: &str,
    mut attributes: Vec<Attribute>,
) -> Result<Vec<Attribute>, AllocError>
    ensures { IfOk result (λ all. map attribute_view all.items
        ≡ plain.of_contract contract.now (map attribute_view attributes.items)) }
{
    let mut all = Vec::with_capacity(alloc, 1)?;
    let value = String::from_str(alloc, contract)?;
    all.push(attribute(alloc, CONTRACT, value)?)?;
    all.append(&mut attributes)?;
    Ok(all)
}

/// The event of a call of the contract with this address, in text: `execute`, `sudo` or `reply`.
pub fn call_event(alloc: Global, kind: &str, contract: &str) -> Result<Event, AllocError>
    ensures { IfOk result (λ event. event_view event ≡ plain.call_event kind.now contract.now) }
{
    Ok(Event {
        kind: String::from_str(alloc, kind)?,
        attributes: of_contract(alloc, contract, Vec::new(alloc))?,
    })
}

/// The event of a call by which the contract has the code with this id: `instantiate` or `migrate`.
pub fn code_event(alloc: Global, kind: &str, contract: &str, id: u64) -> Result<Event, AllocError>
    ensures { IfOk result (λ event. event_view event ≡ plain.code_event kind.now contract.now id) }
{
    let mut attributes = Vec::with_capacity(alloc, 1)?;
    attributes.push(attribute(alloc, "code_id", format!(in alloc; "{id}")?)?)?;
    Ok(Event {
        kind: String::from_str(alloc, kind)?,
        attributes: of_contract(alloc, contract, attributes)?,
    })
}

/// An event that the contract tells, as it is kept.
fn custom_event(alloc: Global, contract: &str, event: Event) -> Result<Event, AllocError>
    ensures { IfOk result (λ kept. event_view kept ≡ plain.custom_event contract.now (event_view event)) }
{
    let Event { kind, attributes } = event;
    Ok(Event {
        kind: format!(in alloc; "wasm-{kind}")?,
        attributes: of_contract(alloc, contract, attributes)?,
    })
}

/// The event of the attributes that the contract tells, where there are any.
fn tell_attributes(
    alloc: Global,
    contract: &str,
    attributes: Vec<Attribute>,
    told: &mut Vec<Event>,
) -> Result<(), AllocError>
    ensures { OnOk result (map event_view told.new.items ≡ map event_view told.old.items
        ++ plain.wasm_events contract.now (map attribute_view attributes.items)) }
{
    if attributes.is_empty() {
        return Ok(());
    }
    told.push(Event {
        kind: String::from_str(alloc, "wasm")?,
        attributes: of_contract(alloc, contract, attributes)?,
    })?;
    Ok(())
}

/// Puts what the contract tells behind the events that were told so far.
pub fn tell_events(
    alloc: Global,
    contract: &str,
    attributes: Vec<Attribute>,
    events: Vec<Event>,
    told: &mut Vec<Event>,
) -> Result<(), AllocError>
    ensures { OnOk result (map event_view told.new.items ≡ map event_view told.old.items
        ++ plain.told_events contract.now (map attribute_view attributes.items) (map event_view events.items)) }
{
    tell_attributes(alloc, contract, attributes, told)?;
    for event in events {
        told.push(custom_event(alloc, contract, event)?)?;
    }
    Ok(())
}
