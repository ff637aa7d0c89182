//! Messages that store, pin and unpin codes.

ghost use Rattle.std.specs.Prelude.{◌≡◌, ◌+◌, ℕ, List, Option, map, option_map, string_bytes, All, IfOk, IfSome};
ghost use Rattle.hex.specs.Hex.{encode_lower};
ghost use Rattle.sha2.specs.Sha256.{sha256};
ghost use Rattle.kv_layers.specs.Layers as stacks;
ghost use Rattle.kv_layers.specs.Layers.{HasCurrent};
ghost use Rattle.chain_addr.specs.Letters.{IsPrefix};
ghost use Rattle.chain_records.specs.Keys.{IsAddress};
ghost use Rattle.chain_records.specs.Records.{list_view};
ghost use Rattle.gatekeeper.specs.Cache.{Tally};
ghost use Rattle.gatekeeper.specs.Texts.{refusal_text};
ghost use Rattle.wasm_types.specs.Plain.{plain_refusal};
ghost use Rattle.chain_msgs.specs.Plain.{failure_view};
ghost use Rattle.query_router.specs.Lawful.{HasLawful};
ghost use Rattle.submsg_dispatch.specs.Failures as plain;
ghost use Rattle.submsg_dispatch.specs.Messages.{addresses_of, allowed_of, stores, store_code, pin_codes, unpin_codes};
ghost use Rattle.submsg_dispatch.specs.Views.{outcome_view};
ghost use Rattle.submsg_dispatch.specs.Under.{LeadsUnder, HasLawfulUnder, Finds, TellsCode, allowed_view};

use crate::charges::charge_code;
use crate::events::{code_stored, of_codes, one};
use crate::failures::{
    no_such_code, not_authority, stop_of, store_refused, too_many_codes, too_many_pins,
};
use crate::outcome::{Outcome, only_events};
use crate::reading::address_in;
use crate::stop::HandleStop;
use chain_msgs::Failure;
use code_registry::{CodeStop, pin, store, unpin};
use contract_admin::contracts_stay_lawful;
use gas_meter::{Meter, Schedule};
use gatekeeper::refusal_text;
use kv_layers::{Base, Layers};
use sha2::{Digest, Sha256};
use std::alloc::{AllocError, Global};
use wasm_types::GateRefusal;

/// Stores a code, for those whom the list names, or for everybody where there is none.
pub(crate) fn store_code<B: Base>(
    alloc: Global,
    layers: &mut Layers<B>,
    prefix: &str,
    sender: &[u8],
    code: Vec<u8>,
    allow: &Option<Vec<String>>,
    meter: &mut Meter,
    costs: &Schedule,
) -> Result<Outcome, HandleStop>
    requires sender { IsAddress sender.now }
    requires lawful { HasLawfulUnder prefix.now (HasCurrent B.stands_for layers.old) }
    ensures leads { (tally : Option Tally) → LeadsUnder prefix.now B.stands_for
        layers.old layers.new tally tally meter.old.left meter.new.left
        (store_code costs.now sender.now code.items (option_map (λ list. map string_bytes list.items) allow.now))
        outcome_view result }
    ensures gas { meter.new.left + meter.new.used ≡ meter.old.left + meter.old.used }
    ensures layers { stacks.depth layers.new ≡ stacks.depth layers.old }
{
    let allowed = allowed_in(alloc, prefix, allow)?;
    charge_code(meter, costs, &code)?;
    put_code(alloc, layers, sender, code, allowed)
}

/// Stores a code that is paid for, and tells of it.
fn put_code<B: Base>(
    alloc: Global,
    layers: &mut Layers<B>,
    sender: &[u8],
    code: Vec<u8>,
    allowed: Option<Vec<Vec<u8>>>,
) -> Result<Outcome, HandleStop>
    requires sender { IsAddress sender.now }
    requires allowed { IfSome (option_map list_view allowed) (All IsAddress) }
    requires lawful { HasLawful (HasCurrent B.stands_for layers.old) }
    ensures leads { (prefix : List ℕ) (tally : Option Tally) (left : ℕ) → LeadsUnder prefix B.stands_for
        layers.old layers.new tally tally left left
        (stores sender.now code.items (option_map list_view allowed)) outcome_view result }
    ensures layers { stacks.depth layers.new ≡ stacks.depth layers.old }
{
    contracts_stay_lawful();
    let checksum = checksum_of(alloc, &code)?;
    match store(alloc, layers, sender, code, allowed) {
        Ok(id) => {
            let event = code_stored(alloc, checksum, id)?;
            Ok(only_events(one(alloc, event)?))
        }
        Err(stop) => Err(code_stop(alloc, stop)),
    }
}

/// The checksum of a code, in hex.
fn checksum_of(alloc: Global, code: &[u8]) -> Result<String, AllocError>
    ensures { IfOk result (λ text. string_bytes text ≡ encode_lower (sha256 code.now)) }
{
    hex::encode(alloc, Sha256::digest(code))
}

/// Pins codes, and tells of each id.
pub(crate) fn pin_codes<B: Base>(
    alloc: Global,
    layers: &mut Layers<B>,
    sender: &[u8],
    ids: &[u64],
) -> Result<Outcome, HandleStop>
    requires lawful { HasLawful (HasCurrent B.stands_for layers.old) }
    ensures leads { (prefix : List ℕ) (tally : Option Tally) (left : ℕ) → LeadsUnder prefix B.stands_for
        layers.old layers.new tally tally left left
        (pin_codes sender.now ids.now) outcome_view result }
    ensures layers { stacks.depth layers.new ≡ stacks.depth layers.old }
{
    match pin(alloc, layers, sender, ids) {
        Ok(()) => Ok(only_events(of_codes(alloc, "pin_code", ids)?)),
        Err(stop) => Err(code_stop(alloc, stop)),
    }
}

/// Unpins codes, and tells of each id.
pub(crate) fn unpin_codes<B: Base>(
    alloc: Global,
    layers: &mut Layers<B>,
    sender: &[u8],
    ids: &[u64],
) -> Result<Outcome, HandleStop>
    requires lawful { HasLawful (HasCurrent B.stands_for layers.old) }
    ensures leads { (prefix : List ℕ) (tally : Option Tally) (left : ℕ) → LeadsUnder prefix B.stands_for
        layers.old layers.new tally tally left left
        (unpin_codes sender.now ids.now) outcome_view result }
    ensures layers { stacks.depth layers.new ≡ stacks.depth layers.old }
{
    match unpin(alloc, layers, sender, ids) {
        Ok(()) => Ok(only_events(of_codes(alloc, "unpin_code", ids)?)),
        Err(stop) => Err(code_stop(alloc, stop)),
    }
}

/// The addresses of those who may instantiate a code, where there is a list of them.
fn allowed_in(
    alloc: Global,
    prefix: &str,
    allow: &Option<Vec<String>>,
) -> Result<Option<Vec<Vec<u8>>>, HandleStop>
    requires { IsPrefix prefix.now }
    ensures found { Finds allowed_view result plain.address_bad
        (allowed_of prefix.now (option_map (λ list. map string_bytes list.items) allow.now)) }
    ensures addresses { IfOk result (λ allowed. IfSome (option_map list_view allowed) (All IsAddress)) }
{
    match allow {
        None => Ok(None),
        Some(texts) => match addresses_in(alloc, prefix, texts) {
            Ok(addresses) => Ok(Some(addresses)),
            Err(stop) => Err(stop),
        },
    }
}

/// The addresses that texts are.
fn addresses_in(alloc: Global, prefix: &str, texts: &[String]) -> Result<Vec<Vec<u8>>, HandleStop>
    requires { IsPrefix prefix.now }
    ensures found { Finds list_view result plain.address_bad
        (addresses_of prefix.now (map string_bytes texts.now)) }
    ensures addresses { IfOk result (λ addresses. All IsAddress (list_view addresses)) }
{
    let mut addresses = Vec::with_capacity(alloc, texts.len())?;
    for text in texts {
        let address = address_in(alloc, prefix, text.as_str())?;
        addresses.push(address)?;
    }
    Ok(addresses)
}

/// The stop of a message on codes.
fn code_stop(alloc: Global, stop: CodeStop) -> HandleStop
    ensures { TellsCode stop result }
{
    match stop {
        CodeStop::Refused(refusal) => stop_of(refused(alloc, &refusal)),
        CodeStop::NotAuthority => stop_of(not_authority(alloc)),
        CodeStop::NoSuchCode(id) => stop_of(no_such_code(alloc, id)),
        CodeStop::TooManyCodes => stop_of(too_many_codes(alloc)),
        CodeStop::TooManyPins => stop_of(too_many_pins(alloc)),
        CodeStop::NoMemory => HandleStop::NoMemory,
    }
}

/// The failure of a code that the gate refuses.
fn refused(alloc: Global, refusal: &GateRefusal) -> Result<Failure, AllocError>
    ensures { IfOk result (λ failure. failure_view failure
        ≡ plain.store_refused (refusal_text (plain_refusal refusal.now))) }
{
    let text = refusal_text(alloc, refusal)?;
    store_refused(alloc, text)
}
