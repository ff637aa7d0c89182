//! Who may change which pins.

ghost use Rattle.std.specs.Prelude.{◌≡◌, OnOk, IfErr, None, option_map};
ghost use Rattle.chain_records.specs.Records.{bytes_view};
ghost use Rattle.chain_records.specs.Spelled.{OfEach};
ghost use Rattle.code_registry.specs.Codes.{is_the, pin_refusal, unpin_refusal};
ghost use Rattle.code_registry.specs.Lawful.{HasLawful, HasLawfulCodes};
ghost use Rattle.code_registry.specs.Refusals.{IsStop};
ghost use Rattle.code_registry.specs.Steps.{first_outside};

use crate::counting::how_many_with;
use crate::stop::CodeStop;
use kv_layers::Base;
use state_records::{counters, facts};
use std::alloc::Global;

/// How many codes can be pinned.
const MOST_PINS: usize = 64;

/// That the sender may pin these ids: it may unpin them too, and with them not too many are pinned.
pub(crate) fn may_pin<B: Base>(
    alloc: Global,
    view: &B,
    sender: &[u8],
    ids: &[u64],
) -> Result<(), CodeStop>
    requires { HasLawful (B.stands_for view.now) }
    ensures ok { OnOk result (OfEach (B.stands_for view.now)
        (λ s. HasLawfulCodes s → pin_refusal s sender.now ids.now ≡ None)) }
    ensures stop { IfErr result (λ stop. OfEach (B.stands_for view.now)
        (λ s. HasLawfulCodes s → IsStop stop (pin_refusal s sender.now ids.now))) }
{
    match may_unpin(alloc, view, sender, ids) {
        Ok(()) => {}
        Err(stop) => return Err(stop),
    }
    let many = how_many_with(alloc, view, ids)?;
    if many > MOST_PINS {
        return Err(CodeStop::TooManyPins);
    }
    Ok(())
}

/// That the sender may unpin these ids: it is the chain's authority, and there is a code with each id.
pub(crate) fn may_unpin<B: Base>(
    alloc: Global,
    view: &B,
    sender: &[u8],
    ids: &[u64],
) -> Result<(), CodeStop>
    requires { HasLawful (B.stands_for view.now) }
    ensures ok { OnOk result (OfEach (B.stands_for view.now)
        (λ s. HasLawfulCodes s → unpin_refusal s sender.now ids.now ≡ None)) }
    ensures stop { IfErr result (λ stop. OfEach (B.stands_for view.now)
        (λ s. HasLawfulCodes s → IsStop stop (unpin_refusal s sender.now ids.now))) }
{
    let chain = facts(alloc, view)?;
    if !is_the(&chain.authority, sender) {
        return Err(CodeStop::NotAuthority);
    }
    let given = counters(alloc, view)?;
    match first_outside(given.next_code, ids) {
        Some(id) => Err(CodeStop::NoSuchCode(id)),
        None => Ok(()),
    }
}

/// Whether there is an address, and it is this one.
fn is_the(one: &Option<Vec<u8>>, sender: &[u8]) -> bool
    ensures { result ≡ is_the (option_map bytes_view one.now) sender.now }
{
    match one {
        Some(one) => one.as_slice() == sender,
        None => false,
    }
}

/// The first id that isn't from 1 on and below the next one.
fn first_outside(next: u64, ids: &[u64]) -> Option<u64>
    ensures { result ≡ first_outside next ids.now }
{
    for id in ids {
        if *id == 0 || next <= *id {
            return Some(*id);
        }
    }
    None
}
