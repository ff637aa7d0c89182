//! Codes that are pinned and unpinned.

ghost use Rattle.std.specs.Prelude.{◌≡◌, OnOk, IfErr};
ghost use Rattle.chain_records.specs.Spelled.{OfEach};
ghost use Rattle.chain_records.specs.State.{Spells};
ghost use Rattle.kv_layers.specs.Layers.{depth, HasCurrent};
ghost use Rattle.kv_layers.specs.Spelling.{Becomes, Writes};
ghost use Rattle.code_registry.specs.Codes.{pinned, unpinned, pin_refusal, unpin_refusal};
ghost use Rattle.code_registry.specs.Effects.{IsPinned, IsUnpinned};
ghost use Rattle.code_registry.specs.Lawful.{HasLawful, HasLawfulCodes};
ghost use Rattle.code_registry.specs.Refusals.{IsStop, Leaves, UnlessNoMemory};

use crate::authority::{may_pin, may_unpin};
use crate::stop::CodeStop;
use kv_layers::{Base, Layers};
use state_records::{remove_pin, set_pin};
use std::alloc::{AllocError, Global};

/// Pins ids for the chain's authority; those that are pinned stay so.
pub fn pin<B: Base>(
    alloc: Global,
    layers: &mut Layers<B>,
    sender: &[u8],
    ids: &[u64],
) -> Result<(), CodeStop>
    requires { HasLawful (HasCurrent B.stands_for layers.old) }
    ensures pinned { OnOk result (Becomes Spells HasLawfulCodes B.stands_for layers.old layers.new
        (λ s t. IsPinned s sender.now ids.now t)) }
    ensures stop { IfErr result (λ stop. OfEach (HasCurrent B.stands_for layers.old)
        (λ s. HasLawfulCodes s → IsStop stop (pin_refusal s sender.now ids.now))) }
    ensures lawful { OnOk result (HasLawful (HasCurrent B.stands_for layers.new)) }
    ensures still_lawful { IfErr result (λ stop. UnlessNoMemory stop
        (HasLawful (HasCurrent B.stands_for layers.new))) }
    ensures unchanged { IfErr result (Leaves B.stands_for layers.old layers.new) }
    ensures depth { depth layers.new ≡ depth layers.old }
{
    may_pin(alloc, &*layers, sender, ids)?;
    set_pins(alloc, layers, ids)?;
    Ok(())
}

/// Unpins ids for the chain's authority; those that aren't pinned stay so.
pub fn unpin<B: Base>(
    alloc: Global,
    layers: &mut Layers<B>,
    sender: &[u8],
    ids: &[u64],
) -> Result<(), CodeStop>
    requires { HasLawful (HasCurrent B.stands_for layers.old) }
    ensures unpinned { OnOk result (Becomes Spells HasLawfulCodes B.stands_for layers.old layers.new
        (λ s t. IsUnpinned s sender.now ids.now t)) }
    ensures stop { IfErr result (λ stop. OfEach (HasCurrent B.stands_for layers.old)
        (λ s. HasLawfulCodes s → IsStop stop (unpin_refusal s sender.now ids.now))) }
    ensures lawful { OnOk result (HasLawful (HasCurrent B.stands_for layers.new)) }
    ensures still_lawful { IfErr result (λ stop. UnlessNoMemory stop
        (HasLawful (HasCurrent B.stands_for layers.new))) }
    ensures unchanged { IfErr result (Leaves B.stands_for layers.old layers.new) }
    ensures depth { depth layers.new ≡ depth layers.old }
{
    may_unpin(alloc, &*layers, sender, ids)?;
    remove_pins(alloc, layers, ids)?;
    Ok(())
}

/// Pins each of these ids.
fn set_pins<B: Base>(alloc: Global, layers: &mut Layers<B>, ids: &[u64]) -> Result<(), AllocError>
    ensures ok { OnOk result (Writes Spells B.stands_for layers.old layers.new
        (λ s. pinned s ids.now)) }
    ensures depth { depth layers.new ≡ depth layers.old }
{
    for id in ids {
        set_pin(alloc, layers, *id)?;
    }
    Ok(())
}

/// Unpins each of these ids.
fn remove_pins<B: Base>(
    alloc: Global,
    layers: &mut Layers<B>,
    ids: &[u64],
) -> Result<(), AllocError>
    ensures ok { OnOk result (Writes Spells B.stands_for layers.old layers.new
        (λ s. unpinned s ids.now)) }
    ensures depth { depth layers.new ≡ depth layers.old }
{
    for id in ids {
        remove_pin(alloc, layers, *id)?;
    }
    Ok(())
}
