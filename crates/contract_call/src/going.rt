//! How a call goes on from where it is.

ghost use Rattle.std.specs.Prelude.{◌≡◌, ◌+◌, ◌<◌, ◌≤◌, map, IfOk, IsTrue};
ghost use Rattle.chain_addr.specs.Letters.{IsPrefix};
ghost use Rattle.gas_meter.specs.Ranges.{IsInRange};
ghost use Rattle.kv_layers.specs.Layers.{depth, Turns};
ghost use Rattle.kv_layers.specs.Plain.{bytes_view};
ghost use Rattle.gas_store.specs.Views.{is_read_only};
ghost use Rattle.gas_store.specs.Effects.{IsSameScope};
ghost use Rattle.wasm_machine.specs.Machine.{module_of, plain_of, phase_of};
ghost use Rattle.host_imports.specs.Imports.{setting};
ghost use Rattle.contract_call.specs.Calls.{call_of, opens, hands};
ghost use Rattle.contract_call.specs.Stages.{CanGoOnAt, IsAnsweredAt};
ghost use Rattle.contract_call.specs.Parts.{Does, IsPaused, IfNotOver, pause_view, next_work};

use crate::entering::{enter, hand};
use crate::entry::Entry;
use crate::stage::Stage;
use crate::stop::{Pause, Stop};
use crate::turning::run;
use gas_meter::{Meter, Schedule};
use gas_store::Scoped;
use kv_layers::{Base, Layers};
use std::alloc::Global;
use wasm_machine::{Machine, Phase};

/// Enters the contract and runs it.
fn open<B: Base>(
    alloc: Global,
    entry: Entry,
    args: Vec<Vec<u8>>,
    pinned: bool,
    machine: &mut Machine,
    store: &mut Scoped,
    layers: &mut Layers<B>,
    prefix: &str,
    meter: &mut Meter,
    costs: &Schedule,
) -> Result<Pause, Stop>
    requires phase { phase_of machine.old ≡ Phase.Idle }
    requires costs { IsInRange costs.now }
    requires prefix { IsPrefix prefix.now }
    ensures does { Does B.stands_for layers.old layers.new store.old store.new
        machine.old machine.new meter.old.left meter.new.left
        (opens (setting costs.now (is_read_only store.old) prefix.now)
        (call_of (plain_of machine.old) entry (map bytes_view args.items) pinned)) pause_view result }
    ensures paused { IfOk result (λ pause. IsPaused (Some pause) machine.new) }
    ensures scope { IsSameScope store.old store.new }
    ensures layers { depth layers.new ≡ depth layers.old }
    ensures unchanged { IsTrue (is_read_only store.old) → Turns B.stands_for layers.old layers.new (λ maps. maps) }
    ensures module { module_of machine.new ≡ module_of machine.old }
    ensures spends { meter.new.left ≤ meter.old.left }
    ensures used { meter.new.left + meter.new.used ≡ meter.old.left + meter.old.used }
{
    match enter(alloc, machine, entry, args, pinned, meter, costs) {
        Ok(()) => run(alloc, machine, store, layers, prefix, meter, costs),
        Err(stop) => Err(stop),
    }
}

/// Gives the contract the answer to its query, and runs it.
fn resume<B: Base>(
    alloc: Global,
    bytes: Vec<u8>,
    machine: &mut Machine,
    store: &mut Scoped,
    layers: &mut Layers<B>,
    prefix: &str,
    meter: &mut Meter,
    costs: &Schedule,
) -> Result<Pause, Stop>
    requires phase { phase_of machine.old ≡ Phase.Asked }
    requires costs { IsInRange costs.now }
    requires prefix { IsPrefix prefix.now }
    ensures does { Does B.stands_for layers.old layers.new store.old store.new
        machine.old machine.new meter.old.left meter.new.left
        (hands (setting costs.now (is_read_only store.old) prefix.now) bytes.items) pause_view result }
    ensures paused { IfOk result (λ pause. IsPaused (Some pause) machine.new) }
    ensures falls { IfOk result (λ pause. IfNotOver (Some pause) (meter.new.left < meter.old.left)) }
    ensures scope { IsSameScope store.old store.new }
    ensures layers { depth layers.new ≡ depth layers.old }
    ensures unchanged { IsTrue (is_read_only store.old) → Turns B.stands_for layers.old layers.new (λ maps. maps) }
    ensures module { module_of machine.new ≡ module_of machine.old }
    ensures spends { meter.new.left ≤ meter.old.left }
    ensures used { meter.new.left + meter.new.used ≡ meter.old.left + meter.old.used }
{
    match hand(alloc, machine, bytes, meter, costs) {
        Ok(()) => run(alloc, machine, store, layers, prefix, meter, costs),
        Err(stop) => Err(stop),
    }
}

/// Goes on from a stage.
pub(crate) fn go_on<B: Base>(
    alloc: Global,
    stage: Stage,
    machine: &mut Machine,
    store: &mut Scoped,
    layers: &mut Layers<B>,
    prefix: &str,
    meter: &mut Meter,
    costs: &Schedule,
) -> Result<Pause, Stop>
    requires ready { CanGoOnAt stage machine.old }
    requires costs { IsInRange costs.now }
    requires prefix { IsPrefix prefix.now }
    ensures does { Does B.stands_for layers.old layers.new store.old store.new
        machine.old machine.new meter.old.left meter.new.left
        (next_work machine.old stage (setting costs.now (is_read_only store.old) prefix.now)) pause_view result }
    ensures paused { IfOk result (λ pause. IsPaused (Some pause) machine.new) }
    ensures falls { IfOk result (λ pause. IfNotOver (Some pause)
        (IsAnsweredAt stage → meter.new.left < meter.old.left)) }
    ensures scope { IsSameScope store.old store.new }
    ensures layers { depth layers.new ≡ depth layers.old }
    ensures unchanged { IsTrue (is_read_only store.old) → Turns B.stands_for layers.old layers.new (λ maps. maps) }
    ensures module { module_of machine.new ≡ module_of machine.old }
    ensures spends { meter.new.left ≤ meter.old.left }
    ensures used { meter.new.left + meter.new.used ≡ meter.old.left + meter.old.used }
{
    match stage {
        Stage::New {
            entry,
            args,
            pinned,
        } => open(
            alloc, entry, args, pinned, machine, store, layers, prefix, meter, costs,
        ),
        Stage::Answered(bytes) => resume(
            alloc, bytes, machine, store, layers, prefix, meter, costs,
        ),
        Stage::Waits | Stage::Over => unreachable!(),
    }
}
