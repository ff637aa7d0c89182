//! A contract that runs, and what the host does where it calls imports.

ghost use Rattle.std.specs.Prelude.{◌≡◌, ◌+◌, ◌<◌, ◌≤◌, ℕ, OnOk, IfOk, IsTrue};
ghost use Rattle.chain_addr.specs.Letters.{IsPrefix};
ghost use Rattle.gas_meter.specs.Ranges.{IsInRange};
ghost use Rattle.kv_layers.specs.Layers.{depth, Turns};
ghost use Rattle.gas_store.specs.Views.{is_read_only};
ghost use Rattle.gas_store.specs.Effects.{IsSameScope};
ghost use Rattle.wasm_machine.specs.Acts.{IsAsk, standing_of};
ghost use Rattle.wasm_machine.specs.Machine.{module_of, phase_of, HasUnbegunCall};
ghost use Rattle.wasm_machine.specs.Phases.{after_turn};
ghost use Rattle.host_imports.specs.Imports.{setting};
ghost use Rattle.contract_call.specs.Calls.{comes_to, turn, turns, runs};
ghost use Rattle.contract_call.specs.Parts.{Does, IsPaused, IfNotOver, pause_view, turn_view};

use crate::handing::result_in;
use crate::stop::{Pause, Stop};
use gas_meter::{Meter, Schedule};
use gas_store::Scoped;
use host_imports::{CallFault, Handled, handle};
use kv_layers::{Base, Layers};
use std::alloc::Global;
use wasm_machine::{Machine, Phase, Turn};

/// What comes of what the machine came to.
fn settle<B: Base>(
    alloc: Global,
    turn: Turn,
    machine: &mut Machine,
    store: &mut Scoped,
    layers: &mut Layers<B>,
    prefix: &str,
    meter: &mut Meter,
    costs: &Schedule,
) -> Result<Option<Pause>, Stop>
    requires phase { phase_of machine.old ≡ after_turn (standing_of turn) Phase.Ready }
    requires costs { IsInRange costs.now }
    requires prefix { IsPrefix prefix.now }
    ensures does { Does B.stands_for layers.old layers.new store.old store.new
        machine.old machine.new meter.old.left meter.new.left
        (comes_to (setting costs.now (is_read_only store.old) prefix.now) (standing_of turn))
        turn_view result }
    ensures paused { IfOk result (λ pause. IsPaused pause machine.new) }
    ensures asks { IfOk result (λ pause. IfNotOver pause (IsAsk turn)) }
    ensures scope { IsSameScope store.old store.new }
    ensures layers { depth layers.new ≡ depth layers.old }
    ensures unchanged { IsTrue (is_read_only store.old) → Turns B.stands_for layers.old layers.new (λ maps. maps) }
    ensures module { module_of machine.new ≡ module_of machine.old }
    ensures spends { meter.new.left ≤ meter.old.left }
    ensures used { meter.new.left + meter.new.used ≡ meter.old.left + meter.old.used }
{
    match turn {
        Turn::Done(value) => match result_in(alloc, machine, value, meter, costs) {
            Ok(bytes) => Ok(Some(Pause::Finished(bytes))),
            Err(stop) => Err(stop),
        },
        Turn::Trap(kind) => Err(Stop::Fault(CallFault::Trap(kind))),
        Turn::OutOfGas => Err(Stop::OutOfGas),
        Turn::Ask { import, args } => {
            match handle(
                alloc, import, &args, machine, store, layers, prefix, meter, costs,
            ) {
                Ok(Handled::Answered) => Ok(None),
                Ok(Handled::WantsQuery(request)) => Ok(Some(Pause::Query(request))),
                Ok(Handled::Fault(fault)) => Err(Stop::Fault(fault)),
                Ok(Handled::OutOfGas) => Err(Stop::OutOfGas),
                Err(_) => Err(Stop::NoMemory),
            }
        }
    }
}

/// Runs the machine up to its end or to an import, which the host then answers.
fn turn<B: Base>(
    alloc: Global,
    machine: &mut Machine,
    store: &mut Scoped,
    layers: &mut Layers<B>,
    prefix: &str,
    meter: &mut Meter,
    costs: &Schedule,
) -> Result<Option<Pause>, Stop>
    requires phase { phase_of machine.old ≡ Phase.Ready }
    requires costs { IsInRange costs.now }
    requires prefix { IsPrefix prefix.now }
    ensures does { Does B.stands_for layers.old layers.new store.old store.new
        machine.old machine.new meter.old.left meter.new.left
        (turn (setting costs.now (is_read_only store.old) prefix.now)) turn_view result }
    ensures paused { IfOk result (λ pause. IsPaused pause machine.new) }
    ensures falls { IfOk result (λ pause. IfNotOver pause
        (¬ HasUnbegunCall machine.old → meter.new.left < meter.old.left)) }
    ensures scope { IsSameScope store.old store.new }
    ensures layers { depth layers.new ≡ depth layers.old }
    ensures unchanged { IsTrue (is_read_only store.old) → Turns B.stands_for layers.old layers.new (λ maps. maps) }
    ensures module { module_of machine.new ≡ module_of machine.old }
    ensures spends { meter.new.left ≤ meter.old.left }
    ensures used { meter.new.left + meter.new.used ≡ meter.old.left + meter.old.used }
{
    match machine.run(alloc, meter, costs) {
        Ok(turn) => settle(alloc, turn, machine, store, layers, prefix, meter, costs),
        Err(_) => Err(Stop::NoMemory),
    }
}

/// Goes on after a first turn, up to the call's end or its next query.
fn go_on<B: Base>(
    alloc: Global,
    machine: &mut Machine,
    store: &mut Scoped,
    layers: &mut Layers<B>,
    prefix: &str,
    meter: &mut Meter,
    costs: &Schedule,
) -> Result<Pause, Stop>
    requires phase { phase_of machine.old ≡ Phase.Ready }
    requires begun { ¬ HasUnbegunCall machine.old }
    requires costs { IsInRange costs.now }
    requires prefix { IsPrefix prefix.now }
    ensures does { (n : ℕ) → meter.old.left < n → Does B.stands_for layers.old layers.new store.old store.new
        machine.old machine.new meter.old.left meter.new.left
        (turns (setting costs.now (is_read_only store.old) prefix.now) n) pause_view result }
    ensures paused { IfOk result (λ pause. IsPaused (Some pause) machine.new) }
    ensures falls { IfOk result (λ pause. IfNotOver (Some pause) (meter.new.left < meter.old.left)) }
    ensures scope { IsSameScope store.old store.new }
    ensures layers { depth layers.new ≡ depth layers.old }
    ensures unchanged { IsTrue (is_read_only store.old) → Turns B.stands_for layers.old layers.new (λ maps. maps) }
    ensures module { module_of machine.new ≡ module_of machine.old }
    ensures spends { meter.new.left ≤ meter.old.left }
    ensures used { meter.new.left + meter.new.used ≡ meter.old.left + meter.old.used }
{
    loop {
        match turn(alloc, machine, store, layers, prefix, meter, costs) {
            Ok(Some(pause)) => return Ok(pause),
            Ok(None) => {}
            Err(stop) => return Err(stop),
        }
    }
}

/// Runs the contract up to its end or its next query.
pub(crate) fn run<B: Base>(
    alloc: Global,
    machine: &mut Machine,
    store: &mut Scoped,
    layers: &mut Layers<B>,
    prefix: &str,
    meter: &mut Meter,
    costs: &Schedule,
) -> Result<Pause, Stop>
    requires phase { phase_of machine.old ≡ Phase.Ready }
    requires costs { IsInRange costs.now }
    requires prefix { IsPrefix prefix.now }
    ensures does { Does B.stands_for layers.old layers.new store.old store.new
        machine.old machine.new meter.old.left meter.new.left
        (runs (setting costs.now (is_read_only store.old) prefix.now)) pause_view result }
    ensures paused { IfOk result (λ pause. IsPaused (Some pause) machine.new) }
    ensures falls { IfOk result (λ pause. IfNotOver (Some pause)
        (¬ HasUnbegunCall machine.old → meter.new.left < meter.old.left)) }
    ensures scope { IsSameScope store.old store.new }
    ensures layers { depth layers.new ≡ depth layers.old }
    ensures unchanged { IsTrue (is_read_only store.old) → Turns B.stands_for layers.old layers.new (λ maps. maps) }
    ensures module { module_of machine.new ≡ module_of machine.old }
    ensures spends { meter.new.left ≤ meter.old.left }
    ensures used { meter.new.left + meter.new.used ≡ meter.old.left + meter.old.used }
{
    match turn(alloc, machine, store, layers, prefix, meter, costs) {
        Ok(Some(pause)) => Ok(pause),
        Ok(None) => go_on(alloc, machine, store, layers, prefix, meter, costs),
        Err(stop) => Err(stop),
    }
}
