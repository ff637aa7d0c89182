//! What follows from the definition of what a machine stands for. The functions here do nothing: their
//! clauses are laws.

ghost use Rattle.std.specs.Prelude.{◌≡◌, ◌≢◌, ℕ, ◌+◌, ◌<◌, ◌++◌, List, [], ◌∷◌};
ghost use Rattle.gas_meter.specs.declared.schedule.Schedule.{Schedule};
ghost use Rattle.wasm_types.specs.declared.value.Value.{Value};
ghost use Rattle.wasm_types.specs.Plain.{PlainModule};
ghost use Rattle.wasm_machine.specs.Acts.{Act, go, out_of_gas, ask, with_more_left, gas_aside};
ghost use Rattle.wasm_machine.specs.Start.{imported};
ghost use Rattle.wasm_machine.specs.Exec.{exec};
ghost use Rattle.wasm_machine.specs.Machine.{module_of, plain_of, memory_of, phase_of, stands_after, StandsFor};
ghost use Rattle.wasm_machine.specs.Phases.{IsReady};

use crate::machine::Machine;
use crate::turn::Phase;

/// Machines of one module that stand for the same acts have the same memory. A call that ended with a
/// trap or without gas leaves a machine that no further act changes.
pub fn acts_tell_what_stands()
    ensures memory { (one other : Machine) (acts : List Act) → module_of one ≡ module_of other →
        StandsFor one acts → StandsFor other acts → memory_of one ≡ memory_of other }
    ensures spent { (machine : Machine) (acts more : List Act) → StandsFor machine acts →
        phase_of machine ≡ Phase.Spent → stands_after machine (acts ++ more) ≡ stands_after machine acts }
{}

/// What a machine that is ready comes to before its gas runs out, it comes to with more gas too: the same
/// turn, the same memory and globals, and all that is more is left. Whatever acts come later, they come to
/// the same too, but for the gas that is left.
pub fn more_gas_only_leaves_more()
    ensures left { (machine : Machine) (acts : List Act) (gas more : ℕ) (costs : Schedule) →
        StandsFor machine acts → IsReady (phase_of machine) →
        (stands_after machine (acts ++ go gas costs ∷ [])).standing ≢ out_of_gas →
        stands_after machine (acts ++ go (gas + more) costs ∷ [])
        ≡ with_more_left more (stands_after machine (acts ++ go gas costs ∷ [])) }
    ensures later { (machine : Machine) (acts later : List Act) (gas more : ℕ) (costs : Schedule) →
        StandsFor machine acts → IsReady (phase_of machine) →
        (stands_after machine (acts ++ go gas costs ∷ [])).standing ≢ out_of_gas →
        gas_aside (stands_after machine (acts ++ go (gas + more) costs ∷ later))
        ≡ gas_aside (stands_after machine (acts ++ go gas costs ∷ later)) }
{}

/// Whatever a host does, it is asked for nothing but imported functions.
pub fn asks_name_imports()
    ensures module { (m : PlainModule) (acts : List Act) (i : ℕ) (args : List Value) →
        (exec m acts).standing ≡ ask i args → i < imported m }
    ensures machine { (machine : Machine) (acts : List Act) (i : ℕ) (args : List Value) →
        (stands_after machine acts).standing ≡ ask i args → i < imported (plain_of machine) }
{}
