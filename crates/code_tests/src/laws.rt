//! What callers make of the laws.

ghost use Rattle.std.specs.Prelude.{◌≤◌, ℕ, List, [], ◌∷◌, All, length, false};
ghost use Rattle.wasm_types.specs.declared.kind.ReadKind.TheVariants.{Form, Nesting};
ghost use Rattle.wasm_types.specs.Place.{Broken};
ghost use Rattle.wasm_types.specs.Plain.{PlainModule};
ghost use Rattle.wasm_types.specs.Types.{func_type};
ghost use Rattle.wasm_types.specs.Body.{opcode};
ghost use Rattle.wasm_types.specs.ModuleText.{AreBytes, IsModule, HasSpelling, BreaksThere};
ghost use Rattle.wasm_types.specs.Laws.{AreFew};
ghost use Rattle.wasm_types.specs.Bounds.{IsCode};
ghost use Rattle.wasm_types.specs.Faults.{BreaksWith};

use wasm_types::{
    bytes_spell_or_break, faults_are_of_the_first_part, faults_come_in_order,
    faults_have_their_kinds, spelled_are_bounded,
};

/// Bytes that break spell no module, and they break at one of them or at their end.
pub(crate) fn what_breaks_spells_nothing()
    ensures { (bytes : List ℕ) (fault : Broken) → AreBytes bytes → BreaksThere bytes fault
        → (fault.at ≤ length bytes) × ((m : PlainModule) → IsModule bytes m → ⊥) }
{
    bytes_spell_or_break();
    faults_are_of_the_first_part();
}

/// A body that ends where an instruction is wanted, and a type that begins with 61.
pub(crate) fn two_faults()
    ensures no_end { BreaksWith (opcode false).read Nesting 14 [] }
    ensures form { BreaksWith func_type.read Form 11 (0x61 ∷ []) }
{
    faults_come_in_order();
    faults_have_their_kinds();
}

/// Imports that are counted by 32 bits, and codes within their bounds.
pub(crate) fn what_is_spelled_can_be_counted()
    ensures imports { (m : PlainModule) → HasSpelling m → AreFew m.imports }
    ensures codes { (m : PlainModule) → HasSpelling m → All IsCode m.codes }
{
    spelled_are_bounded();
}
