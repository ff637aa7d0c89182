//! What follows from the definitions of what bytes spell which module, and where bytes that spell none
//! break. Each function here does nothing: its clauses are laws.

ghost use Rattle.wasm_types.specs.Bounds.{SpelledAreBounded};
ghost use Rattle.wasm_types.specs.Faults.{BreakAtFirstPart, BreakWithin, HeaderFaults, TypeFaults, CodeFaults, ConstantFaults, SectionFaults};
ghost use Rattle.wasm_types.specs.Laws.{SpellsOnce, IsTheSpelled, BreaksOrSpells, WantsInstruction, WantsSameCount, CutsNumber, CutsHeader, CutsByte, CutsLength, SpelledAreShaped};

/// Bytes spell at most one module, and they break exactly where they spell none.
pub fn bytes_spell_or_break()
    ensures once { SpellsOnce }
    ensures spelled { IsTheSpelled }
    ensures broken { BreaksOrSpells }
{}

/// The kind of a fault is the first of these that holds: the nesting, where a body ends and an
/// instruction is wanted; the counts, where the input ends; a cut; and only then the part's own.
pub fn faults_come_in_order()
    ensures nesting { WantsInstruction }
    ensures count { WantsSameCount }
    ensures cut_number { CutsNumber }
    ensures cut_header { CutsHeader }
    ensures cut_byte { CutsByte }
    ensures cut_length { CutsLength }
{}

/// A fault is that of the first part that can't be read, from the front of the bytes, and it stands at
/// that part's first byte. It never stands past the end of the bytes.
pub fn faults_are_of_the_first_part()
    ensures first { BreakAtFirstPart }
    ensures within { BreakWithin }
{}

/// What each part breaks with, at the first byte of it that is another than its own.
pub fn faults_have_their_kinds()
    ensures header { HeaderFaults }
    ensures types { TypeFaults }
    ensures codes { CodeFaults }
    ensures constants { ConstantFaults }
    ensures sections { SectionFaults }
{}

/// A module that bytes spell has as many functions as codes, fewer than 2^32 items in each list, and
/// bodies that close just the blocks that they open.
pub fn spelled_are_shaped()
    ensures { SpelledAreShaped }
{}

/// A module that bytes spell keeps to the bounds of its numbers, lists and texts, so that a writer of
/// another format can give each of them its bits.
pub fn spelled_are_bounded()
    ensures { SpelledAreBounded }
{}
