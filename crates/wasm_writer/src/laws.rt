//! What follows from the definition of the shortest spelling. The function here does nothing: its clauses
//! are laws.

ghost use Rattle.wasm_writer.specs.Shortest.{SpellsShortest, ReadsAgain};

/// A module that has a spelling has a shortest one, which is the one that the definition gives; and the
/// module is what these bytes spell.
pub fn spellings_are_shortest()
    ensures shortest { SpellsShortest }
    ensures again { ReadsAgain }
{}
