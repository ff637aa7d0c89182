//! What follows from the definition of a file. The function here does nothing: its clauses are laws.

ghost use Rattle.module_file.specs.Laws.{ReadsWritten, ReadsOnlyWritten, TellsModules};

use wasm_types::spelled_are_bounded;

/// A module that has a spelling is read from its file, from no other bytes, and two modules have two
/// files.
pub fn files_tell_modules()
    ensures written { ReadsWritten }
    ensures only { ReadsOnlyWritten }
    ensures two { TellsModules }
{
    spelled_are_bounded();
}
