//! What callers make of the laws.

ghost use Rattle.std.specs.Prelude.{◌≡◌, ℕ, List};
ghost use Rattle.wasm_types.specs.Plain.{PlainModule};
ghost use Rattle.wasm_types.specs.ModuleText.{AreBytes};
ghost use Rattle.module_file.specs.ModuleFile.{IsFileOf};

use module_file::files_tell_modules;
use wasm_types::bytes_spell_or_break;

/// A file is that of one module, whichever code it is the file of.
pub(crate) fn files_are_of_one_module()
    ensures { (bytes one other : List ℕ) (m n : PlainModule) → AreBytes one → AreBytes other
        → IsFileOf bytes one m → IsFileOf bytes other n → m ≡ n }
{
    bytes_spell_or_break();
    files_tell_modules();
}
