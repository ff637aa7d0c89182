//! What follows from the definitions. Each function here does nothing: its clauses are laws.

ghost use Rattle.gas_store.specs.Typed.{SpellsStorage, SpellsChangedStorage};

use chain_records::bytes_tell_keys;

/// In a map that spells a state, a contract's storage is that of the state.
pub fn storages_are_typed()
    ensures { SpellsStorage }
{}

/// Where only a contract's own keys change, the map spells the state with its storage changed.
pub fn storages_change_alone()
    ensures { SpellsChangedStorage }
{
    bytes_tell_keys();
}
