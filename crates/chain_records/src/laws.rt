//! What follows from the definitions. Each function here does nothing: its clauses are laws.

ghost use Rattle.chain_records.specs.Laws.{TellsKeys, TellsRecords, SpellsOnce, IsSpelledOnce, SpellsRecords, SpellsWritten, SpellsRemoved, SpellsChanged, SpellsCode, SpellsFirst, SpellsSome};
ghost use Rattle.chain_records.specs.Keys.{code, code_info, pin};
ghost use Rattle.chain_records.specs.Order.{OrdersNumbers, OrdersKinds};

/// Bytes are those of at most one key, so the key that was written is the one that is read.
pub fn bytes_tell_keys()
    ensures { TellsKeys }
{}

/// Under a key, bytes are those of at most one record, so the one that was written is read.
pub fn bytes_tell_records()
    ensures { TellsRecords }
{}

/// A map of bytes spells at most one state, and a state is spelled by at most one map.
pub fn maps_tell_states()
    ensures once { SpellsOnce }
    ensures only { IsSpelledOnce }
{}

/// What a map has under a key is the record that the state has there, or nothing where it has none.
pub fn maps_give_records()
    ensures { SpellsRecords }
{}

/// Where one record is written or removed, the state changes there and nowhere else.
pub fn one_record_changes()
    ensures written { SpellsWritten }
    ensures removed { SpellsRemoved }
{}

/// Where several records are written or removed, the state changes there and nowhere else.
pub fn records_change_together()
    ensures { SpellsChanged }
{}

/// A code is its bytes and its info together, and the next code gets the next number.
pub fn codes_are_stored_whole()
    ensures { SpellsCode }
{}

/// The map that has facts and counters alone spells the state that has nothing else.
pub fn facts_and_counters_begin_a_chain()
    ensures { SpellsFirst }
{}

/// A map that nobody wrote record by record, as one that is imported, spells a state exactly where this holds of it.
pub fn whole_maps_spell_states()
    ensures { SpellsSome }
{}

/// Keys of one kind stand in the order of their numbers, and kinds in the order of their first bytes.
pub fn keys_keep_their_order()
    ensures codes { OrdersNumbers code }
    ensures code_infos { OrdersNumbers code_info }
    ensures pins { OrdersNumbers pin }
    ensures kinds { OrdersKinds }
{}
