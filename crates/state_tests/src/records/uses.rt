//! What callers make of the laws.

ghost use Rattle.std.specs.Prelude.{◌≡◌, ◌<◌, ◌+◌, ◌^◌, List};
ghost use Rattle.std.specs.declared.cmp.Ordering.TheVariants.{Less};
ghost use Rattle.std.specs.Ordering.{nat_cmp};
ghost use Rattle.std.specs.Cmp.Lexicographic.{slice_cmp};
ghost use Rattle.chain_records.specs.Keys.{code, pin, key_bytes};
ghost use Rattle.chain_records.specs.Records.{IsCodeInfo};
ghost use Rattle.chain_records.specs.State.{Bytes, Code, State, Spells};
ghost use Rattle.chain_records.specs.Changes.{Change, AreChanges, ChangesBy, with_changes, code_changes};
ghost use Rattle.chain_records.specs.Spelling.{IsSpelling};

use chain_records::{
    codes_are_stored_whole, keys_keep_their_order, maps_tell_states, records_change_together,
    whole_maps_spell_states,
};

/// A map that spelled a state spells one too when a code was stored.
pub(super) fn a_stored_code_leaves_a_spelling()
    ensures { (map : Bytes) (s : State) (added : Code) → Spells map s → IsCodeInfo added.info
        → s.counters.next_code + 1 < 2 ^ 64
        → IsSpelling (with_changes map (code_changes s.counters added)) }
{
    codes_are_stored_whole();
    whole_maps_spell_states();
}

/// Changes that leave the state as it was leave the map as it was.
pub(super) fn changes_of_nothing_leave_the_map()
    ensures { (map : Bytes) (s : State) (changes : List Change) → Spells map s
        → AreChanges changes → ChangesBy s s changes → with_changes map changes ≡ map }
{
    records_change_together();
    maps_tell_states();
}

/// The bytes of the keys of two codes and of a pin, in their order.
pub(super) fn codes_stand_before_pins()
    ensures codes { slice_cmp nat_cmp (key_bytes (code 255)) (key_bytes (code 256)) ≡ Less }
    ensures kinds { slice_cmp nat_cmp (key_bytes (code 256)) (key_bytes (pin 1)) ≡ Less }
{
    keys_keep_their_order();
}
