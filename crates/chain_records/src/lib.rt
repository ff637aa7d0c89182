//! Keys and records of the chain's state, as bytes and back.
#![tactic(auto)]

mod fault;
mod field;
mod key;
mod key_reading;
mod key_writing;
mod laws;
mod reading;
mod record;
mod record_reading;
mod record_writing;

pub use fault::RecordFault;
pub use key::Key;
pub use key_reading::key_of;
pub use key_writing::key_bytes;
pub use laws::{
    bytes_tell_keys, bytes_tell_records, codes_are_stored_whole, facts_and_counters_begin_a_chain,
    keys_keep_their_order, maps_give_records, maps_tell_states, one_record_changes,
    records_change_together, whole_maps_spell_states,
};
pub use record::{CodeInfo, Contract, Counters, Facts, Stored};
pub use record_reading::stored_of;
pub use record_writing::stored_bytes;
