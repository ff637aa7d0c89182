//! A map of bytes as shared sorted runs of changes. To keep another map costs what was changed.
#![tactic(auto)]

mod laws;
mod merge;
mod run;
mod runs;
mod snapshot;

pub use laws::each_has_one_map;
pub use snapshot::Snapshot;
