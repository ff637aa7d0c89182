//! Writes WebAssembly 1.0 modules in as few bytes as they can have.
#![tactic(auto)]

mod code;
mod globals;
mod imports;
mod laws;
mod locals;
mod number;
mod parts;
mod samples;
mod sections;
mod segments;
mod spell;
mod types;
mod writing;

pub use laws::spellings_are_shortest;
pub use samples::{common, echo, keeper, sign, spin};
pub use writing::write;
