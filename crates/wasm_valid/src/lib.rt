//! Which WebAssembly 1.0 modules are valid, and the first fault of one that isn't.
#![tactic(auto)]

mod access;
mod blocks;
mod bodies;
mod body;
mod context;
mod exports;
mod imports;
mod items;
mod limits;
mod operands;
mod rule;
mod rules;
mod spaces;
mod stop;
mod validity;

pub use spaces::function_types;
pub use stop::ValidStop;
pub use validity::valid;
