//! Which bytes the host takes as a contract's code, and where the code's module comes from.
#![tactic(auto)]

mod code;
mod exports;
mod gate;
mod imports;
mod interface;
mod judging;
mod laws;
mod modules;
mod segments;
mod served;
mod signature;
mod sizes;
mod stop;
mod text;

pub use code::ValidCode;
pub use gate::{check, taken_is_accepted};
pub use laws::{accepted_are_contracts, decoded_are_spelled, fetches_join, taken_are_contracts};
pub use modules::{Decoding, Modules};
pub use served::Served;
pub use stop::GateStop;
pub use text::refusal_text;
