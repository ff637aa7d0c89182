//! A machine that runs the functions of a WebAssembly 1.0 module, pays for each instruction before its
//! effect, and pauses where an import is called.
#![tactic(auto)]

mod advance;
mod call;
mod control;
mod frame;
mod functions;
mod kind;
mod laws;
mod machine;
mod numbers;
mod pile;
mod prices;
mod run;
mod start;
mod state;
mod stop;
mod turn;
mod values;

pub use laws::{acts_tell_what_stands, asks_name_imports, more_gas_only_leaves_more};
pub use machine::Machine;
pub use turn::{Phase, TrapKind, Turn};
