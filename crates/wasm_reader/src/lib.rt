//! Reads WebAssembly 1.0 modules from bytes.
#![tactic(auto)]

mod body;
mod code;
mod cursor;
mod element;
mod globals;
mod imports;
mod instr;
mod locals;
mod nesting;
mod reading;
mod sections;
mod spelling;
mod stop;
mod text;
mod types;

pub use reading::read;
pub use spelling::spells;
pub use stop::ReadStop;
