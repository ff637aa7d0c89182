//! The numeric instructions of WebAssembly core 1.0 on i32 and i64, with sign extension.
#![tactic(auto)]

mod instructions;
mod num;
mod on_i32;
mod on_i64;

pub use instructions::{binary, is_binary, is_unary, unary};
pub use num::{Num, NumTrap};
