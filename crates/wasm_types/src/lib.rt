//! The types of a WebAssembly 1.0 module, and readers of its numbers. The definitions of what bytes
//! spell which module stand in specs/.
#![tactic(auto)]

mod export;
mod func_type;
mod global;
mod import;
mod instr;
mod kind;
mod laws;
mod leb;
mod limits;
mod module;
mod opcode;
mod refusal;
mod segment;
mod sort;
mod value;

pub use export::{Export, Ext};
pub use func_type::FuncType;
pub use global::{GlobalVar, Init};
pub use import::{Desc, Import};
pub use instr::Instr;
pub use kind::{ReadKind, ValidKind};
pub use laws::{
    bytes_spell_or_break, faults_are_of_the_first_part, faults_come_in_order,
    faults_have_their_kinds, spelled_are_bounded, spelled_are_shaped,
};
pub use leb::{Leb, is_cut, read_s32, read_s64, read_u32};
pub use limits::Limits;
pub use module::{Code, HEADER, Module};
pub use opcode::{ConstOp, Shape, const_op_of, shape_of};
pub use refusal::GateRefusal;
pub use segment::{Elem, Seg};
pub use sort::Sort;
pub use value::{ValType, Value};
