ghost use Rattle.std.specs.Prelude.{◌≡◌, take, drop, map};
ghost use Rattle.std.specs.List.{list_all};
ghost use Rattle.wasm_types.specs.Plain.{plain_func_type};
ghost use Rattle.wasm_types.specs.Typing as typing;
ghost use Rattle.wasm_types.specs.Typing.{numeric, op_rule, call_rule, call_indirect_rule, branch_rule, branch_if_rule, local_needed, global_get_rule, global_set_rule, index_rule, table_rule, memory_rule, type_of};
ghost use Rattle.wasm_valid.specs.Rules.{plain_rule, shown, call_of, is_label, is_label_of};
ghost use Rattle.wasm_valid.specs.Contexts.{plain_context};
ghost use Rattle.wasm_valid.specs.Frames.{labels, frames};

use crate::access::{accessed, natural_alignment};
use crate::blocks::Blocks;
use crate::context::{Context, local_type};
use crate::rule::{Rule, Takes};
use wasm_types::{FuncType, Instr, ValType, ValidKind, Value};

fn one<'a>(takes: ValType, gives: ValType) -> Rule<'a>
    ensures { plain_rule result ≡ typing.one takes gives }
{
    Rule::Turns {
        takes: Takes::one(takes),
        gives: Some(gives),
    }
}

fn two<'a>(takes: ValType, gives: ValType) -> Rule<'a>
    ensures { plain_rule result ≡ typing.two takes gives }
{
    Rule::Turns {
        takes: Takes::two(takes, takes),
        gives: Some(gives),
    }
}

/// The type of a numeric instruction.
#[tactic(auto, unfolding(wasm_types::specs::Typing::numeric))]
fn numeric<'a>(op: u8) -> Rule<'a>
    ensures { plain_rule result ≡ numeric op }
{
    match op {
        0x45 | 0x67..=0x69 | 0xC0 | 0xC1 => one(ValType::I32, ValType::I32),
        0x46..=0x4F | 0x6A..=0x78 => two(ValType::I32, ValType::I32),
        0x50 | 0xA7 => one(ValType::I64, ValType::I32),
        0x51..=0x5A => two(ValType::I64, ValType::I32),
        0x79..=0x7B | 0xC2..=0xC4 => one(ValType::I64, ValType::I64),
        0x7C..=0x8A => two(ValType::I64, ValType::I64),
        0xAC | 0xAD => one(ValType::I32, ValType::I64),
        _ => Rule::Turns {
            takes: Takes::nothing(),
            gives: None,
        },
    }
}

/// The type of the instruction, where there is a memory.
fn with_memory<'a>(c: &Context<'_>, rule: Rule<'a>) -> Result<Rule<'a>, ValidKind>
    ensures { shown result ≡ typing.memory_needed (plain_context c.now) (plain_rule rule.entry) }
{
    if c.memories > 0 {
        Ok(rule)
    } else {
        Err(ValidKind::MemoryIndex)
    }
}

/// The type of an instruction that is an opcode alone.
#[tactic(auto, unfolding(wasm_types::specs::Typing::op_rule))]
fn op_rule<'a>(c: &Context<'a>, op: u8) -> Result<Rule<'a>, ValidKind>
    ensures { shown result ≡ op_rule (plain_context c.now) op }
{
    match op {
        0x00 => Ok(Rule::Jumps {
            takes: Takes::nothing(),
        }),
        0x0F => Ok(Rule::Jumps {
            takes: Takes::some(c.result),
        }),
        0x1A => Ok(Rule::Drops),
        0x1B => Ok(Rule::Selects),
        0x3F => with_memory(
            c,
            Rule::Turns {
                takes: Takes::nothing(),
                gives: Some(ValType::I32),
            },
        ),
        0x40 => with_memory(c, one(ValType::I32, ValType::I32)),
        _ => Ok(numeric(op)),
    }
}

/// The type of a call of a function of this type.
fn called<'a>(types: &'a [FuncType], ty: u32, top: Option<ValType>) -> Result<Rule<'a>, ValidKind>
    ensures { shown result ≡ call_of (map plain_func_type types.now) ty top }
{
    match types.get(ty as usize) {
        Some(callee) => Ok(Rule::Turns {
            takes: Takes {
                top,
                below: None,
                callee: Some(callee),
            },
            gives: callee.result,
        }),
        None => Err(ValidKind::TypeIndex),
    }
}

fn call_rule<'a>(c: &Context<'a>, func: u32) -> Result<Rule<'a>, ValidKind>
    ensures { shown result ≡ call_rule (plain_context c.now) func }
{
    match c.funcs.get(func as usize) {
        Some(ty) => called(c.types, *ty, None),
        None => Err(ValidKind::FuncIndex),
    }
}

fn call_indirect_rule<'a>(c: &Context<'a>, ty: u32) -> Result<Rule<'a>, ValidKind>
    ensures { shown result ≡ call_indirect_rule (plain_context c.now) ty }
{
    if c.tables == 0 {
        return Err(ValidKind::TableIndex);
    }
    called(c.types, ty, Some(ValType::I32))
}

fn branch_rule<'a>(blocks: &Blocks, label: u32) -> Result<Rule<'a>, ValidKind>
    ensures { shown result ≡ branch_rule (labels (frames blocks.now)) label }
{
    match blocks.label(label) {
        Some(t) => Ok(Rule::Jumps {
            takes: Takes::some(t),
        }),
        None => Err(ValidKind::Label),
    }
}

fn branch_if_rule<'a>(blocks: &Blocks, label: u32) -> Result<Rule<'a>, ValidKind>
    ensures { shown result ≡ branch_if_rule (labels (frames blocks.now)) label }
{
    match blocks.label(label) {
        Some(t) => Ok(Rule::Turns {
            takes: Takes {
                top: Some(ValType::I32),
                below: t,
                callee: None,
            },
            gives: t,
        }),
        None => Err(ValidKind::Label),
    }
}

fn local_rule<'a>(op: u8, t: ValType) -> Rule<'a>
    ensures { plain_rule result ≡ typing.local_rule op t }
{
    match op {
        0x20 => Rule::Turns {
            takes: Takes::nothing(),
            gives: Some(t),
        },
        0x21 => Rule::Turns {
            takes: Takes::one(t),
            gives: None,
        },
        _ => one(t, t),
    }
}

fn local_needed<'a>(c: &Context<'a>, op: u8, local: u32) -> Result<Rule<'a>, ValidKind>
    ensures { shown result ≡ local_needed (plain_context c.now) op local }
{
    match local_type(c.params, c.locals, local) {
        Some(t) => Ok(local_rule(op, t)),
        None => Err(ValidKind::LocalIndex),
    }
}

fn global_get_rule<'a>(c: &Context<'a>, i: u32) -> Result<Rule<'a>, ValidKind>
    ensures { shown result ≡ global_get_rule (plain_context c.now) i }
{
    match c.globals.get(i as usize) {
        Some(g) => Ok(Rule::Turns {
            takes: Takes::nothing(),
            gives: Some(g.ty),
        }),
        None => Err(ValidKind::GlobalIndex),
    }
}

fn global_set_rule<'a>(c: &Context<'a>, i: u32) -> Result<Rule<'a>, ValidKind>
    ensures { shown result ≡ global_set_rule (plain_context c.now) i }
{
    match c.globals.get(i as usize) {
        Some(g) => {
            if !g.mutable {
                return Err(ValidKind::Immutable);
            }
            Ok(Rule::Turns {
                takes: Takes::one(g.ty),
                gives: None,
            })
        }
        None => Err(ValidKind::GlobalIndex),
    }
}

/// The type of an instruction with an index.
#[tactic(auto, unfolding(wasm_types::specs::Typing::index_rule))]
fn index_rule<'a>(c: &Context<'a>, blocks: &Blocks, op: u8, i: u32) -> Result<Rule<'a>, ValidKind>
    ensures { shown result ≡ index_rule (plain_context c.now) (labels (frames blocks.now)) op i }
{
    match op {
        0x0C => branch_rule(blocks, i),
        0x0D => branch_if_rule(blocks, i),
        0x10 => call_rule(c, i),
        0x23 => global_get_rule(c, i),
        0x24 => global_set_rule(c, i),
        _ => local_needed(c, op, i),
    }
}

/// Whether the label is there.
fn is_label(blocks: &Blocks, label: u32) -> bool
    ensures { result ≡ is_label (labels (frames blocks.now)) label }
{
    label as usize <= blocks.outer.len()
}

/// Whether the label is there, and is of this type.
fn is_of(blocks: &Blocks, t: Option<ValType>, label: u32) -> bool
    ensures { result ≡ is_label_of (labels (frames blocks.now)) t label }
{
    blocks.label(label) == Some(t)
}

fn are_labels(blocks: &Blocks, targets: &[u32]) -> bool
    ensures { result ≡ list_all (is_label (labels (frames blocks.now))) targets.now }
{
    targets.iter().all(|label| is_label(blocks, *label))
}

fn are_of(blocks: &Blocks, t: Option<ValType>, targets: &[u32]) -> bool
    ensures { result ≡ list_all (is_label_of (labels (frames blocks.now)) t) targets.now }
{
    targets.iter().all(|label| is_of(blocks, t, *label))
}

/// The labels of one `br_table`.
fn targets_of<'a>(targets: &'a [u32], first: u32, count: u32) -> &'a [u32]
    ensures { result.now ≡ take count (drop first targets.now) }
{
    let from = targets.len().min(first as usize);
    let own = &targets[from..];
    &own[..own.len().min(count as usize)]
}

/// The type of a branch by a table. All its labels have to be there, and to be of one type.
#[tactic(auto, unfolding(wasm_types::specs::Typing::table_rule))]
fn table_rule<'a>(blocks: &Blocks, targets: &[u32], default: u32) -> Result<Rule<'a>, ValidKind>
    ensures { shown result ≡ table_rule (labels (frames blocks.now)) targets.now default }
{
    match blocks.label(default) {
        None => Err(ValidKind::Label),
        Some(t) => {
            if !are_labels(blocks, targets) {
                return Err(ValidKind::Label);
            }
            if !are_of(blocks, t, targets) {
                return Err(ValidKind::Mismatch);
            }
            Ok(Rule::Jumps {
                takes: Takes {
                    top: Some(ValType::I32),
                    below: t,
                    callee: None,
                },
            })
        }
    }
}

fn access_rule<'a>(op: u8) -> Rule<'a>
    ensures { plain_rule result ≡ typing.access_rule op }
{
    let t = accessed(op);
    if op <= 0x35 {
        return one(ValType::I32, t);
    }
    Rule::Turns {
        takes: Takes::two(t, ValType::I32),
        gives: None,
    }
}

fn memory_rule<'a>(c: &Context<'a>, op: u8, align: u32) -> Result<Rule<'a>, ValidKind>
    ensures { shown result ≡ memory_rule (plain_context c.now) op align }
{
    if c.memories == 0 {
        return Err(ValidKind::MemoryIndex);
    }
    if align > natural_alignment(op) {
        return Err(ValidKind::Align);
    }
    Ok(access_rule(op))
}

pub fn type_of(value: Value) -> ValType
    ensures { result ≡ type_of value }
{
    match value {
        Value::I32(_) => ValType::I32,
        Value::I64(_) => ValType::I64,
    }
}

/// The type of an instruction that holds no others.
#[tactic(auto, unfolding(wasm_types::specs::Typing::rule))]
pub fn rule<'a>(c: &Context<'a>, blocks: &Blocks, instr: Instr) -> Result<Rule<'a>, ValidKind>
    ensures { shown result ≡ typing.rule (plain_context c.now) (labels (frames blocks.now)) instr }
{
    match instr {
        Instr::Op(op) => op_rule(c, op),
        Instr::Index { op, index } => index_rule(c, blocks, op, index),
        Instr::CallIndirect { ty } => call_indirect_rule(c, ty),
        Instr::BrTable {
            first,
            count,
            default,
        } => table_rule(blocks, targets_of(c.targets, first, count), default),
        Instr::Mem { op, align, .. } => memory_rule(c, op, align),
        Instr::Const(value) => Ok(Rule::Turns {
            takes: Takes::nothing(),
            gives: Some(type_of(value)),
        }),
        Instr::Block { .. }
        | Instr::Loop { .. }
        | Instr::If { .. }
        | Instr::Else { .. }
        | Instr::End => Ok(Rule::Turns {
            takes: Takes::nothing(),
            gives: None,
        }),
    }
}
