ghost use Rattle.std.specs.Prelude.{◌≡◌, ◌≤◌, replicate, None, IfOk};
ghost use Rattle.linear_memory.specs.Pages.{most_pages};
ghost use Rattle.wasm_types.specs.Plain.{plain_module, plain_seg};
ghost use Rattle.wasm_machine.specs.Start.{init_value, offset_of, first_pages, first_cells, with_segment, with_funcs, start_memory, start_globals, table};

use linear_memory::Memory;
use std::alloc::{AllocError, Global};
use wasm_types::{Init, Limits, Module, Seg, Value};

fn init_value(init: Init) -> Value
    ensures { result ≡ init_value init }
{
    match init {
        Init::Const(value) => value,
        Init::Global(_) => Value::I32(0),
    }
}

fn offset_of(init: Init) -> u64
    ensures { result ≡ offset_of init }
{
    match init_value(init) {
        Value::I32(n) => u64::from(n),
        Value::I64(n) => n,
    }
}

fn write_segment(memory: &mut Memory, seg: &Seg)
    ensures { memory.new ≡ with_segment memory.old (plain_seg seg.now) }
{
    let _ = memory.write(offset_of(seg.offset), &seg.bytes);
}

/// How many pages the first memory has at the start.
fn first_pages(memories: &[Limits]) -> u32
    ensures pages { result ≡ first_pages memories.now }
    ensures most { result ≤ most_pages }
{
    match memories.first() {
        Some(limits) => limits.min.min(Memory::MOST_PAGES),
        None => 0,
    }
}

/// The memory that a module starts with.
#[tactic(auto, unfolding(crate::specs::Start::start_memory))]
pub(crate) fn start_memory(alloc: Global, m: &Module) -> Result<Memory, AllocError>
    ensures { IfOk result (λ memory. memory ≡ start_memory (plain_module m.now)) }
{
    let mut memory = Memory::new(alloc, first_pages(&m.memories))?;
    for seg in &m.segs {
        write_segment(&mut memory, seg);
    }
    Ok(memory)
}

/// The globals that a module starts with.
#[tactic(auto, unfolding(crate::specs::Start::start_globals))]
pub(crate) fn start_globals(alloc: Global, m: &Module) -> Result<Vec<Value>, AllocError>
    ensures { IfOk result (λ globals. globals.items ≡ start_globals (plain_module m.now)) }
{
    let mut globals = Vec::new(alloc);
    for global in &m.globals {
        globals.push(init_value(global.init))?;
    }
    Ok(globals)
}

/// Functions are put into the table, one after the other from a place on.
fn put_funcs(table: &mut [Option<u32>], offset: u64, funcs: &[u32])
    ensures { table.new ≡ with_funcs table.old offset funcs.now }
{
    let mut at = offset;
    for func in funcs {
        if at >= table.len() as u64 {
            return;
        }
        table[at as usize] = Some(*func);
        at += 1;
    }
}

/// How many places the first table has.
fn first_cells(tables: &[Limits]) -> u32
    ensures { result ≡ first_cells tables.now }
{
    match tables.first() {
        Some(limits) => limits.min,
        None => 0,
    }
}

/// A table without functions.
fn no_funcs(alloc: Global, cells: u32) -> Result<Vec<Option<u32>>, AllocError>
    ensures { IfOk result (λ table. table.items ≡ replicate cells None) }
{
    vec![in alloc; None; cells as usize]
}

/// The functions in the table.
#[tactic(auto, unfolding(crate::specs::Start::table))]
pub(crate) fn table(alloc: Global, m: &Module) -> Result<Vec<Option<u32>>, AllocError>
    ensures { IfOk result (λ cells. cells.items ≡ table (plain_module m.now)) }
{
    let mut table = no_funcs(alloc, first_cells(&m.tables))?;
    for elem in &m.elems {
        put_funcs(&mut table, offset_of(elem.offset), &elem.funcs);
    }
    Ok(table)
}
