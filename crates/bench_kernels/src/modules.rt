use std::alloc::Global;
use wasm_reader::{ReadStop, read};
use wasm_types::Module;

/// How many instructions the bodies of a module have.
fn instructions(module: &Module) -> u64 {
    let mut sum = 0u64;
    for code in module.codes.iter() {
        sum = sum.wrapping_add(code.body.len() as u64);
    }
    sum
}

/// Reads a module so often, and sums its instructions.
pub fn read_module(alloc: Global, bytes: &[u8], count: u32) -> Result<u64, ReadStop> {
    let mut sum = 0u64;
    for _ in 0..count {
        let module = read(alloc, bytes)?;
        sum = sum.wrapping_add(instructions(&module));
    }
    Ok(sum)
}
