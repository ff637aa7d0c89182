ghost use Rattle.gas_meter.specs.Ranges.{IsInRange};

use gas_meter::{Meter, Schedule};
use std::alloc::{AllocError, Global};
use std::sync::Arc;
use wasm_machine::{Machine, Turn};
use wasm_types::{Ext, Module, Value};

/// The function that a module exports as `run`.
fn run_of(module: &Module) -> Option<u32> {
    for export in module.exports.iter() {
        if let Ext::Func(func) = export.ext {
            if export.name.as_str() == "run" {
                return Some(func);
            }
        }
    }
    None
}

/// The number that a function without parameters gives in a new machine. There is none where it gives no
/// number, or traps.
fn number_of(
    alloc: Global,
    module: Arc<Module>,
    func: u32,
    costs: &Schedule,
) -> Result<Option<u64>, AllocError>
    requires { IsInRange costs.now }
{
    let mut machine = Machine::new(alloc, module)?;
    machine.call(func, &[])?;
    let mut meter = Meter::new(u64::MAX);
    match machine.run(alloc, &mut meter, costs)? {
        Turn::Done(Some(Value::I32(number))) => Ok(Some(u64::from(number))),
        Turn::Done(Some(Value::I64(number))) => Ok(Some(number)),
        _ => Ok(None),
    }
}

/// Runs the export `run` of a module so often, each time in a new machine, and sums what it gives.
pub fn run_module(
    alloc: Global,
    module: &Arc<Module>,
    count: u32,
) -> Result<Option<u64>, AllocError> {
    let Some(func) = run_of(module) else {
        return Ok(None);
    };
    let costs = Schedule::standard();
    let mut sum = 0u64;
    for _ in 0..count {
        let Some(number) = number_of(alloc, module.clone()?, func, &costs)? else {
            return Ok(None);
        };
        sum = sum.wrapping_add(number);
    }
    Ok(Some(sum))
}
