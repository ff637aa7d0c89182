ghost use Rattle.linear_memory.specs.Numbers.{IsWidth};

use crate::{gas, machines, memory, modules, numbers, snapshots, state};
use anyhow::{Result, anyhow};
use bench_words::Kernel;
use std::alloc::{AllocError, Global};
use std::io::Read;
use std::sync::Arc;
use wasm_reader::read;

const ADD: u8 = 0x6A;

const DIV_S: u8 = 0x7F;

fn add(alloc: Global, count: u32) -> Result<u64, AllocError> {
    let code = numbers::code_of(alloc, ADD)?;
    Ok(numbers::binary_add(&code, count))
}

fn divide(alloc: Global, count: u32) -> Result<u64, AllocError> {
    let code = numbers::code_of(alloc, DIV_S)?;
    Ok(numbers::binary_div(&code, count))
}

fn load(alloc: Global, width: u8, count: u32) -> Result<u64, AllocError>
    requires { IsWidth width }
{
    let memory = memory::filled(alloc)?;
    Ok(memory::load(&memory, width, count))
}

fn store(alloc: Global, width: u8, count: u32) -> Result<u64, AllocError>
    requires { IsWidth width }
{
    let mut memory = memory::filled(alloc)?;
    Ok(memory::store(&mut memory, width, count))
}

fn charge(alloc: Global, count: u32) -> Result<u64, AllocError> {
    let costs = gas::costs(alloc)?;
    Ok(gas::charge(&costs, count))
}

fn input(rt: &(impl Input + AllocGlobal)) -> Result<Vec<u8>> {
    let mut bytes = Vec::new(rt.alloc());
    rt.reader().read_to_end(&mut bytes)?;
    Ok(bytes)
}

/// Reads the module on standard input so often.
fn read_module(rt: &(impl Input + AllocGlobal), count: u32) -> Result<u64> {
    let bytes = input(rt)?;
    match modules::read_module(rt.alloc(), &bytes, count) {
        Ok(sum) => Ok(sum),
        Err(stop) => Err(anyhow!("the module cannot be read: {stop:?}")),
    }
}

/// Runs the export `run` of the module on standard input so often.
fn run_module(rt: &(impl Input + AllocGlobal), count: u32) -> Result<u64> {
    let bytes = input(rt)?;
    let module = match read(rt.alloc(), &bytes) {
        Ok(module) => Arc::new(rt.alloc(), module)?,
        Err(stop) => return Err(anyhow!("the module cannot be read: {stop:?}")),
    };
    match machines::run_module(rt.alloc(), &module, count)? {
        Some(sum) => Ok(sum),
        None => Err(anyhow!("no number comes from the module's run")),
    }
}

/// The work on layers over a base of so many keys.
fn layers(alloc: Global, kernel: Kernel, count: u32) -> Result<u64, AllocError> {
    let layers = state::layers(alloc, count)?;
    match kernel {
        Kernel::LayersGet => state::get(alloc, &layers, count),
        Kernel::LayersNext => state::next(alloc, &layers, count),
        Kernel::LayersKeep => state::keep_all(alloc, layers, count),
        _ => Ok(layers.depth() as u64),
    }
}

/// The work on a map of so many keys.
fn plain(alloc: Global, kernel: Kernel, count: u32) -> Result<u64, AllocError> {
    let plain = state::base(alloc, count)?;
    match kernel {
        Kernel::PlainGet => state::get(alloc, &plain, count),
        _ => state::next(alloc, &plain, count),
    }
}

/// The work on a map of so many keys in as many runs as standard input says.
fn runs(rt: &(impl Input + AllocGlobal), kernel: Kernel, count: u32) -> Result<u64> {
    let alloc = rt.alloc();
    let bytes = input(rt)?;
    let Ok(number) = str::from_utf8(&bytes) else {
        return Err(anyhow!("no number of runs is on standard input"));
    };
    let Ok(runs) = number.trim().parse::<u32>() else {
        return Err(anyhow!("no number of runs is on standard input"));
    };
    let snapshot = snapshots::snapshot(alloc, count, runs)?;
    let sum = match kernel {
        Kernel::RunsGet => state::get(alloc, &snapshot, count)?,
        Kernel::RunsNext => state::next(alloc, &snapshot, count)?,
        Kernel::RunsChange => snapshots::change_all(alloc, &snapshot)?,
        Kernel::RunsMerge => snapshots::merge_all(alloc, &snapshot)?,
        _ => u64::from(snapshot.runs()),
    };
    Ok(sum)
}

/// Does the work of a kernel so often, and answers its checksum.
pub fn run(rt: &(impl Input + AllocGlobal), kernel: Kernel, count: u32) -> Result<u64> {
    let alloc = rt.alloc();
    let sum = match kernel {
        Kernel::BinaryAdd => add(alloc, count)?,
        Kernel::BinaryDiv => divide(alloc, count)?,
        Kernel::Load1 => load(alloc, 1, count)?,
        Kernel::Load2 => load(alloc, 2, count)?,
        Kernel::Load4 => load(alloc, 4, count)?,
        Kernel::Load8 => load(alloc, 8, count)?,
        Kernel::Store8 => store(alloc, 8, count)?,
        Kernel::Charge => charge(alloc, count)?,
        Kernel::ReadModule => read_module(rt, count)?,
        Kernel::RunModule => run_module(rt, count)?,
        Kernel::LayersNew | Kernel::LayersGet | Kernel::LayersNext | Kernel::LayersKeep => layers(
            alloc, kernel, count,
        )?,
        Kernel::PlainGet | Kernel::PlainNext => plain(alloc, kernel, count)?,
        Kernel::RunsNew
        | Kernel::RunsGet
        | Kernel::RunsNext
        | Kernel::RunsChange
        | Kernel::RunsMerge => runs(rt, kernel, count)?,
    };
    Ok(sum)
}
