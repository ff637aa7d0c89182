//! A contract whose functions are called, and what comes of the imports that it calls.

ghost use Rattle.std.specs.Prelude.{◌≡◌, IfOk};
ghost use Rattle.wasm_machine.specs.Machine.{phase_of};

use gas_meter::{Meter, Schedule};
use gas_store::Scoped;
use host_imports::{Handled, handle};
use kv_layers::{Layers, Plain};
use std::alloc::{AllocError, Global};
use std::process::Abort;
use std::sync::Arc;
use std::test::Fail;
use wasm_machine::{Machine, Phase, Turn};
use wasm_types::{
    Code, Desc, Export, Ext, FuncType, Import, Instr, Limits, Module, ValType, Value,
};

/// The types of the functions here: how many i32 go in, and what comes out.
const TYPES: [(usize, Option<ValType>); 6] = [
    (1, Some(ValType::I32)),
    (1, None),
    (2, None),
    (2, Some(ValType::I32)),
    (3, Some(ValType::I32)),
    (3, Some(ValType::I64)),
];

/// An import: its name and the place of its type.
pub(crate) type Imported = (&'static str, u32);

/// A module with this import and 8 pages of memory, whose `allocate` and `deallocate` have these bodies,
/// each without its last `end`.
fn module(
    alloc: Global,
    imported: Imported,
    allocate: &[Instr],
    deallocate: &[Instr],
) -> Result<Module, AllocError> {
    let mut types = Vec::new(alloc);
    for (params, result) in &TYPES {
        types.push(FuncType {
            params: vec![in alloc; ValType::I32; *params]?,
            result: *result,
        })?;
    }
    let import = Import {
        module: String::from_str(alloc, "env")?,
        name: String::from_str(alloc, imported.0)?,
        desc: Desc::Func(imported.1),
    };
    Ok(Module {
        types,
        imports: vec![in alloc; import]?,
        funcs: Vec::from_slice(alloc, &[0, 1])?,
        tables: Vec::new(alloc),
        memories: vec![in alloc; Limits { min: 8, max: None }]?,
        globals: Vec::new(alloc),
        exports: exports(alloc)?,
        elems: Vec::new(alloc),
        codes: vec![in alloc; code(alloc, allocate)?, code(alloc, deallocate)?]?,
        segs: Vec::new(alloc),
    })
}

fn code(alloc: Global, body: &[Instr]) -> Result<Code, AllocError> {
    let mut instrs = Vec::from_slice(alloc, body)?;
    instrs.push(Instr::End)?;
    Ok(Code {
        locals: Vec::new(alloc),
        targets: Vec::new(alloc),
        body: instrs,
    })
}

fn exports(alloc: Global) -> Result<Vec<Export>, AllocError> {
    let mut all = Vec::new(alloc);
    for (name, ext) in [
        ("memory", Ext::Memory(0)),
        ("allocate", Ext::Func(1)),
        ("deallocate", Ext::Func(2)),
    ] {
        all.push(Export {
            name: String::from_str(alloc, name)?,
            ext,
        })?;
    }
    Ok(all)
}

/// A machine of such a contract.
pub(crate) fn machine(
    alloc: Global,
    imported: Imported,
    allocate: &[Instr],
    deallocate: &[Instr],
) -> Result<Machine, AllocError>
    ensures { IfOk result (λ machine. phase_of machine ≡ Phase.Idle) }
{
    let module = module(alloc, imported, allocate, deallocate)?;
    match Arc::new(alloc, module) {
        Ok(shared) => Machine::new(alloc, shared),
        Err(_) => Err(AllocError),
    }
}

/// Puts bytes at a place of the memory, where they fit.
pub(crate) fn put(machine: &mut Machine, at: u64, bytes: &[u8])
    requires { phase_of machine.old ≡ Phase.Idle }
    ensures { phase_of machine.new ≡ Phase.Idle }
{
    let _written = machine.memory_mut().write(at, bytes);
}

/// Puts the three numbers of a Region at a place of the memory.
pub(crate) fn put_region(machine: &mut Machine, at: u32, numbers: [u32; 3])
    requires { phase_of machine.old ≡ Phase.Idle }
    ensures { phase_of machine.new ≡ Phase.Idle }
{
    let at = u64::from(at);
    let [offset, capacity, length] = numbers;
    put(machine, at, &offset.to_le_bytes());
    put(machine, at + 4, &capacity.to_le_bytes());
    put(machine, at + 8, &length.to_le_bytes());
}

/// An argument of an import.
#[derive(Clone, Copy)]
pub(crate) enum Arg {
    /// A number that is no pointer, or one of no Region.
    Number(u32),
    /// A pointer to a Region of these bytes.
    Bytes(&'static [u8]),
    /// A pointer to a Region of so many bytes 0.
    Zeros(u32),
    /// A pointer to a Region with room for so many bytes.
    Room(u32),
    /// A pointer to a Region of these numbers.
    Region([u32; 3]),
    /// The argument with the fault that is tried.
    Bad,
}

/// The memory ends 11 bytes behind it.
pub(crate) const PAST: Arg = Arg::Number(524_277);

/// A Region that begins nowhere.
pub(crate) const NOWHERE: Arg = Arg::Region([0, 5, 0]);

/// A Region with more bytes than room.
pub(crate) const OVERFULL: Arg = Arg::Region([1_000, 5, 6]);

/// A Region whose room ends past the last address.
pub(crate) const ENDLESS: Arg = Arg::Region([1_000, 0xFFFF_FFFF, 0]);

/// A Region whose last byte is the first past the memory.
pub(crate) const CUT: Arg = Arg::Region([524_284, 5, 5]);

/// All faults of a Region that can't be read or written, and what is told of them.
const FAULTS: [(Arg, &str); 5] = [
    (PAST, "RegionBad Pointer"),
    (NOWHERE, "RegionBad Offset"),
    (OVERFULL, "RegionBad Length"),
    (ENDLESS, "RegionBad Range"),
    (CUT, "RegionBad End"),
];

/// Where the first, second and third argument point, and where their bytes lie.
const PLACES: [(u32, u32); 3] = [(16, 1_000), (32, 140_000), (48, 280_000)];

/// Puts what an argument points to into the memory, and gives the argument.
fn placed(machine: &mut Machine, place: (u32, u32), arg: Arg) -> u32
    requires { phase_of machine.old ≡ Phase.Idle }
    ensures { phase_of machine.new ≡ Phase.Idle }
{
    let (pointer, offset) = place;
    match arg {
        Arg::Number(number) => number,
        Arg::Bad => 0,
        Arg::Bytes(bytes) => {
            let length = u32::try_from(bytes.len()).unwrap_or(u32::MAX);
            put_region(machine, pointer, [offset, length, length]);
            put(machine, u64::from(offset), bytes);
            pointer
        }
        Arg::Zeros(length) => {
            put_region(machine, pointer, [offset, length, length]);
            pointer
        }
        Arg::Room(capacity) => {
            put_region(machine, pointer, [offset, capacity, 0]);
            pointer
        }
        Arg::Region(numbers) => {
            put_region(machine, pointer, numbers);
            pointer
        }
    }
}

/// Where the Region of `allocate` is.
pub(crate) const GIVEN: u32 = 64;

/// Gives the Region at 64, and does nothing else.
pub(crate) const ALLOCATE: [Instr; 1] = [Instr::Const(Value::I32(GIVEN))];

/// A machine that waits for the answer of the import that it called, the import and the arguments.
type Asking = (Machine, u32, Vec<Value>);

/// The argument, or the one with a fault in its place.
fn with_fault(arg: Arg, fault: Arg) -> Arg {
    match arg {
        Arg::Bad => fault,
        _ => arg,
    }
}

/// The contract calls the import with these arguments.
fn called(alloc: Global, imported: Imported, args: &[Arg], fault: Arg) -> Result<Asking, AllocError>
    ensures { IfOk result (λ asking. phase_of asking.0 ≡ Phase.Asked) }
{
    let mut machine = machine(alloc, imported, &ALLOCATE, &[])?;
    put_region(&mut machine, GIVEN, [420_000, 100_000, 0]);
    let mut values = Vec::new(alloc);
    for (arg, place) in args.iter().zip(&PLACES) {
        let arg = with_fault(*arg, fault);
        values.push(Value::I32(placed(&mut machine, *place, arg)))?;
    }
    machine.call(0, &values)?;
    match machine.run(alloc, &mut Meter::new(0), &Schedule::standard())? {
        Turn::Ask { import, args } => Ok((machine, import, args)),
        Turn::Done(_) => Err(AllocError),
        Turn::Trap(_) => Err(AllocError),
        Turn::OutOfGas => Err(AllocError),
    }
}

/// What is there besides the contract's machine: its storage, and the state of the chain.
#[derive(Drop)]
pub(crate) struct Chain {
    pub store: Scoped,
    pub layers: Layers<Plain>,
}

/// A chain on which the contract has nothing.
pub(crate) fn new_chain(alloc: Global, read_only: bool) -> Result<Chain, AllocError> {
    Ok(Chain {
        store: Scoped::new(alloc, &[0x44, 0xFF], read_only)?,
        layers: Layers::new(alloc, Plain::new(alloc)),
    })
}

/// What the host does with the import, as a text: what the contract is answered, or why it isn't.
fn told(
    alloc: Global,
    import: u32,
    args: &[Value],
    machine: &mut Machine,
    chain: &mut Chain,
    meter: &mut Meter,
) -> Result<String, AllocError>
    requires { phase_of machine.old ≡ Phase.Asked }
{
    let costs = Schedule::standard();
    let store = &mut chain.store;
    let layers = &mut chain.layers;
    match handle(
        alloc, import, args, machine, store, layers, "abcdef", meter, &costs,
    )? {
        Handled::Answered => answered(alloc, machine, meter),
        Handled::WantsQuery(request) => format!(in alloc; "query of {} bytes", request.len()),
        Handled::Fault(fault) => format!(in alloc; "{fault}"),
        Handled::OutOfGas => String::from_str(alloc, "out of gas"),
    }
}

/// The answer that the contract was given.
fn answered(alloc: Global, machine: &mut Machine, meter: &mut Meter) -> Result<String, AllocError>
    requires { phase_of machine.old ≡ Phase.Ready }
{
    match machine.run(alloc, meter, &Schedule::standard())? {
        Turn::Done(None) => String::from_str(alloc, "nothing"),
        Turn::Done(Some(Value::I32(number))) => format!(in alloc; "{number}"),
        turn => format!(in alloc; "{turn:?}"),
    }
}

/// A call of an import with arguments and so much gas, what comes of it, how much gas is used, and a
/// pointer to a Region with the bytes that it then has.
pub(crate) type Case<'a> = (
    Imported,
    &'a [Arg],
    u64,
    &'a str,
    u64,
    Option<(u32, &'a [u8])>,
);

/// One call, in which the argument that is tried has this fault. The machine is as it is then.
fn expect_call(
    rt: &impl Abort,
    alloc: Global,
    chain: &mut Chain,
    imported: Imported,
    args: &[Arg],
    fault: Arg,
    gas: u64,
    want: &str,
    used: u64,
) -> Result<Machine, Fail> {
    let (mut machine, import, values) = called(alloc, imported, args, fault)?;
    let mut meter = Meter::new(gas);
    let told = told(alloc, import, &values, &mut machine, chain, &mut meter)?;
    assert_eq!(rt; told.as_str(), want, "{} with {gas} gas", imported.0);
    assert_eq!(rt; meter.used(), used, "{} {want}", imported.0);
    Ok(machine)
}

/// One call after the other.
pub(crate) fn expect(
    rt: &impl Abort,
    alloc: Global,
    chain: &mut Chain,
    cases: &[Case],
) -> Result<(), Fail> {
    for (imported, args, gas, want, used, region) in cases {
        let machine = expect_call(rt, alloc, chain, *imported, *args, PAST, *gas, *want, *used)?;
        if let Some((pointer, bytes)) = region {
            let found = machine.memory().read_region(alloc, *pointer, 131_072)?;
            assert_eq!(rt; found.as_slice(), *bytes, "{} {want}", imported.0);
        }
    }
    Ok(())
}

/// An import whose argument `Bad` is tried, and the gas that is used before its Region is looked at.
pub(crate) type Spot<'a> = (Imported, &'a [Arg], u64);

fn expect_fault(
    rt: &impl Abort,
    alloc: Global,
    chain: &mut Chain,
    spots: &[Spot],
    fault: Arg,
    want: &str,
) -> Result<(), Fail> {
    for (imported, args, used) in spots {
        let _machine = expect_call(
            rt, alloc, chain, *imported, *args, fault, *used, want, *used,
        )?;
    }
    Ok(())
}

/// Each fault of a Region is told in each of these places.
pub(crate) fn expect_faults(
    rt: &impl Abort,
    alloc: Global,
    chain: &mut Chain,
    spots: &[Spot],
) -> Result<(), Fail> {
    for (fault, want) in FAULTS {
        expect_fault(rt, alloc, chain, spots, fault, want)?;
    }
    Ok(())
}
