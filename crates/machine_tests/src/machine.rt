ghost use Rattle.std.specs.Prelude.{◌≡◌, ◌<◌, List, IfOk, OnOk};
ghost use Rattle.wasm_machine.specs.Acts.{Act};
ghost use Rattle.wasm_machine.specs.Start.{imported};
ghost use Rattle.wasm_machine.specs.Machine.{plain_of, phase_of, StandsFor};

use gas_meter::{Meter, Schedule};
use std::alloc::{AllocError, Global};
use std::process::Abort;
use std::sync::Arc;
use std::test::Fail;
use wasm_machine::{Machine, Phase, TrapKind, Turn, asks_name_imports};
use wasm_types::{
    Code, Desc, Elem, FuncType, GlobalVar, Import, Init, Instr, Limits, Module, Seg, ValType, Value,
};

/// A function: the place of its type, how many i32 it declares, and its body without the last `end`.
type Func<'a> = (u32, usize, &'a [Instr]);

/// The types of the modules here: how many i32 go in, and whether one comes out.
const TYPES: [(usize, bool); 6] = [
    (0, false),
    (1, false),
    (2, false),
    (0, true),
    (1, true),
    (3, true),
];

fn types(alloc: Global) -> Result<Vec<FuncType>, AllocError> {
    let mut all = Vec::new(alloc);
    for (params, gives) in &TYPES {
        all.push(FuncType {
            params: vec![in alloc; ValType::I32; *params]?,
            result: if *gives { Some(ValType::I32) } else { None },
        })?;
    }
    Ok(all)
}

fn import(alloc: Global, ty: u32) -> Result<Import, AllocError> {
    Ok(Import {
        module: String::from_str(alloc, "env")?,
        name: String::from_str(alloc, "db_write")?,
        desc: Desc::Func(ty),
    })
}

fn code(alloc: Global, locals: usize, body: &[Instr]) -> Result<Code, AllocError> {
    let mut instrs = Vec::from_slice(alloc, body)?;
    instrs.push(Instr::End)?;
    Ok(Code {
        locals: vec![in alloc; ValType::I32; locals]?,
        targets: Vec::from_slice(alloc, &[0, 1])?,
        body: instrs,
    })
}

/// A module with these imports, by their types, and these functions. It has one page of memory with `hi`
/// at 16, a global of 1024, and a table of three places, of which the first two hold functions 1 and 0.
fn module(alloc: Global, imports: &[u32], functions: &[Func]) -> Result<Module, AllocError> {
    let mut imported = Vec::new(alloc);
    for ty in imports {
        imported.push(import(alloc, *ty)?)?;
    }
    let mut funcs = Vec::new(alloc);
    let mut codes = Vec::new(alloc);
    for (ty, locals, body) in functions {
        funcs.push(*ty)?;
        codes.push(code(alloc, *locals, *body)?)?;
    }
    let table = Limits {
        min: 3,
        max: Some(3),
    };
    let global = GlobalVar {
        ty: ValType::I32,
        mutable: true,
        init: Init::Const(Value::I32(1024)),
    };
    let elem = Elem {
        table: 0,
        offset: Init::Const(Value::I32(0)),
        funcs: Vec::from_slice(alloc, &[1, 0])?,
    };
    let seg = Seg {
        memory: 0,
        offset: Init::Const(Value::I32(16)),
        bytes: Vec::from_slice(alloc, b"hi")?,
    };
    Ok(Module {
        types: types(alloc)?,
        imports: imported,
        funcs,
        tables: vec![in alloc; table]?,
        memories: vec![in alloc; Limits { min: 1, max: None }]?,
        globals: vec![in alloc; global]?,
        exports: Vec::new(alloc),
        elems: vec![in alloc; elem]?,
        codes,
        segs: vec![in alloc; seg]?,
    })
}

fn machine(alloc: Global, imports: &[u32], functions: &[Func]) -> Result<Machine, AllocError>
    ensures { IfOk result (λ machine. phase_of machine ≡ Phase.Idle) }
{
    let module = module(alloc, imports, functions)?;
    match Arc::new(alloc, module) {
        Ok(shared) => Machine::new(alloc, shared),
        Err(_) => Err(AllocError),
    }
}

/// How a run is to end.
#[derive(Clone, Copy)]
enum End {
    Gives(Option<u32>),
    Traps(TrapKind),
    RunsOut,
}

fn turn_at(end: End) -> Turn {
    match end {
        End::Gives(value) => Turn::Done(value.map(Value::I32)),
        End::Traps(kind) => Turn::Trap(kind),
        End::RunsOut => Turn::OutOfGas,
    }
}

/// The first function is called with these arguments and so much gas. It ends so, and uses so much gas.
fn expect(
    rt: &impl Abort,
    alloc: Global,
    functions: &[Func],
    args: &[Value],
    gas: u64,
    end: End,
    used: u64,
) -> Result<(), AllocError> {
    let mut machine = machine(alloc, &[], functions)?;
    let mut meter = Meter::new(gas);
    machine.call(0, args)?;
    let turn = machine.run(alloc, &mut meter, &Schedule::standard())?;
    assert_eq!(rt; turn, turn_at(end));
    assert_eq!(rt; meter.used(), used, "{turn:?}");
    Ok(())
}

/// The import that a machine calls in its one call, and the arguments.
fn asked(
    alloc: Global,
    machine: &mut Machine,
    meter: &mut Meter,
) -> Result<(u32, Vec<Value>), AllocError>
    requires { phase_of machine.old ≡ Phase.Ready }
    ensures phase { OnOk result (phase_of machine.new ≡ Phase.Asked) }
    ensures import { IfOk result (λ asked. (acts : List Act) → StandsFor machine.old acts → asked.0 < imported (plain_of machine.old)) }
{
    asks_name_imports();
    match machine.run(alloc, meter, &Schedule::standard())? {
        Turn::Ask { import, args } => Ok((import, args)),
        Turn::Done(_) => Err(AllocError),
        Turn::Trap(_) => Err(AllocError),
        Turn::OutOfGas => Err(AllocError),
    }
}

/// Goes on with a machine's one call up to its end, where each ask gets the same answer.
fn run_to_end(
    alloc: Global,
    machine: &mut Machine,
    meter: &mut Meter,
    answer: Option<Value>,
) -> Result<Turn, AllocError>
    requires { phase_of machine.old ≡ Phase.Ready }
{
    let costs = Schedule::standard();
    let mut turn = machine.run(alloc, meter, &costs)?;
    while let Turn::Ask { import: _, args: _ } = turn {
        machine.resume(answer);
        turn = machine.run(alloc, meter, &costs)?;
    }
    Ok(turn)
}

/// What a call over an asked one gives.
fn given(
    alloc: Global,
    machine: &mut Machine,
    meter: &mut Meter,
) -> Result<Option<Value>, AllocError>
    requires { phase_of machine.old ≡ Phase.ReadyOver }
    ensures { OnOk result (phase_of machine.new ≡ Phase.Asked) }
{
    match machine.run(alloc, meter, &Schedule::standard())? {
        Turn::Done(value) => Ok(value),
        Turn::Ask { import: _, args: _ } => Err(AllocError),
        Turn::Trap(_) => Err(AllocError),
        Turn::OutOfGas => Err(AllocError),
    }
}

const LOCAL_GET_0: Instr = Instr::Index { op: 0x20, index: 0 };

const LOCAL_GET_2: Instr = Instr::Index { op: 0x20, index: 2 };

const LOCAL_SET_0: Instr = Instr::Index { op: 0x21, index: 0 };

const LOCAL_SET_1: Instr = Instr::Index { op: 0x21, index: 1 };

const LOCAL_GET_1: Instr = Instr::Index { op: 0x20, index: 1 };

const GLOBAL_GET_0: Instr = Instr::Index { op: 0x23, index: 0 };

const GLOBAL_SET_0: Instr = Instr::Index { op: 0x24, index: 0 };

const CALL_0: Instr = Instr::Index { op: 0x10, index: 0 };

const CALL_1: Instr = Instr::Index { op: 0x10, index: 1 };

const BR_0: Instr = Instr::Index { op: 0x0C, index: 0 };

const BR_IF_0: Instr = Instr::Index { op: 0x0D, index: 0 };

const ADD: Instr = Instr::Op(0x6A);

const SUB: Instr = Instr::Op(0x6B);

const GROW: Instr = Instr::Op(0x40);

const fn i32_const(n: u32) -> Instr {
    Instr::Const(Value::I32(n))
}

fn stores(offset: u32) -> Instr {
    Instr::Mem {
        op: 0x36,
        align: 2,
        offset,
    }
}

fn loads(op: u8, offset: u32) -> Instr {
    Instr::Mem {
        op,
        align: 0,
        offset,
    }
}

/// A Region where global 0 points, and global 0 moved behind it and its bytes.
fn allocate() -> [Instr; 18] {
    [
        GLOBAL_GET_0,
        GLOBAL_GET_0,
        GLOBAL_GET_0,
        i32_const(12),
        ADD,
        stores(0),
        GLOBAL_GET_0,
        LOCAL_GET_0,
        stores(4),
        GLOBAL_GET_0,
        i32_const(0),
        stores(8),
        GLOBAL_GET_0,
        LOCAL_GET_0,
        ADD,
        i32_const(12),
        ADD,
        GLOBAL_SET_0,
    ]
}

const FULL: End = End::Traps(TrapKind::StackOverflow);

#[test]
fn a_run_ends_as_it_is_to_for_what_is_charged(rt: HostRuntime) -> Result<(), Fail> {
    let alloc = rt.alloc();
    let spin = [
        Instr::Loop {
            result: Some(ValType::I32),
            end: 2,
        },
        BR_0,
        Instr::End,
    ];
    let args = [Value::I32(0), Value::I32(0), Value::I32(0)];
    expect(&rt, alloc, &[(5, 0, &spin)], &args, 100, End::RunsOut, 100)?;
    let allocate = allocate();
    for (gas, end) in [(21, End::Gives(Some(1024))), (20, End::RunsOut)] {
        let args = [Value::I32(5)];
        expect(&rt, alloc, &[(4, 0, &allocate)], &args, gas, end, gas)?;
    }
    // declared locals are charged before the call
    for (locals, gas, end, used) in [
        (7, 17, End::Gives(None), 17),
        (7, 16, End::RunsOut, 16),
        (131_073, 200_000, FULL, 131_083),
    ] {
        let functions: [Func; 2] = [(0, 0, &[CALL_1]), (0, locals, &[])];
        expect(&rt, alloc, &functions, &[], gas, end, used)?;
    }
    // the numbers from the argument down to 1 are added
    let sum = [
        Instr::Loop {
            result: None,
            end: 10,
        },
        LOCAL_GET_1,
        LOCAL_GET_0,
        ADD,
        LOCAL_SET_1,
        LOCAL_GET_0,
        i32_const(1),
        SUB,
        Instr::Index { op: 0x22, index: 0 },
        BR_IF_0,
        Instr::End,
        LOCAL_GET_1,
    ];
    let args = [Value::I32(10)];
    let added = End::Gives(Some(55));
    expect(&rt, alloc, &[(4, 1, &sum)], &args, 1000, added, 92)?;
    Ok(())
}

#[test]
fn frames_end_at_512_and_values_at_131072(rt: HostRuntime) -> Result<(), Fail> {
    let alloc = rt.alloc();
    let dive = [LOCAL_GET_0, CALL_0];
    let zero = [Value::I32(0)];
    expect(&rt, alloc, &[(1, 0, &dive)], &zero, 10_000, FULL, 5632)?;
    // calls itself as often as its argument says
    let count = [
        LOCAL_GET_0,
        Instr::If {
            result: None,
            els: None,
            end: 6,
        },
        LOCAL_GET_0,
        i32_const(1),
        SUB,
        CALL_0,
        Instr::End,
    ];
    for (times, end, used) in [(511, End::Gives(None), 7667), (512, FULL, 7680)] {
        let args = [Value::I32(times)];
        expect(&rt, alloc, &[(1, 0, &count)], &args, 100_000, end, used)?;
    }
    let push = [i32_const(7), Instr::Op(0x1A)];
    for (locals, end, used) in [(131_071, End::Gives(None), 2), (131_072, FULL, 1)] {
        expect(&rt, alloc, &[(0, locals, &push)], &[], 9, end, used)?;
    }
    for (locals, end) in [(131_072, End::Gives(None)), (131_073, FULL)] {
        expect(&rt, alloc, &[(0, locals, &[])], &[], 9, end, 0)?;
    }
    Ok(())
}

#[test]
fn each_trap_keeps_its_charge(rt: HostRuntime) -> Result<(), Fail> {
    let indirect = Instr::CallIndirect { ty: 0 };
    let least = i32_const(0x8000_0000);
    let minus_one = i32_const(0xFFFF_FFFF);
    let bodies: [([Instr; 3], TrapKind, u64); 10] = [
        ([Instr::Op(0), GROW, GROW], TrapKind::Unreachable, 1),
        ([ADD, GROW, GROW], TrapKind::Unreachable, 1),
        (
            [i32_const(1), i32_const(0), Instr::Op(0x6E)],
            TrapKind::DivideByZero,
            6,
        ),
        (
            [least, minus_one, Instr::Op(0x6D)],
            TrapKind::IntegerOverflow,
            6,
        ),
        (
            [i32_const(65533), loads(0x28, 0), GROW],
            TrapKind::OutOfBounds,
            3,
        ),
        (
            [minus_one, loads(0x2D, 0xFFFF_FFFF), GROW],
            TrapKind::OutOfBounds,
            3,
        ),
        (
            [minus_one, i32_const(1), stores(1)],
            TrapKind::OutOfBounds,
            4,
        ),
        ([i32_const(3), indirect, GROW], TrapKind::TableBounds, 16),
        ([i32_const(2), indirect, GROW], TrapKind::TableEmpty, 16),
        ([i32_const(0), indirect, GROW], TrapKind::TableType, 16),
    ];
    for (body, kind, used) in &bodies {
        let functions: [Func; 2] = [(0, 0, body), (1, 0, &[])];
        let end = End::Traps(*kind);
        expect(&rt, rt.alloc(), &functions, &[], 1000, end, *used)?;
    }
    Ok(())
}

#[test]
fn a_memory_grows_to_512_pages_and_a_table_of_branches_has_a_default(
    rt: HostRuntime,
) -> Result<(), Fail> {
    // pages asked for, the answer, the gas that is used
    for (pages, answer, used) in [
        (0, 1, 11),
        (2, 1, 2011),
        (511, 1, 511_011),
        (512, 0xFFFF_FFFF, 11),
        (0xFFFF_FFFF, 0xFFFF_FFFF, 11),
    ] {
        let body = [i32_const(pages), GROW];
        let end = End::Gives(Some(answer));
        expect(&rt, rt.alloc(), &[(3, 0, &body)], &[], 600_000, end, used)?;
    }
    let reads = [
        i32_const(1),
        GROW,
        Instr::Op(0x1A),
        i32_const(65_536),
        loads(0x28, 0),
    ];
    let zero = End::Gives(Some(0));
    expect(&rt, rt.alloc(), &[(3, 0, &reads)], &[], 2000, zero, 1015)?;
    // 0 leaves the inner block, and each other number the outer one
    let choose = [
        Instr::Block {
            result: None,
            end: 8,
        },
        Instr::Block {
            result: None,
            end: 4,
        },
        LOCAL_GET_0,
        Instr::BrTable {
            first: 0,
            count: 2,
            default: 1,
        },
        Instr::End,
        i32_const(40),
        LOCAL_SET_0,
        BR_0,
        Instr::End,
        LOCAL_GET_0,
    ];
    for (number, answer, used) in [
        (0, 40, 9),
        (1, 1, 6),
        (2, 2, 6),
        (0xFFFF_FFFF, 0xFFFF_FFFF, 6),
    ] {
        let args = [Value::I32(number)];
        let end = End::Gives(Some(answer));
        expect(&rt, rt.alloc(), &[(4, 0, &choose)], &args, 1000, end, used)?;
    }
    Ok(())
}

#[test]
fn a_call_that_asks_goes_on_behind_the_answer(rt: HostRuntime) -> Result<(), Fail> {
    let execute = [i32_const(64), i32_const(80), CALL_0, LOCAL_GET_2];
    let mut calling = machine(rt.alloc(), &[2], &[(5, 0, &execute)])?;
    let mut meter = Meter::new(1000);
    calling.call(1, &[Value::I32(1), Value::I32(2), Value::I32(3)])?;
    let (import, args) = asked(rt.alloc(), &mut calling, &mut meter)?;
    assert_eq!(rt; import, 0);
    assert_eq!(rt;
        args.as_slice(),
        [Value::I32(64), Value::I32(80)].as_slice()
    );
    assert_eq!(rt; meter.used(), 12);
    calling.resume(None);
    let turn = calling.run(rt.alloc(), &mut meter, &Schedule::standard())?;
    assert_eq!(rt; turn, Turn::Done(Some(Value::I32(3))));
    assert_eq!(rt; meter.used(), 13);
    // the host calls an import, for nothing
    let mut direct = machine(rt.alloc(), &[4], &[])?;
    let mut empty = Meter::new(0);
    direct.call(0, &[Value::I32(5)])?;
    let (_, args) = asked(rt.alloc(), &mut direct, &mut empty)?;
    assert_eq!(rt; args.as_slice(), [Value::I32(5)].as_slice());
    direct.resume(Some(Value::I32(6)));
    let turn = direct.run(rt.alloc(), &mut empty, &Schedule::standard())?;
    assert_eq!(rt; turn, Turn::Done(Some(Value::I32(6))));
    Ok(())
}

#[test]
fn each_ask_uses_gas(rt: HostRuntime) -> Result<(), Fail> {
    // asks for ever, each turn for 11
    let ask = [
        Instr::Loop {
            result: None,
            end: 3,
        },
        CALL_0,
        BR_0,
        Instr::End,
    ];
    let mut machine = machine(rt.alloc(), &[0], &[(0, 0, &ask)])?;
    let mut meter = Meter::new(100);
    machine.call(1, &[])?;
    let turn = run_to_end(rt.alloc(), &mut machine, &mut meter, None)?;
    assert_eq!(rt; turn, Turn::OutOfGas);
    assert_eq!(rt; meter.used(), 100);
    Ok(())
}

/// A machine whose function 1 asks. Its function 2 allocates, and its function 3 traps.
fn asking(alloc: Global) -> Result<Machine, AllocError>
    ensures { IfOk result (λ machine. phase_of machine ≡ Phase.Ready) }
{
    let allocate = allocate();
    let functions: [Func; 3] = [
        (0, 0, &[i32_const(8), i32_const(9), CALL_0]),
        (4, 0, &allocate),
        (0, 0, &[Instr::Op(0)]),
    ];
    let mut machine = machine(alloc, &[2], &functions)?;
    machine.call(1, &[])?;
    Ok(machine)
}

#[test]
fn another_call_is_made_over_an_asked_one(rt: HostRuntime) -> Result<(), Fail> {
    let mut meter = Meter::new(33);
    let mut machine = asking(rt.alloc())?;
    let _ = asked(rt.alloc(), &mut machine, &mut meter)?;
    machine.call(2, &[Value::I32(5)])?;
    let region = given(rt.alloc(), &mut machine, &mut meter)?;
    assert_eq!(rt; region, Some(Value::I32(1024)));
    assert_eq!(rt; machine.memory_mut().write_region(1024, b"hello"), Ok(()));
    machine.resume(None);
    let turn = machine.run(rt.alloc(), &mut meter, &Schedule::standard())?;
    assert_eq!(rt; turn, Turn::Done(None));
    assert_eq!(rt; meter.used(), 33);
    let read = machine.memory().read_region(rt.alloc(), 1024, 9);
    assert_eq!(rt; read.map_or(0, |bytes| bytes.len()), 5);
    Ok(())
}

/// How such a machine ends where this function is called over the asked one, and the gas that is used.
fn over(alloc: Global, func: u32, args: &[Value], gas: u64) -> Result<(Turn, u64), AllocError> {
    let mut meter = Meter::new(gas);
    let mut machine = asking(alloc)?;
    let _ = asked(alloc, &mut machine, &mut meter)?;
    machine.call(func, args)?;
    let turn = machine.run(alloc, &mut meter, &Schedule::standard())?;
    Ok((turn, meter.used()))
}

#[test]
fn a_call_over_an_asked_one_can_end_both(rt: HostRuntime) -> Result<(), Fail> {
    let out = over(rt.alloc(), 2, &[Value::I32(5)], 32)?;
    assert_eq!(rt; out, (Turn::OutOfGas, 32));
    let trapped = over(rt.alloc(), 3, &[], 100)?;
    assert_eq!(rt; trapped, (Turn::Trap(TrapKind::Unreachable), 13));
    Ok(())
}
