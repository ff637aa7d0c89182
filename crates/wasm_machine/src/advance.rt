ghost use Rattle.std.specs.Prelude.{◌≡◌, ◌+◌, ◌*◌, ◌≤◌, ◌<◌, List, length, Some, IfOk, OnOk, nat_lt, slice_get, if◌then◌else◌};
ghost use Rattle.gas_meter.specs.Ranges.{IsInRange};
ghost use Rattle.wasm_types.specs.Plain.{PlainModule, plain_module};
ghost use Rattle.wasm_machine.specs.Acts.{Act};
ghost use Rattle.wasm_machine.specs.Kinds.{plain_kind, index_kind, width};
ghost use Rattle.wasm_machine.specs.Start.{table, code_at};
ghost use Rattle.wasm_machine.specs.Effects.{push, plain_effect, index_effect, memory_effect};
ghost use Rattle.wasm_machine.specs.Exec.{Ahead, price, paid, after, grown, grows, jumps_if, jumps_by, opens_if, opens_else, calls_with, calls_func, calls_cell, calls_indirect, plain_move, index_move, move};
ghost use Rattle.wasm_machine.specs.Piles.{all, own};
ghost use Rattle.wasm_machine.specs.Values.{beside, shared_of, seen};
ghost use Rattle.wasm_machine.specs.Control.{Pops, Charges};
ghost use Rattle.wasm_machine.specs.Rests.{weight, CallsNone, hosts, height, ahead, Leads, moved, running, IsBodyOf};

use crate::frame::{Event, Frame, Next};
use crate::functions::{Body, declared, func_type, has_type, item_at};
use crate::kind::{IndexKind, PlainKind, index_kind, plain_kind};
use crate::pile::Pile;
use crate::prices;
use crate::state::State;
use crate::stop::{MISPLACED, Stop};
use crate::turn::TrapKind;
use gas_meter::{Meter, Schedule};
use linear_memory::Memory;
use std::alloc::Global;
use wasm_types::{Instr, Module, ValType, Value};

/// What a machine never changes while it runs: the module, its table, and what each step costs.
#[derive(Clone, Copy)]
pub(crate) struct Code<'a> {
    pub module: &'a Module,
    pub table: &'a [Option<u32>],
    pub costs: &'a Schedule,
}

#[inline(always)]
fn charge(meter: &mut Meter, n: u64) -> Result<(), Stop>
    ensures left { Charges n meter.old.left meter.new.left result }
    ensures used { meter.new.left + meter.new.used ≡ meter.old.left + meter.old.used }
{
    match meter.charge(n) {
        Ok(()) => Ok(()),
        Err(_) => Err(Stop::OutOfGas),
    }
}

/// The top operand, which is an i32.
#[inline(always)]
fn pop_i32(operands: &mut Pile<Value>) -> Result<u32, Stop>
    ensures { Pops operands.old operands.new result }
{
    match operands.pop() {
        Some(Value::I32(n)) => Ok(n),
        Some(Value::I64(_)) => Err(MISPLACED),
        None => Err(MISPLACED),
    }
}

/// The label of a `br_table` for a number.
#[inline(always)]
fn label_of(targets: &[u32], first: u32, count: u32, default: u32, i: u32) -> Option<u32>
    ensures { result ≡ (if nat_lt i count then slice_get targets.now (first + i) else Some default) }
{
    if i < count {
        item_at(targets, first as usize + i as usize)
    } else {
        Some(default)
    }
}

impl State {
    /// The memory grows, by so many pages, which were taken from the operands.
    #[inline(always)]
    fn grow_by(
        &mut self,
        alloc: Global,
        costs: &Schedule,
        next: Frame,
        meter: &mut Meter,
        pages: u32,
    ) -> Result<Event, Stop>
        requires { IsInRange costs.now }
        ensures leads { (m : PlainModule) (acts : List Act) → Leads m next result self.new (ahead meter.new.left costs.now acts)
            (moved m self.old next (grown next.place pages (own self.old.values.operands) (seen self.old.values) (ahead meter.old.left costs.now acts))) }
        ensures callers { self.new.callers ≡ self.old.callers }
        ensures labels { self.new.labels ≡ self.old.labels }
        ensures left { meter.new.left ≤ meter.old.left }
        ensures used { meter.new.left + meter.new.used ≡ meter.old.left + meter.old.used }
    {
        let old = self.values.memory.pages();
        if pages > Memory::MOST_PAGES - old {
            self.values.operands.push(Value::I32(u32::MAX))?;
            return Ok(Event::Goes(next.place));
        }
        charge(meter, costs.grow_page * u64::from(pages))?;
        match self.values.memory.grow(alloc, pages) {
            Ok(_) => {
                self.values.operands.push(Value::I32(old))?;
                Ok(Event::Goes(next.place))
            }
            Err(_) => Err(Stop::NoMemory),
        }
    }

    #[inline(always)]
    fn grow(
        &mut self,
        alloc: Global,
        costs: &Schedule,
        next: Frame,
        meter: &mut Meter,
    ) -> Result<Event, Stop>
        requires { IsInRange costs.now }
        ensures leads { (m : PlainModule) (acts : List Act) → Leads m next result self.new (ahead meter.new.left costs.now acts)
            (moved m self.old next (grows next.place (own self.old.values.operands) (seen self.old.values) (ahead meter.old.left costs.now acts))) }
        ensures callers { self.new.callers ≡ self.old.callers }
        ensures labels { self.new.labels ≡ self.old.labels }
        ensures left { meter.new.left ≤ meter.old.left }
        ensures used { meter.new.left + meter.new.used ≡ meter.old.left + meter.old.used }
    {
        let pages = pop_i32(&mut self.values.operands)?;
        self.grow_by(alloc, costs, next, meter, pages)
    }

    #[inline(always)]
    fn jump_if(&mut self, next: Frame, label: u32) -> Result<Event, Stop>
        ensures leads { (m : PlainModule) (a : Ahead) → Leads m next result self.new a
            (moved m self.old next (jumps_if next.place label (own self.old.values.operands) (seen self.old.values) a)) }
        ensures callers { self.new.callers ≡ self.old.callers }
        ensures sinks { IfOk result (λ e. length (all self.new.labels) + weight self.new e ≤ length (all self.old.labels) + 1) }
    {
        let c = pop_i32(&mut self.values.operands)?;
        if c == 0 {
            return Ok(Event::Goes(next.place));
        }
        self.jump(next, label)
    }

    #[inline(always)]
    fn jump_by(
        &mut self,
        targets: &[u32],
        next: Frame,
        first: u32,
        count: u32,
        default: u32,
    ) -> Result<Event, Stop>
        ensures leads { (m : PlainModule) (a : Ahead) → Leads m next result self.new a
            (moved m self.old next (jumps_by targets.now first count default (own self.old.values.operands) (seen self.old.values) a)) }
        ensures callers { self.new.callers ≡ self.old.callers }
        ensures sinks { IfOk result (λ e. length (all self.new.labels) + weight self.new e ≤ length (all self.old.labels) + 1) }
    {
        let i = pop_i32(&mut self.values.operands)?;
        match label_of(targets, first, count, default, i) {
            Some(label) => self.jump(next, label),
            None => Err(MISPLACED),
        }
    }

    #[inline(always)]
    fn open_else(
        &mut self,
        next: Frame,
        ty: Option<ValType>,
        els: Option<u32>,
        end: u32,
    ) -> Result<Event, Stop>
        ensures leads { (m : PlainModule) (a : Ahead) → Leads m next result self.new a
            (moved m self.old next (opens_else ty els end (seen self.old.values) a)) }
        ensures callers { self.new.callers ≡ self.old.callers }
        ensures sinks { IfOk result (λ e. length (all self.new.labels) + weight self.new e ≤ length (all self.old.labels) + 2) }
    {
        let after = end as usize + 1;
        match els {
            Some(els) => self.open(next, ty, false, els as usize + 1, after),
            None => match ty {
                Some(_) => Err(MISPLACED),
                None => Ok(Event::Goes(after)),
            },
        }
    }

    #[inline(always)]
    fn open_if(
        &mut self,
        next: Frame,
        ty: Option<ValType>,
        els: Option<u32>,
        end: u32,
    ) -> Result<Event, Stop>
        ensures leads { (m : PlainModule) (a : Ahead) → Leads m next result self.new a
            (moved m self.old next (opens_if next.place ty els end (own self.old.values.operands) (seen self.old.values) a)) }
        ensures callers { self.new.callers ≡ self.old.callers }
        ensures sinks { IfOk result (λ e. length (all self.new.labels) + weight self.new e ≤ length (all self.old.labels) + 2) }
    {
        let c = pop_i32(&mut self.values.operands)?;
        if c == 0 {
            return self.open_else(next, ty, els, end);
        }
        self.open(next, ty, false, next.place, end as usize + 1)
    }

    /// A function is called with so many of the operands.
    #[inline(always)]
    fn call_with(&mut self, next: Frame, func: u32, args: usize) -> Result<Event, Stop>
        ensures leads { (m : PlainModule) (a : Ahead) → Leads m next result self.new a
            (moved m self.old next (calls_with func args (seen self.old.values) a)) }
        ensures hosts { OnOk result (hosts self.new.callers.items ≡ hosts self.old.callers.items) }
        ensures sinks { IfOk result (λ e. height self.new + weight self.new e ≤ height self.old + 4) }
    {
        if args > self.values.operands.own_len() {
            return Err(MISPLACED);
        }
        self.suspend(next, args)?;
        self.next = Next::Enter(func);
        Ok(Event::Leaves)
    }

    #[inline(always)]
    fn call(
        &mut self,
        code: &Code,
        next: Frame,
        func: u32,
        meter: &mut Meter,
    ) -> Result<Event, Stop>
        ensures leads { (acts : List Act) → Leads (plain_module code.now.module.now) next result self.new (ahead meter.new.left code.now.costs.now acts)
            (moved (plain_module code.now.module.now) self.old next (calls_func (plain_module code.now.module.now) func (seen self.old.values) (ahead meter.old.left code.now.costs.now acts))) }
        ensures hosts { OnOk result (hosts self.new.callers.items ≡ hosts self.old.callers.items) }
        ensures sinks { IfOk result (λ e. height self.new + weight self.new e ≤ height self.old + 4) }
        ensures left { meter.new.left ≤ meter.old.left }
        ensures used { meter.new.left + meter.new.used ≡ meter.old.left + meter.old.used }
    {
        match func_type(code.module, func) {
            Some(ty) => {
                charge(meter, declared(code.module, func) as u64)?;
                self.call_with(next, func, ty.params.len())
            }
            None => Err(MISPLACED),
        }
    }

    /// The function that a cell of the table holds is called.
    #[inline(always)]
    fn call_held(
        &mut self,
        code: &Code,
        next: Frame,
        ty: u32,
        held: Option<u32>,
        meter: &mut Meter,
    ) -> Result<Event, Stop>
        ensures leads { (acts : List Act) → Leads (plain_module code.now.module.now) next result self.new (ahead meter.new.left code.now.costs.now acts)
            (moved (plain_module code.now.module.now) self.old next (calls_cell (plain_module code.now.module.now) ty (Some held) (seen self.old.values) (ahead meter.old.left code.now.costs.now acts))) }
        ensures hosts { OnOk result (hosts self.new.callers.items ≡ hosts self.old.callers.items) }
        ensures sinks { IfOk result (λ e. height self.new + weight self.new e ≤ height self.old + 4) }
        ensures left { meter.new.left ≤ meter.old.left }
        ensures used { meter.new.left + meter.new.used ≡ meter.old.left + meter.old.used }
    {
        match held {
            None => Err(Stop::Trap(TrapKind::TableEmpty)),
            Some(func) => {
                if !has_type(code.module, ty, func) {
                    return Err(Stop::Trap(TrapKind::TableType));
                }
                self.call(code, next, func, meter)
            }
        }
    }

    /// The function in a cell of the table is called.
    #[inline(always)]
    fn call_cell(
        &mut self,
        code: &Code,
        next: Frame,
        ty: u32,
        cell: Option<Option<u32>>,
        meter: &mut Meter,
    ) -> Result<Event, Stop>
        ensures leads { (acts : List Act) → Leads (plain_module code.now.module.now) next result self.new (ahead meter.new.left code.now.costs.now acts)
            (moved (plain_module code.now.module.now) self.old next (calls_cell (plain_module code.now.module.now) ty cell (seen self.old.values) (ahead meter.old.left code.now.costs.now acts))) }
        ensures hosts { OnOk result (hosts self.new.callers.items ≡ hosts self.old.callers.items) }
        ensures sinks { IfOk result (λ e. height self.new + weight self.new e ≤ height self.old + 4) }
        ensures left { meter.new.left ≤ meter.old.left }
        ensures used { meter.new.left + meter.new.used ≡ meter.old.left + meter.old.used }
    {
        match cell {
            None => Err(Stop::Trap(TrapKind::TableBounds)),
            Some(held) => self.call_held(code, next, ty, held, meter),
        }
    }

    #[inline(always)]
    fn call_indirect(
        &mut self,
        code: &Code,
        next: Frame,
        ty: u32,
        meter: &mut Meter,
    ) -> Result<Event, Stop>
        ensures leads { (acts : List Act) → code.now.table.now ≡ table (plain_module code.now.module.now) →
            Leads (plain_module code.now.module.now) next result self.new (ahead meter.new.left code.now.costs.now acts)
            (moved (plain_module code.now.module.now) self.old next (calls_indirect (plain_module code.now.module.now) ty
            (own self.old.values.operands) (seen self.old.values) (ahead meter.old.left code.now.costs.now acts))) }
        ensures hosts { OnOk result (hosts self.new.callers.items ≡ hosts self.old.callers.items) }
        ensures sinks { IfOk result (λ e. height self.new + weight self.new e ≤ height self.old + 4) }
        ensures left { meter.new.left ≤ meter.old.left }
        ensures used { meter.new.left + meter.new.used ≡ meter.old.left + meter.old.used }
    {
        let i = pop_i32(&mut self.values.operands)?;
        let cell = item_at(code.table, i as usize);
        self.call_cell(code, next, ty, cell, meter)
    }

    /// The effect of an instruction without an operand in the code, which neither branches nor grows the
    /// memory.
    #[inline(always)]
    fn apply_plain(&mut self, next: Frame, kind: PlainKind, op: u8) -> Result<Event, Stop>
        ensures leads { (m : PlainModule) (a : Ahead) → Leads m next result self.new a
            (moved m self.old next (after next.place (seen self.old.values) a (plain_effect kind op (beside self.old.values) (seen self.old.values)))) }
        ensures callers { self.new.callers ≡ self.old.callers }
        ensures labels { self.new.labels ≡ self.old.labels }
    {
        self.values.plain(kind, op)?;
        Ok(Event::Goes(next.place))
    }

    /// The effect of an instruction on a local or a global.
    #[inline(always)]
    fn apply_indexed(&mut self, next: Frame, kind: IndexKind, i: u32) -> Result<Event, Stop>
        ensures leads { (m : PlainModule) (a : Ahead) → Leads m next result self.new a
            (moved m self.old next (after next.place (seen self.old.values) a (index_effect kind i (beside self.old.values) (seen self.old.values)))) }
        ensures callers { self.new.callers ≡ self.old.callers }
        ensures labels { self.new.labels ≡ self.old.labels }
    {
        self.values.indexed(kind, i)?;
        Ok(Event::Goes(next.place))
    }

    /// A load or a store.
    #[inline(always)]
    fn access(&mut self, next: Frame, op: u8, offset: u32) -> Result<Event, Stop>
        ensures leads { (m : PlainModule) (a : Ahead) → Leads m next result self.new a
            (moved m self.old next (after next.place (seen self.old.values) a (memory_effect (width op) op offset (seen self.old.values)))) }
        ensures callers { self.new.callers ≡ self.old.callers }
        ensures labels { self.new.labels ≡ self.old.labels }
    {
        self.values.access(op, offset)?;
        Ok(Event::Goes(next.place))
    }

    /// A constant.
    #[inline(always)]
    fn push(&mut self, next: Frame, value: Value) -> Result<Event, Stop>
        ensures leads { (m : PlainModule) (a : Ahead) → Leads m next result self.new a
            (moved m self.old next (after next.place (seen self.old.values) a (push (beside self.old.values) value (seen self.old.values)))) }
        ensures callers { self.new.callers ≡ self.old.callers }
        ensures labels { self.new.labels ≡ self.old.labels }
    {
        self.values.push(value)?;
        Ok(Event::Goes(next.place))
    }

    /// An instruction without an operand in the code, with its charge.
    #[inline(always)]
    fn plain(
        &mut self,
        alloc: Global,
        costs: &Schedule,
        next: Frame,
        op: u8,
        meter: &mut Meter,
    ) -> Result<Event, Stop>
        requires { IsInRange costs.now }
        ensures leads { (m : PlainModule) (acts : List Act) → Leads m next result self.new (ahead meter.new.left costs.now acts)
            (moved m self.old next (paid (price costs.now op) (shared_of self.old.values) (ahead meter.old.left costs.now acts)
            (λ a. plain_move (plain_kind op) op (beside self.old.values) next.place (seen self.old.values) a))) }
        ensures callers { self.new.callers ≡ self.old.callers }
        ensures sinks { IfOk result (λ e. 5 * meter.new.left + height self.new + weight self.new e ≤ 5 * meter.old.left + height self.old) }
        ensures pays { OnOk result (meter.new.left < meter.old.left) }
        ensures left { meter.new.left ≤ meter.old.left }
        ensures used { meter.new.left + meter.new.used ≡ meter.old.left + meter.old.used }
    {
        match plain_kind(op) {
            PlainKind::Return => {
                charge(meter, prices::cheap(costs, op))?;
                self.return_from(next)
            }
            PlainKind::MemoryGrow => {
                charge(meter, prices::growth(costs, op))?;
                self.grow(alloc, costs, next, meter)
            }
            PlainKind::Nop => {
                charge(meter, prices::cheap(costs, op))?;
                self.apply_plain(next, PlainKind::Nop, op)
            }
            PlainKind::Drop => {
                charge(meter, prices::cheap(costs, op))?;
                self.apply_plain(next, PlainKind::Drop, op)
            }
            PlainKind::Select => {
                charge(meter, prices::cheap(costs, op))?;
                self.apply_plain(next, PlainKind::Select, op)
            }
            PlainKind::MemorySize => {
                charge(meter, prices::cheap(costs, op))?;
                self.apply_plain(next, PlainKind::MemorySize, op)
            }
            PlainKind::OnOne => {
                charge(meter, prices::cheap(costs, op))?;
                self.apply_plain(next, PlainKind::OnOne, op)
            }
            PlainKind::OnTwo => {
                charge(meter, prices::on_two(costs, op))?;
                self.apply_plain(next, PlainKind::OnTwo, op)
            }
            PlainKind::Unreachable => {
                charge(meter, prices::other(costs, op))?;
                self.apply_plain(next, PlainKind::Unreachable, op)
            }
        }
    }

    /// An instruction with an index in the code, with its charge.
    #[inline(always)]
    fn indexed(
        &mut self,
        code: &Code,
        next: Frame,
        op: u8,
        i: u32,
        meter: &mut Meter,
    ) -> Result<Event, Stop>
        requires { IsInRange code.now.costs.now }
        ensures leads { (acts : List Act) → Leads (plain_module code.now.module.now) next result self.new (ahead meter.new.left code.now.costs.now acts)
            (moved (plain_module code.now.module.now) self.old next (paid (price code.now.costs.now op) (shared_of self.old.values) (ahead meter.old.left code.now.costs.now acts)
            (λ a. index_move (plain_module code.now.module.now) (index_kind op) i (beside self.old.values) next.place (seen self.old.values) a))) }
        ensures hosts { OnOk result (hosts self.new.callers.items ≡ hosts self.old.callers.items) }
        ensures sinks { IfOk result (λ e. 5 * meter.new.left + height self.new + weight self.new e ≤ 5 * meter.old.left + height self.old) }
        ensures pays { OnOk result (meter.new.left < meter.old.left) }
        ensures left { meter.new.left ≤ meter.old.left }
        ensures used { meter.new.left + meter.new.used ≡ meter.old.left + meter.old.used }
    {
        match index_kind(op) {
            IndexKind::Branch => {
                charge(meter, prices::cheap_index(code.costs, op))?;
                self.jump(next, i)
            }
            IndexKind::BranchIf => {
                charge(meter, prices::cheap_index(code.costs, op))?;
                self.jump_if(next, i)
            }
            IndexKind::Call => {
                charge(meter, prices::call(code.costs, op))?;
                self.call(code, next, i, meter)
            }
            IndexKind::LocalGet => {
                charge(meter, prices::cheap_index(code.costs, op))?;
                self.apply_indexed(next, IndexKind::LocalGet, i)
            }
            IndexKind::LocalSet => {
                charge(meter, prices::cheap_index(code.costs, op))?;
                self.apply_indexed(next, IndexKind::LocalSet, i)
            }
            IndexKind::LocalTee => {
                charge(meter, prices::cheap_index(code.costs, op))?;
                self.apply_indexed(next, IndexKind::LocalTee, i)
            }
            IndexKind::GlobalGet => {
                charge(meter, prices::cheap_index(code.costs, op))?;
                self.apply_indexed(next, IndexKind::GlobalGet, i)
            }
            IndexKind::GlobalSet => {
                charge(meter, prices::cheap_index(code.costs, op))?;
                self.apply_indexed(next, IndexKind::GlobalSet, i)
            }
            IndexKind::Unreachable => {
                charge(meter, prices::other(code.costs, op))?;
                self.apply_indexed(next, IndexKind::Unreachable, i)
            }
        }
    }

    /// An instruction of a function, with its charge. The next one stands behind it.
    #[inline(always)]
    fn advance_by(
        &mut self,
        alloc: Global,
        code: &Code,
        targets: &[u32],
        next: Frame,
        instr: Instr,
        meter: &mut Meter,
    ) -> Result<Event, Stop>
        requires { IsInRange code.now.costs.now }
        ensures leads { (acts : List Act) → code.now.table.now ≡ table (plain_module code.now.module.now) →
            Leads (plain_module code.now.module.now) next result self.new (ahead meter.new.left code.now.costs.now acts)
            (moved (plain_module code.now.module.now) self.old next (move (plain_module code.now.module.now)
            targets.now (beside self.old.values) next.place (Some instr)
            (seen self.old.values) (ahead meter.old.left code.now.costs.now acts))) }
        ensures hosts { OnOk result (hosts self.new.callers.items ≡ hosts self.old.callers.items) }
        ensures sinks { IfOk result (λ e. 5 * meter.new.left + height self.new + weight self.new e ≤ 5 * meter.old.left + height self.old) }
        ensures free { meter.new.left ≡ meter.old.left → IfOk result (λ e. CallsNone self.new e) }
        ensures left { meter.new.left ≤ meter.old.left }
        ensures used { meter.new.left + meter.new.used ≡ meter.old.left + meter.old.used }
    {
        match instr {
            Instr::Op(op) => self.plain(alloc, code.costs, next, op, meter),
            Instr::Index { op, index } => self.indexed(code, next, op, index, meter),
            Instr::CallIndirect { ty } => {
                charge(meter, code.costs.call_indirect)?;
                self.call_indirect(code, next, ty, meter)
            }
            Instr::BrTable {
                first,
                count,
                default,
            } => {
                charge(meter, code.costs.table_jump)?;
                self.jump_by(targets, next, first, count, default)
            }
            Instr::Mem {
                op,
                align: _,
                offset,
            } => {
                charge(meter, prices::access(code.costs, op))?;
                self.access(next, op, offset)
            }
            Instr::Const(value) => {
                charge(meter, code.costs.plain)?;
                self.push(next, value)
            }
            Instr::Block { result: ty, end } => {
                charge(meter, code.costs.plain)?;
                self.open(next, ty, false, next.place, end as usize + 1)
            }
            Instr::Loop { result: ty, end } => {
                charge(meter, code.costs.plain)?;
                self.open(next, ty, true, next.place, end as usize + 1)
            }
            Instr::If {
                result: ty,
                els,
                end,
            } => {
                charge(meter, code.costs.plain)?;
                self.open_if(next, ty, els, end)
            }
            Instr::Else { end: _ } => self.fall(next),
            Instr::End => self.fall(next),
        }
    }

    /// The instruction that comes next in a function.
    #[inline(always)]
    pub fn advance(
        &mut self,
        alloc: Global,
        code: &Code,
        body: Body,
        frame: Frame,
        meter: &mut Meter,
    ) -> Result<Event, Stop>
        requires costs { IsInRange code.now.costs.now }
        requires body { IsBodyOf (code_at (plain_module code.now.module.now) frame.code) body.instrs.now body.targets.now }
        ensures leads { (acts : List Act) → code.now.table.now ≡ table (plain_module code.now.module.now) →
            Leads (plain_module code.now.module.now) frame result self.new (ahead meter.new.left code.now.costs.now acts)
            (running (plain_module code.now.module.now) self.old frame (ahead meter.old.left code.now.costs.now acts)) }
        ensures hosts { OnOk result (hosts self.new.callers.items ≡ hosts self.old.callers.items) }
        ensures sinks { IfOk result (λ e. 5 * meter.new.left + height self.new + weight self.new e ≤ 5 * meter.old.left + height self.old) }
        ensures free { meter.new.left ≡ meter.old.left → IfOk result (λ e. CallsNone self.new e) }
        ensures left { meter.new.left ≤ meter.old.left }
        ensures used { meter.new.left + meter.new.used ≡ meter.old.left + meter.old.used }
    {
        match item_at(body.instrs, frame.place) {
            Some(instr) => {
                let next = Frame {
                    place: frame.place + 1,
                    ..frame
                };
                self.advance_by(alloc, code, body.targets, next, instr, meter)
            }
            None => self.fall(frame),
        }
    }
}
