ghost use Rattle.std.specs.Prelude.{◌≡◌, ⊤, ℕ, nat_lt, nat_le, ◌&&◌, OnErr, Err, ◌+◌, ◌*◌, ◌≤◌, ◌++◌, ◌∷◌, [], suc, drop, take, length, map, reverse, IfOk, OnOk, MatchOption};
ghost use Rattle.wasm_types.specs.Plain.{PlainModule, plain_module};
ghost use Rattle.wasm_machine.specs.Start.{zero_of, code_at};
ghost use Rattle.wasm_machine.specs.Effects.{most_values, with_operands};
ghost use Rattle.wasm_machine.specs.Exec.{Ahead, calls, gives, most_frames, enters_code, run};
ghost use Rattle.wasm_machine.specs.Piles.{all, below, span, own};
ghost use Rattle.wasm_machine.specs.Values.{beside, seen, shared_of};
ghost use Rattle.wasm_machine.specs.Rests.{hosts, StepHosts, LeadsTo, LeadsOn, moved, through, giving, called_with, entered};

use crate::frame::{Caller, Frame, Pause, Step};
use crate::functions::{func_type, imported, locals_at};
use crate::pile::Pile;
use crate::state::State;
use crate::stop::{MISPLACED, Stop};
use crate::turn::TrapKind;
use std::alloc::{AllocError, Global};
use wasm_types::{Module, ValType, Value};

fn zero_of(ty: ValType) -> Value
    ensures { result ≡ zero_of ty }
{
    match ty {
        ValType::I32 => Value::I32(0),
        ValType::I64 => Value::I64(0),
    }
}

/// Arguments become locals.
fn push_all(locals: &mut Pile<Value>, values: &[Value]) -> Result<(), AllocError>
    ensures span { OnOk result (span locals.new ≡ span locals.old ++ values.now) }
    ensures all { OnOk result (all locals.new ≡ all locals.old ++ values.now) }
    ensures below { OnOk result (below locals.new ≡ below locals.old) }
{
    for value in values {
        locals.push(*value)?;
    }
    Ok(())
}

/// The declared locals follow.
fn push_zeros(locals: &mut Pile<Value>, types: &[ValType]) -> Result<(), AllocError>
    ensures span { OnOk result (span locals.new ≡ span locals.old ++ map zero_of types.now) }
    ensures all { OnOk result (all locals.new ≡ all locals.old ++ map zero_of types.now) }
    ensures below { OnOk result (below locals.new ≡ below locals.old) }
{
    for ty in types {
        locals.push(zero_of(*ty))?;
    }
    Ok(())
}

impl State {
    pub const MOST_FRAMES: usize = 512;

    /// The host calls a function with these arguments.
    pub fn begin_call(&mut self, args: &[Value]) -> Result<(), AllocError>
        ensures callers { OnOk result (self.new.callers.items ≡ self.old.callers.items ++ Caller.Host ∷ []) }
        ensures args { OnOk result (span self.new.values.operands ≡ args.now) }
        ensures operands { OnOk result (below self.new.values.operands ≡ all self.old.values.operands) }
        ensures locals { all self.new.values.locals ≡ all self.old.values.locals }
        ensures labels { all self.new.labels ≡ all self.old.labels }
        ensures shared { shared_of self.new.values ≡ shared_of self.old.values }
        ensures depth { self.new.depth ≡ self.old.depth }
    {
        self.values.operands.raise();
        match self.callers.push(Caller::Host) {
            Ok(()) => {}
            Err(_) => return Err(AllocError),
        }
        push_all(&mut self.values.operands, args)
    }

    /// A call ends: its caller goes on, or the host does.
    pub fn give(&mut self, value: Option<Value>) -> Result<Option<Frame>, Stop>
        ensures leads { (m : PlainModule) (a : Ahead) → 1 ≤ hosts self.old.callers.items →
            LeadsOn m value result self.new a (giving m self.old value a) }
        ensures hosts { IfOk result (λ next. MatchOption next (hosts self.old.callers.items ≡ suc (hosts self.new.callers.items))
            (λ frame. hosts self.new.callers.items ≡ hosts self.old.callers.items)) }
        ensures sinks { IfOk result (λ next. MatchOption next ⊤
            (λ frame. (length (all self.new.labels) ≡ length (all self.old.labels)) × (length self.new.callers.items + 1 ≡ length self.old.callers.items))) }
    {
        match self.callers.pop() {
            Some(caller) => self.give_to(caller, value),
            None => Err(MISPLACED),
        }
    }

    /// The newest caller, which was taken from the callers, goes on.
    fn give_to(&mut self, caller: Caller, value: Option<Value>) -> Result<Option<Frame>, Stop>
        ensures leads { (m : PlainModule) (a : Ahead) → LeadsOn m value result self.new a
            (through m (caller ∷ reverse self.old.callers.items) (all self.old.values.operands) (all self.old.values.locals)
            (all self.old.labels) self.old.depth (gives value (shared_of self.old.values) a)) }
        ensures callers { self.new.callers ≡ self.old.callers }
        ensures hosts { IfOk result (λ next. MatchOption next (hosts (caller ∷ []) ≡ 1) (λ frame. hosts (caller ∷ []) ≡ 0)) }
        ensures labels { all self.new.labels ≡ all self.old.labels }
    {
        match caller {
            Caller::Host => Ok(None),
            Caller::Function {
                frame,
                operands,
                locals,
                labels,
            } => {
                self.values.operands.restore(operands);
                self.values.locals.restore(locals);
                self.labels.restore(labels);
                self.values.give(value)?;
                Ok(Some(frame))
            }
        }
    }

    /// The topmost operands are set apart as arguments of a function, and this one waits.
    #[inline(always)]
    pub fn suspend(&mut self, frame: Frame, args: usize) -> Result<(), Stop>
        requires { args ≤ length (own self.old.values.operands) }
        ensures leads { OnOk result ((m : PlainModule) (func : ℕ) (a : Ahead) →
            moved m self.old frame (calls func (reverse (take args (own self.old.values.operands)))
            (with_operands (seen self.old.values) (drop args (own self.old.values.operands))) a)
            ≡ called_with m self.new (entered m self.new func a)) }
        ensures none { OnErr result (result ≡ Err Stop.NoMemory) }
        ensures hosts { OnOk result (hosts self.new.callers.items ≡ hosts self.old.callers.items) }
        ensures sinks { OnOk result ((length (all self.new.labels) ≡ length (all self.old.labels)) × (length self.new.callers.items ≡ length self.old.callers.items + 1)) }
    {
        let operands = self.values.operands.raise_over(args);
        let locals = self.values.locals.raise();
        let labels = self.labels.raise();
        let caller = Caller::Function {
            frame,
            operands,
            locals,
            labels,
        };
        match self.callers.push(caller) {
            Ok(()) => Ok(()),
            Err(_) => Err(Stop::NoMemory),
        }
    }

    /// A function is entered, with the operands as its arguments.
    pub fn enter(&mut self, alloc: Global, m: &Module, func: u32) -> Result<Step, Stop>
        ensures leads { (a : Ahead) → LeadsTo (plain_module m.now) result self.new a
            (called_with (plain_module m.now) self.old (entered (plain_module m.now) self.old func a)) }
        ensures callers { self.new.callers ≡ self.old.callers }
        ensures hosts { IfOk result (λ step. StepHosts step (hosts self.old.callers.items) (hosts self.new.callers.items)) }
        ensures labels { OnOk result (length (all self.new.labels) ≤ length (all self.old.labels)) }
    {
        let imported = imported(m);
        if (func as usize) < imported {
            let args = Vec::from_slice(alloc, self.values.operands.own_items())?;
            self.values.operands.clear();
            return Ok(Step::Stops(Pause::Asks { import: func, args }));
        }
        match func_type(m, func) {
            Some(ty) => self.begin(m, func as usize - imported, ty.result),
            None => Err(MISPLACED),
        }
    }

    /// Whether there may be one more frame, with so many declared locals.
    fn has_room(&self, declared: usize) -> bool
        ensures { result ≡ (nat_lt self.now.depth most_frames
            && nat_le (beside self.now.values + length (own self.now.values.operands) + declared) most_values) }
    {
        self.depth < State::MOST_FRAMES && self.values.has_room(declared)
    }

    /// A function of the module begins.
    fn begin(&mut self, m: &Module, code: usize, ty: Option<ValType>) -> Result<Step, Stop>
        ensures leads { (a : Ahead) → LeadsTo (plain_module m.now) result self.new a
            (called_with (plain_module m.now) self.old (enters_code (run (plain_module m.now)) self.old.depth
            (length (all self.old.values.locals) + length (below self.old.values.operands)) ty
            (code_at (plain_module m.now) code) (span self.old.values.operands) (shared_of self.old.values) a)) }
        ensures callers { self.new.callers ≡ self.old.callers }
        ensures hosts { IfOk result (λ step. StepHosts step (hosts self.old.callers.items) (hosts self.new.callers.items)) }
        ensures labels { OnOk result (length (all self.new.labels) ≤ length (all self.old.labels)) }
    {
        let locals = locals_at(m, code);
        if !self.has_room(locals.len()) {
            return Err(Stop::Trap(TrapKind::StackOverflow));
        }
        self.labels.raise();
        self.values.locals.raise();
        push_all(&mut self.values.locals, self.values.operands.own_items())?;
        push_zeros(&mut self.values.locals, locals)?;
        self.values.operands.clear();
        self.depth += 1;
        Ok(Step::Runs(Frame {
            code,
            place: 0,
            result: ty,
        }))
    }
}
