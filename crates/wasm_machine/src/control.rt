ghost use Rattle.std.specs.Prelude.{◌≡◌, ◌+◌, ◌≤◌, length, Some, None, IfOk, if◌then◌else◌};
ghost use Rattle.wasm_types.specs.Plain.{PlainModule};
ghost use Rattle.wasm_machine.specs.Effects as effects;
ghost use Rattle.wasm_machine.specs.Exec.{Ahead, opens, leaves, falls, jumps, returns};
ghost use Rattle.wasm_machine.specs.Piles.{all};
ghost use Rattle.wasm_machine.specs.Values.{seen};
ghost use Rattle.wasm_machine.specs.Rests.{weight, CallsNone, Leads, inside, moved, start_of, closing, finishing, HasTop};
ghost use Rattle.wasm_machine.specs.Control.{Hands, yielded};

use crate::frame::{Event, Frame, Label, Next};
use crate::pile::Pile;
use crate::state::State;
use crate::stop::{MISPLACED, Stop};
use wasm_types::{ValType, Value};

/// Where a block has its next turn, if it is a loop.
#[inline(always)]
fn turn_of(loops: bool, start: usize) -> Option<usize>
    ensures { result ≡ (if loops then Some start else None) }
{
    if loops { Some(start) } else { None }
}

/// Where a branch to a label begins the next turn of a loop.
#[inline(always)]
fn start_of(label: Option<Label>) -> Option<usize>
    ensures { result ≡ start_of label }
{
    match label {
        Some(label) => label.start,
        None => None,
    }
}

/// The result of a block becomes an operand of the block around it.
#[inline(always)]
fn hand(operands: &mut Pile<Value>, ty: Option<ValType>, value: Option<Value>) -> Result<(), Stop>
    ensures { Hands ty value operands.old operands.new result }
{
    if ty.is_none() {
        return Ok(());
    }
    match value {
        Some(value) => {
            operands.push(value)?;
            Ok(())
        }
        None => Err(MISPLACED),
    }
}

/// What a function gives that ends with this value on top: nothing where it has no result. A result
/// may be missing.
#[inline(always)]
fn yielded(ty: Option<ValType>, value: Option<Value>) -> Option<Option<Value>>
    ensures { result ≡ yielded ty value }
{
    if ty.is_none() {
        return Some(None);
    }
    match value {
        Some(value) => Some(Some(value)),
        None => None,
    }
}

impl State {
    /// A block begins.
    #[inline(always)]
    pub fn open(
        &mut self,
        frame: Frame,
        ty: Option<ValType>,
        loops: bool,
        start: usize,
        after: usize,
    ) -> Result<Event, Stop>
        ensures leads { (m : PlainModule) (a : Ahead) → Leads m frame result self.new a
            (moved m self.old frame (opens loops ty start after (seen self.old.values) a)) }
        ensures callers { self.new.callers ≡ self.old.callers }
        ensures sinks { IfOk result (λ e. length (all self.new.labels) + weight self.new e ≤ length (all self.old.labels) + 2) }
    {
        let floor = self.values.operands.raise();
        self.labels.push(Label {
            result: ty,
            after,
            start: turn_of(loops, start),
            floor,
        })?;
        Ok(Event::Goes(start))
    }

    /// The block of this label, which was taken from the labels, ends with a value on top.
    #[inline(always)]
    fn close(&mut self, frame: Frame, label: Label, value: Option<Value>) -> Result<Event, Stop>
        ensures leads { (m : PlainModule) (inner : effects.State) (a : Ahead) → HasTop self.old value inner →
            Leads m frame result self.new a (closing m self.old frame label inner a) }
        ensures callers { self.new.callers ≡ self.old.callers }
        ensures sinks { IfOk result (λ e. length (all self.new.labels) + weight self.new e ≤ length (all self.old.labels) + 1) }
        ensures calls { IfOk result (λ e. CallsNone self.new e) }
    {
        self.values.operands.clear();
        self.values.operands.reset(label.floor);
        hand(&mut self.values.operands, label.result, value)?;
        Ok(Event::Goes(label.after))
    }

    /// The function ends with a value on top, and has no open blocks.
    #[inline(always)]
    fn finish(&mut self, frame: Frame, value: Option<Value>) -> Result<Event, Stop>
        ensures leads { (m : PlainModule) (inner : effects.State) (a : Ahead) → HasTop self.old value inner →
            Leads m frame result self.new a (finishing m self.old frame inner a) }
        ensures callers { self.new.callers ≡ self.old.callers }
        ensures sinks { IfOk result (λ e. length (all self.new.labels) + weight self.new e ≤ length (all self.old.labels)) }
        ensures calls { IfOk result (λ e. CallsNone self.new e) }
    {
        self.values.operands.clear();
        self.values.locals.clear();
        self.labels.clear();
        self.depth = self.depth.saturating_sub(1);
        match yielded(frame.result, value) {
            Some(value) => {
                self.next = Next::Give(value);
                Ok(Event::Leaves)
            }
            None => Err(MISPLACED),
        }
    }

    /// The innermost block is at its end.
    #[inline(always)]
    pub fn fall(&mut self, frame: Frame) -> Result<Event, Stop>
        ensures leads { (m : PlainModule) (a : Ahead) → Leads m frame result self.new a
            (moved m self.old frame (leaves (falls (seen self.old.values) a))) }
        ensures callers { self.new.callers ≡ self.old.callers }
        ensures sinks { IfOk result (λ e. length (all self.new.labels) + weight self.new e ≤ length (all self.old.labels)) }
        ensures calls { IfOk result (λ e. CallsNone self.new e) }
    {
        let value = self.values.operands.top();
        match self.labels.pop() {
            Some(label) => self.close(frame, label, value),
            None => self.finish(frame, value),
        }
    }

    /// A branch to the innermost label, with a value on top. The label of a loop stays.
    #[inline(always)]
    fn arrive(&mut self, frame: Frame, value: Option<Value>) -> Result<Event, Stop>
        ensures leads { (m : PlainModule) (inner : effects.State) (a : Ahead) → HasTop self.old value inner →
            Leads m frame result self.new a (inside m self.old frame (jumps 0 inner a)) }
        ensures callers { self.new.callers ≡ self.old.callers }
        ensures sinks { IfOk result (λ e. length (all self.new.labels) + weight self.new e ≤ length (all self.old.labels) + 1) }
    {
        match start_of(self.labels.top()) {
            Some(start) => {
                self.values.operands.clear();
                Ok(Event::Goes(start))
            }
            None => match self.labels.pop() {
                Some(label) => self.close(frame, label, value),
                None => self.finish(frame, value),
            },
        }
    }

    /// A branch out of so many blocks.
    #[inline(always)]
    pub fn jump(&mut self, frame: Frame, label: u32) -> Result<Event, Stop>
        ensures leads { (m : PlainModule) (a : Ahead) → Leads m frame result self.new a
            (moved m self.old frame (leaves (jumps label (seen self.old.values) a))) }
        ensures callers { self.new.callers ≡ self.old.callers }
        ensures sinks { IfOk result (λ e. length (all self.new.labels) + weight self.new e ≤ length (all self.old.labels) + 1) }
    {
        let value = self.values.operands.top();
        for _ in 0..label {
            match self.labels.pop() {
                Some(left) => self.values.operands.reset(left.floor),
                None => return Err(MISPLACED),
            }
        }
        self.arrive(frame, value)
    }

    /// The function is left from within its blocks.
    #[inline(always)]
    pub fn return_from(&mut self, frame: Frame) -> Result<Event, Stop>
        ensures leads { (m : PlainModule) (a : Ahead) → Leads m frame result self.new a
            (moved m self.old frame (leaves (returns (seen self.old.values) a))) }
        ensures callers { self.new.callers ≡ self.old.callers }
        ensures sinks { IfOk result (λ e. length (all self.new.labels) + weight self.new e ≤ length (all self.old.labels)) }
    {
        let value = self.values.operands.top();
        loop {
            match self.labels.pop() {
                Some(left) => self.values.operands.reset(left.floor),
                None => return self.finish(frame, value),
            }
        }
    }
}
