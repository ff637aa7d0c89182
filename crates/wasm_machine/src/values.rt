ghost use Rattle.std.specs.Prelude.{◌≡◌, ◌+◌, ◌≤◌, nat_lt, nat_le, length, Some};
ghost use Rattle.wasm_machine.specs.Kinds.{width};

use crate::kind::{IndexKind, PlainKind, width};
use crate::numbers::{loaded, num_of, stored, trap_of, value_of};
use crate::pile::Pile;
use crate::stop::{MISPLACED, Stop};
use crate::turn::TrapKind;
use int_ops::{binary, is_binary, is_unary, unary};
use linear_memory::Memory;
use wasm_types::Value;

/// What the instructions of a function work on.
#[derive(Drop)]
pub(crate) struct Values {
    pub memory: Memory,
    pub globals: Vec<Value>,
    pub operands: Pile<Value>,
    pub locals: Pile<Value>,
}

impl Values {
    ghost use Rattle.wasm_machine.specs.Effects.{most_values, push, given, on_one, on_two, dropped, chosen, plain_effect, got, local_set, local_tee, global_set, index_effect, load, store, memory_effect};
    ghost use Rattle.wasm_machine.specs.Values.{beside, seen, Does};
    ghost use Rattle.wasm_machine.specs.Piles.{own};

    /// No more operands and locals than this stand over all calls that are under way.
    pub const MOST: usize = 131_072;

    /// Whether there may be one more operand.
    #[tactic(auto, using(crate::proofs::Piles::size_split))]
    #[inline(always)]
    fn has_place(&self) -> bool
        ensures { result ≡ nat_lt (beside self.now + length (own self.now.operands)) most_values }
    {
        self.locals.len() + self.operands.len() < Values::MOST
    }

    /// Whether there may be so many more operands and locals.
    #[tactic(auto, using(crate::proofs::Piles::size_split))]
    #[inline(always)]
    pub fn has_room(&self, more: usize) -> bool
        ensures { result ≡ nat_le (beside self.now + length (own self.now.operands) + more) most_values }
    {
        let count = self.locals.len().saturating_add(self.operands.len());
        count.saturating_add(more) <= Values::MOST
    }

    /// One more operand, where there is room.
    #[inline(always)]
    pub fn push(&mut self, value: Value) -> Result<(), Stop>
        ensures { Does result (push (beside self.old) value (seen self.old)) self.old self.new }
    {
        if !self.has_place() {
            return Err(Stop::Trap(TrapKind::StackOverflow));
        }
        self.operands.push(value)?;
        Ok(())
    }

    /// What a call gives, if anything, becomes an operand.
    #[inline(always)]
    pub fn give(&mut self, value: Option<Value>) -> Result<(), Stop>
        ensures { Does result (given (beside self.old) value (seen self.old)) self.old self.new }
    {
        match value {
            Some(value) => self.push(value),
            None => Ok(()),
        }
    }

    #[inline(always)]
    fn on_one(&mut self, op: u8) -> Result<(), Stop>
        ensures { Does result (on_one op (seen self.old) (own self.old.operands)) self.old self.new }
    {
        let Some(a) = self.operands.pop() else {
            return Err(MISPLACED);
        };
        let a = num_of(a);
        if !is_unary(op, a) {
            return Err(MISPLACED);
        }
        self.operands.push(value_of(unary(op, a)))?;
        Ok(())
    }

    #[inline(always)]
    fn on_two(&mut self, op: u8) -> Result<(), Stop>
        ensures { Does result (on_two op (seen self.old) (own self.old.operands)) self.old self.new }
    {
        let Some(b) = self.operands.pop() else {
            return Err(MISPLACED);
        };
        let Some(a) = self.operands.pop() else {
            return Err(MISPLACED);
        };
        let a = num_of(a);
        let b = num_of(b);
        if !is_binary(op, a, b) {
            return Err(MISPLACED);
        }
        match binary(op, a, b) {
            Ok(n) => {
                self.operands.push(value_of(n))?;
                Ok(())
            }
            Err(trap) => Err(Stop::Trap(trap_of(trap))),
        }
    }

    #[inline(always)]
    fn drop_one(&mut self) -> Result<(), Stop>
        ensures { Does result (dropped (seen self.old) (own self.old.operands)) self.old self.new }
    {
        match self.operands.pop() {
            Some(_) => Ok(()),
            None => Err(MISPLACED),
        }
    }

    #[inline(always)]
    fn select(&mut self) -> Result<(), Stop>
        ensures { Does result (chosen (seen self.old) (own self.old.operands)) self.old self.new }
    {
        let Some(c) = self.operands.pop() else {
            return Err(MISPLACED);
        };
        let Value::I32(c) = c else {
            return Err(MISPLACED);
        };
        let Some(b) = self.operands.pop() else {
            return Err(MISPLACED);
        };
        let Some(a) = self.operands.pop() else {
            return Err(MISPLACED);
        };
        self.operands.push(if c == 0 { b } else { a })?;
        Ok(())
    }

    /// An instruction without an operand in the code.
    #[inline(always)]
    pub fn plain(&mut self, kind: PlainKind, op: u8) -> Result<(), Stop>
        ensures { Does result (plain_effect kind op (beside self.old) (seen self.old)) self.old self.new }
    {
        match kind {
            PlainKind::Nop => Ok(()),
            PlainKind::Drop => self.drop_one(),
            PlainKind::Select => self.select(),
            PlainKind::MemorySize => {
                let pages = self.memory.pages();
                self.push(Value::I32(pages))
            }
            PlainKind::OnOne => self.on_one(op),
            PlainKind::OnTwo => self.on_two(op),
            PlainKind::Return | PlainKind::MemoryGrow | PlainKind::Unreachable => Err(MISPLACED),
        }
    }

    #[inline(always)]
    fn got(&mut self, value: Option<Value>) -> Result<(), Stop>
        ensures { Does result (got (beside self.old) (seen self.old) value) self.old self.new }
    {
        match value {
            Some(value) => self.push(value),
            None => Err(MISPLACED),
        }
    }

    #[inline(always)]
    fn local_set(&mut self, i: u32) -> Result<(), Stop>
        ensures { Does result (local_set i (seen self.old) (own self.old.operands)) self.old self.new }
    {
        let Some(value) = self.operands.pop() else {
            return Err(MISPLACED);
        };
        if i as usize >= self.locals.own_len() {
            return Err(MISPLACED);
        }
        self.locals.set(i as usize, value);
        Ok(())
    }

    #[inline(always)]
    fn local_tee(&mut self, i: u32) -> Result<(), Stop>
        ensures { Does result (local_tee i (seen self.old) (own self.old.operands)) self.old self.new }
    {
        let Some(value) = self.operands.top() else {
            return Err(MISPLACED);
        };
        if i as usize >= self.locals.own_len() {
            return Err(MISPLACED);
        }
        self.locals.set(i as usize, value);
        Ok(())
    }

    #[inline(always)]
    fn global_set(&mut self, i: u32) -> Result<(), Stop>
        ensures { Does result (global_set i (seen self.old) (own self.old.operands)) self.old self.new }
    {
        let Some(value) = self.operands.pop() else {
            return Err(MISPLACED);
        };
        if i as usize >= self.globals.len() {
            return Err(MISPLACED);
        }
        self.globals[i as usize] = value;
        Ok(())
    }

    /// An instruction on a local or a global.
    #[inline(always)]
    pub fn indexed(&mut self, kind: IndexKind, i: u32) -> Result<(), Stop>
        ensures { Does result (index_effect kind i (beside self.old) (seen self.old)) self.old self.new }
    {
        match kind {
            IndexKind::LocalGet => {
                let value = self.locals.get(i as usize);
                self.got(value)
            }
            IndexKind::LocalSet => self.local_set(i),
            IndexKind::LocalTee => self.local_tee(i),
            IndexKind::GlobalGet => {
                let value = self.globals.get(i as usize).copied();
                self.got(value)
            }
            IndexKind::GlobalSet => self.global_set(i),
            IndexKind::Branch | IndexKind::BranchIf | IndexKind::Call | IndexKind::Unreachable =>
                Err(MISPLACED),
        }
    }

    #[inline(always)]
    fn load(&mut self, op: u8, bytes: u8, offset: u32) -> Result<(), Stop>
        requires width { width op ≡ Some bytes }
        requires load { op ≤ 0x35 }
        ensures { Does result (load op bytes offset (seen self.old) (own self.old.operands)) self.old self.new }
    {
        let Some(at) = self.operands.pop() else {
            return Err(MISPLACED);
        };
        let Value::I32(at) = at else {
            return Err(MISPLACED);
        };
        match self.memory.load(u64::from(at) + u64::from(offset), bytes) {
            Ok(n) => {
                self.operands.push(loaded(op, n))?;
                Ok(())
            }
            Err(_) => Err(Stop::Trap(TrapKind::OutOfBounds)),
        }
    }

    #[inline(always)]
    fn store(&mut self, op: u8, bytes: u8, offset: u32) -> Result<(), Stop>
        requires { width op ≡ Some bytes }
        ensures { Does result (store op bytes offset (seen self.old) (own self.old.operands)) self.old self.new }
    {
        let Some(value) = self.operands.pop() else {
            return Err(MISPLACED);
        };
        let Some(at) = self.operands.pop() else {
            return Err(MISPLACED);
        };
        let Value::I32(at) = at else {
            return Err(MISPLACED);
        };
        let Some(n) = stored(op, value) else {
            return Err(MISPLACED);
        };
        match self
            .memory
            .store(u64::from(at) + u64::from(offset), bytes, n)
        {
            Ok(()) => Ok(()),
            Err(_) => Err(Stop::Trap(TrapKind::OutOfBounds)),
        }
    }

    /// A load or a store.
    #[inline(always)]
    pub fn access(&mut self, op: u8, offset: u32) -> Result<(), Stop>
        ensures { Does result (memory_effect (width op) op offset (seen self.old)) self.old self.new }
    {
        let Some(bytes) = width(op) else {
            return Err(MISPLACED);
        };
        if op <= 0x35 {
            self.load(op, bytes, offset)
        } else {
            self.store(op, bytes, offset)
        }
    }
}
