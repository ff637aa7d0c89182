use crate::operands::Operands;
use std::alloc::{AllocError, Global};
use std::mem;
use wasm_types::{ValType, ValidKind};

/// A block that is open.
#[derive(Debug, Drop)]
pub struct OpenBlock {
    /// Whether this is the first part of an `if`, behind which an `else` may come.
    pub may_else: bool,
    pub result: Option<ValType>,
    /// What a branch to it takes.
    pub label: Option<ValType>,
    pub operands: Operands,
}

/// The blocks that are open.
#[derive(Debug, Drop)]
pub struct Blocks {
    pub inner: OpenBlock,
    /// Those around it, the innermost last.
    pub outer: Vec<OpenBlock>,
}

impl OpenBlock {
    ghost use Rattle.std.specs.Prelude.{◌≡◌, OnOk};
    ghost use Rattle.wasm_types.specs.Typing.{ended, no_operands};
    ghost use Rattle.wasm_valid.specs.Stacks.{stack, Ends};
    ghost use Rattle.wasm_valid.specs.Frames.{frame, ended_frame, other_part};

    /// Takes the result of a part that ends, and finds nothing left over.
    fn end_part(&mut self) -> Result<(), ValidKind>
        ensures ends { Ends result (ended self.old.result (stack self.old.operands)) }
        ensures may_else { self.new.may_else ≡ self.old.may_else }
        ensures result_kept { self.new.result ≡ self.old.result }
        ensures label { self.new.label ≡ self.old.label }
    {
        self.operands.take_if(self.result)?;
        self.operands.check_empty()
    }

    /// Ends the first part of an `if` and begins the other.
    pub fn begin_other(&mut self) -> Result<(), ValidKind>
        ensures ends { Ends result (ended self.old.result (stack self.old.operands)) }
        ensures begun { OnOk result (frame self.new ≡ other_part (frame self.old)) }
    {
        self.end_part()?;
        self.may_else = false;
        self.operands.clear();
        Ok(())
    }

    /// Ends the block. Where an `else` didn't come, the other part of the `if` is empty.
    fn end(&mut self) -> Result<(), ValidKind>
        ensures { Ends result (ended_frame (frame self.old)) }
    {
        self.end_part()?;
        if self.may_else && self.result.is_some() {
            return Err(ValidKind::Underflow);
        }
        Ok(())
    }
}

impl Blocks {
    ghost use Rattle.std.specs.Prelude.{◌≡◌, ◌∷◌, [], false, slice_get, OnOk};
    ghost use Rattle.wasm_types.specs.Typing.{no_operands};
    ghost use Rattle.wasm_valid.specs.Frames.{labels, frame, frames, opened, Closes};

    /// A body, which is a block of this result.
    pub fn new(alloc: Global, ty: Option<ValType>) -> Blocks
        ensures { frames result ≡ record { may_else = false; result = ty; label = ty; operands = no_operands } ∷ [] }
    {
        Blocks {
            inner: OpenBlock {
                may_else: false,
                result: ty,
                label: ty,
                operands: Operands::new(alloc),
            },
            outer: Vec::new(alloc),
        }
    }

    /// Opens a block of this result, which the block around it is given.
    pub fn open(
        &mut self,
        alloc: Global,
        may_else: bool,
        ty: Option<ValType>,
        label: Option<ValType>,
    ) -> Result<(), AllocError>
        ensures { OnOk result (frames self.new ≡ opened may_else ty label (frames self.old)) }
    {
        self.inner.operands.give(ty)?;
        let opened = OpenBlock {
            may_else,
            result: ty,
            label,
            operands: Operands::new(alloc),
        };
        let around = mem::replace(&mut self.inner, opened);
        self.outer.push(around)?;
        Ok(())
    }

    /// Ends the innermost block, and tells whether one is open around it.
    pub fn close(&mut self) -> Result<bool, ValidKind>
        ensures { Closes result (frames self.old) (frames self.new) }
    {
        self.inner.end()?;
        match self.outer.pop() {
            Some(around) => {
                self.inner = around;
                Ok(true)
            }
            None => Ok(false),
        }
    }

    /// What a branch to the block takes, counted from the innermost one.
    pub fn label(&self, depth: u32) -> Option<Option<ValType>>
        ensures { result ≡ slice_get (labels (frames self.now)) depth }
    {
        let depth = depth as usize;
        if depth == 0 {
            return Some(self.inner.label);
        }
        if depth <= self.outer.len() {
            return Some(self.outer[self.outer.len() - depth].label);
        }
        None
    }
}
