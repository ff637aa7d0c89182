use std::alloc::{AllocError, Global};
use wasm_types::{ValType, ValidKind};

/// The operands that a block has pushed, the last one last; `None` is one of any type. After a branch
/// there are as many more below as are wanted.
#[derive(Debug, Drop)]
pub struct Operands {
    types: Vec<Option<ValType>>,
    any: bool,
}

impl Operands {
    ghost use Rattle.std.specs.Prelude.{◌≡◌, reverse, Ok, option_to_list};
    ghost use Rattle.wasm_types.specs.Typing.{no_operands, any_operands, pop, taken, all_taken, pushed, given, nothing_left};
    ghost use Rattle.wasm_valid.specs.Stacks.{stack, Pops, Leaves, Ends, Gave};

    /// None.
    pub fn new(alloc: Global) -> Operands
        ensures { stack result ≡ no_operands }
    {
        Operands {
            types: Vec::new(alloc),
            any: false,
        }
    }

    /// The last one.
    pub fn pop(&mut self) -> Result<Option<ValType>, ValidKind>
        ensures { Pops result (stack self.new) (pop (stack self.old)) }
    {
        match self.types.pop() {
            Some(t) => Ok(t),
            None => {
                if self.any {
                    Ok(None)
                } else {
                    Err(ValidKind::Underflow)
                }
            }
        }
    }

    /// Takes the last one, which has to be of this type.
    pub fn take(&mut self, wanted: ValType) -> Result<(), ValidKind>
        ensures { Leaves result (stack self.new) (taken wanted (stack self.old)) }
    {
        match self.pop()? {
            None => Ok(()),
            Some(t) => {
                if wanted == t {
                    Ok(())
                } else {
                    Err(ValidKind::Mismatch)
                }
            }
        }
    }

    /// Takes one of the type, if there is one.
    pub fn take_if(&mut self, wanted: Option<ValType>) -> Result<(), ValidKind>
        ensures { Leaves result (stack self.new) (all_taken (option_to_list wanted) (stack self.old)) }
    {
        match wanted {
            Some(t) => self.take(t),
            None => Ok(()),
        }
    }

    /// Takes all of these, the last one first. Where none is left after a branch, it takes no time.
    pub fn take_all(&mut self, wanted: &[ValType]) -> Result<(), ValidKind>
        ensures { Leaves result (stack self.new) (all_taken (reverse wanted.now) (stack self.old)) }
    {
        let mut left = wanted.len();
        while left > 0 {
            if self.any && self.types.is_empty() {
                return Ok(());
            }
            left -= 1;
            self.take(wanted[left])?;
        }
        Ok(())
    }

    pub fn push(&mut self, t: Option<ValType>) -> Result<(), AllocError>
        ensures { Gave result (stack self.new) (pushed t (stack self.old)) }
    {
        self.types.push(t)?;
        Ok(())
    }

    /// Pushes one of the type, if there is one.
    pub fn give(&mut self, t: Option<ValType>) -> Result<(), AllocError>
        ensures { Gave result (stack self.new) (given t (stack self.old)) }
    {
        match t {
            Some(t) => self.push(Some(t)),
            None => Ok(()),
        }
    }

    /// After a branch.
    pub fn branch(&mut self)
        ensures { stack self.new ≡ any_operands }
    {
        self.types.clear();
        self.any = true;
    }

    /// None, as at the begin of a block.
    pub fn clear(&mut self)
        ensures { stack self.new ≡ no_operands }
    {
        self.types.clear();
        self.any = false;
    }

    /// Whether none is left over.
    pub fn check_empty(&self) -> Result<(), ValidKind>
        ensures { Ends result (nothing_left (stack self.now).types) }
    {
        if self.types.is_empty() {
            Ok(())
        } else {
            Err(ValidKind::Leftover)
        }
    }
}
