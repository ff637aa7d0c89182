use crate::operands::Operands;
use crate::stop::TypingStop;
use wasm_types::{FuncType, ValType, ValidKind};

/// Operands that an instruction takes, the last one first: `top`, `below`, and the parameters of a
/// function that is called.
#[derive(Clone, Copy, Drop)]
pub struct Takes<'a> {
    pub top: Option<ValType>,
    pub below: Option<ValType>,
    pub callee: Option<&'a FuncType>,
}

impl<'a> Takes<'a> {
    ghost use Rattle.std.specs.Prelude.{◌≡◌, [], ◌∷◌, option_to_list};
    ghost use Rattle.wasm_valid.specs.Rules.{takes};

    pub fn nothing() -> Takes<'a>
        ensures { takes result ≡ [] }
    {
        Takes {
            top: None,
            below: None,
            callee: None,
        }
    }

    pub fn some(t: Option<ValType>) -> Takes<'a>
        ensures { takes result ≡ option_to_list t }
    {
        Takes {
            top: t,
            below: None,
            callee: None,
        }
    }

    pub fn one(t: ValType) -> Takes<'a>
        ensures { takes result ≡ t ∷ [] }
    {
        Takes {
            top: Some(t),
            below: None,
            callee: None,
        }
    }

    pub fn two(top: ValType, below: ValType) -> Takes<'a>
        ensures { takes result ≡ top ∷ below ∷ [] }
    {
        Takes {
            top: Some(top),
            below: Some(below),
            callee: None,
        }
    }
}

/// The type of an instruction.
#[derive(Clone, Copy, Drop)]
pub enum Rule<'a> {
    /// Takes these, and gives that.
    Turns {
        takes: Takes<'a>,
        gives: Option<ValType>,
    },
    /// Takes these; what comes after it is never reached.
    Jumps {
        takes: Takes<'a>,
    },
    /// Takes one operand of any type.
    Drops,
    /// Takes an i32 and two operands of one type, and gives one of it.
    Selects,
}

impl Operands {
    ghost use Rattle.std.specs.Prelude.{◌≡◌};
    ghost use Rattle.wasm_types.specs.Typing.{all_taken, selected, after_rule};
    ghost use Rattle.wasm_valid.specs.Stacks.{stack, Leaves};
    ghost use Rattle.wasm_valid.specs.Rules.{takes, plain_rule, Turned};

    fn take_these(&mut self, wanted: Takes<'_>) -> Result<(), ValidKind>
        ensures { Leaves result (stack self.new) (all_taken (takes wanted.entry) (stack self.old)) }
    {
        match self.take_if(wanted.top) {
            Ok(()) => {}
            Err(kind) => return Err(kind),
        }
        match self.take_if(wanted.below) {
            Ok(()) => {}
            Err(kind) => return Err(kind),
        }
        match wanted.callee {
            Some(callee) => self.take_all(&callee.params),
            None => Ok(()),
        }
    }

    fn select(&mut self) -> Result<(), TypingStop>
        ensures { Turned result (stack self.new) (selected (stack self.old)) }
    {
        self.take(ValType::I32)?;
        let second = self.pop()?;
        let first = self.pop()?;
        let chosen = one_of(second, first)?;
        self.push(chosen)?;
        Ok(())
    }

    /// What an instruction of this type does with the operands.
    pub fn apply(&mut self, rule: Rule<'_>) -> Result<(), TypingStop>
        ensures { Turned result (stack self.new) (after_rule (plain_rule rule.entry) (stack self.old)) }
    {
        match rule {
            Rule::Turns { takes, gives } => {
                self.take_these(takes)?;
                self.give(gives)?;
                Ok(())
            }
            Rule::Jumps { takes } => {
                self.take_these(takes)?;
                self.branch();
                Ok(())
            }
            Rule::Drops => {
                self.pop()?;
                Ok(())
            }
            Rule::Selects => self.select(),
        }
    }
}

ghost use Rattle.wasm_valid.specs.Rules.{Chosen};

/// The type that two operands have, if it can be one.
fn one_of(second: Option<ValType>, first: Option<ValType>) -> Result<Option<ValType>, ValidKind>
    ensures { Chosen result second first }
{
    match second {
        None => Ok(first),
        Some(t) => match first {
            None => Ok(Some(t)),
            Some(u) => {
                if t == u {
                    Ok(Some(t))
                } else {
                    Err(ValidKind::Mismatch)
                }
            }
        },
    }
}
