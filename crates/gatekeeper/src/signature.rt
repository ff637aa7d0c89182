ghost use Rattle.std.specs.Prelude.{◌≡◌, replicate};
ghost use Rattle.std.specs.Cmp.Lexicographic.{pointwise};
ghost use Rattle.wasm_types.specs.declared.value.ValType.TheVariants.{I32};
ghost use Rattle.std.specs.List.{list_all};
ghost use Rattle.wasm_types.specs.Plain.{plain_func_type};
ghost use Rattle.wasm_types.specs.Typing.{same_type};
ghost use Rattle.wasm_types.specs.Gate.{same_func_type};
ghost use Rattle.gatekeeper.specs.Signatures.{plain_signature, is_i32};

use wasm_types::{FuncType, ValType};

/// A function of so many i32.
#[derive(Clone, Copy, Debug, PartialEq, Eq)]
pub struct Signature {
    pub params: usize,
    pub result: Option<ValType>,
}

fn is_i32(t: ValType) -> bool
    ensures { result ≡ is_i32 t }
{
    t == ValType::I32
}

fn are_i32(types: &[ValType]) -> bool
    ensures { result ≡ list_all is_i32 types.now }
{
    types.iter().all(|t| is_i32(*t))
}

/// Whether there are so many types, all i32.
#[tactic(auto, using(crate::proofs::Named::same_length, crate::proofs::Named::other_length))]
fn are_params(types: &[ValType], count: usize) -> bool
    ensures { result ≡ pointwise same_type types.now (replicate count I32) }
{
    if types.len() != count {
        return false;
    }
    are_i32(types)
}

impl Signature {
    /// Whether a function has this type.
    pub fn is_of(self, ty: &FuncType) -> bool
        ensures { result ≡ same_func_type (plain_func_type ty.now) (plain_signature self) }
    {
        are_params(&ty.params, self.params) && ty.result == self.result
    }
}
