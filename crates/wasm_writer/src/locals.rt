ghost use Rattle.std.specs.Prelude.{◌≡◌, ℕ, ◌++◌, ◌<◌, ◌≤◌, length, IfOk, OnOk};
ghost use Rattle.wasm_writer.specs.Spelling.{runs, run_text, front_len, locals_text};

use crate::number::put_unsigned;
use crate::spell::{Spell, put_vector};
use std::alloc::{AllocError, Global};
use wasm_types::ValType;

/// So many locals of one type, which stand next to one another.
#[derive(Clone, Copy, Debug)]
pub struct Run {
    pub count: usize,
    pub ty: ValType,
}

impl Spell for Run {
    ghost text = { run_text };

    fn put(&self, out: &mut Vec<u8>) -> Result<(), AllocError> {
        put_unsigned(out, self.count)?;
        self.ty.put(out)
    }
}

/// How many types at the front are this one.
fn front_len(types: &[ValType], ty: ValType) -> usize
    ensures value { result ≡ front_len ty types.now }
    ensures most { result ≤ length types.now }
{
    for (i, other) in types.iter().enumerate() {
        if *other != ty {
            return i;
        }
    }
    types.len()
}

fn runs_of(alloc: Global, types: &[ValType]) -> Result<Vec<Run>, AllocError>
    ensures { IfOk result (λ v. v.items ≡ runs types.now) }
{
    let mut all = Vec::new(alloc);
    let mut rest = types;
    while !rest.is_empty() {
        let ty = rest[0];
        let count = front_len(rest, ty);
        all.push(Run { count, ty })?;
        rest = &rest[count..];
    }
    Ok(all)
}

/// The locals of a function, each run of one type as one group.
pub fn put_locals(out: &mut Vec<u8>, types: &[ValType]) -> Result<(), AllocError>
    ensures { OnOk result (out.new.items ≡ out.old.items ++ locals_text types.now) }
{
    let runs = runs_of(*out.allocator(), types)?;
    put_vector(out, &runs)
}
