//! Lists of numbers that name codes.

ghost use Rattle.std.specs.Prelude.{◌≡◌, ◌==◌, ◌∷◌, not, filter, IfOk};
ghost use Rattle.std.specs.List.{list_any};

use std::alloc::{AllocError, Global};

pub(crate) fn is_among(code: u32, codes: &[u32]) -> bool
    ensures { result ≡ list_any (λ c. c == code) codes.now }
{
    codes.iter().any(|c| *c == code)
}

/// The code first, and then the others.
pub(crate) fn to_front(alloc: Global, code: u32, codes: &[u32]) -> Result<Vec<u32>, AllocError>
    ensures { IfOk result (λ v. v.items ≡ code ∷ filter (λ c. not (c == code)) codes.now) }
{
    let mut front = Vec::with_capacity(alloc, codes.len() + 1)?;
    front.push(code)?;
    for other in codes {
        if *other != code {
            front.push(*other)?;
        }
    }
    Ok(front)
}
