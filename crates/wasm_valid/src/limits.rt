ghost use Rattle.std.specs.Prelude.{◌≡◌, ◌<◌, ◌^◌, ◌++◌, List, length, nat_le, ◌&&◌};
ghost use Rattle.wasm_types.specs.declared.limits.Limits as limits;
ghost use Rattle.wasm_types.specs.Laws.{AreFew};
ghost use Rattle.wasm_types.specs.Validity.{limits_kept, only_one, first_in};
ghost use Rattle.wasm_valid.specs.Stacks.{Ends};
ghost use Rattle.wasm_valid.specs.Spaces.{Faults};

use crate::stop::ValidStop;
use wasm_types::{Limits, ValidKind};

/// Whether limits are in order and below the greatest size.
fn are_kept(most: u32, size: Limits) -> bool
    ensures { result ≡ limits_kept most size }
{
    match size.max {
        None => size.min <= most,
        Some(max) => size.min <= most && size.min <= max && max <= most,
    }
}

/// One table or memory, behind so many others.
pub fn check_one(kind: ValidKind, most: u32, earlier: usize, size: &Limits) -> Result<(), ValidKind>
    ensures { (others : List limits.Limits) → length others ≡ earlier → Ends result (only_one kind most others size.now) }
{
    if earlier != 0 {
        return Err(kind);
    }
    if !are_kept(most, *size) {
        return Err(ValidKind::Limits);
    }
    Ok(())
}

/// The tables or the memories of a module, behind so many that are imported.
pub fn check_limits(
    kind: ValidKind,
    most: u32,
    imported: usize,
    list: &[Limits],
) -> Result<(), ValidStop>
    requires few { AreFew list.now }
    requires imported { imported < 2 ^ 32 }
    ensures { (others : List limits.Limits) → length others ≡ imported →
        Faults result (first_in (λ earlier size. only_one kind most (others ++ earlier) size) list.now) }
{
    let mut at = 0;
    while at < list.len() {
        match check_one(kind, most, imported + at, &list[at]) {
            Ok(()) => {}
            Err(kind) => {
                return Err(ValidStop::Invalid {
                    func: None,
                    instr: at as u32,
                    kind,
                });
            }
        }
        at += 1;
    }
    Ok(())
}
