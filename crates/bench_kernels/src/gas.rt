ghost use Rattle.std.specs.Prelude.{◌≡◌, length, IfOk};

use gas_meter::Meter;
use std::alloc::{AllocError, Global};

/// How many costs lie side by side.
const RUN: u32 = 64;

/// The cost 1 many times over, read again at each turn.
pub fn costs(alloc: Global) -> Result<Vec<u64>, AllocError>
    ensures { IfOk result (λ costs. length costs.items ≡ 64) }
{
    vec![in alloc; 1; RUN as usize]
}

/// Charges so often, and answers what is used.
pub fn charge(costs: &[u64], count: u32) -> u64
    requires { length costs.now ≡ 64 }
{
    let mut meter = Meter::new(u64::MAX);
    for turn in 0..count {
        if meter.charge(costs[(turn % RUN) as usize]).is_err() {
            break;
        }
    }
    meter.used()
}
