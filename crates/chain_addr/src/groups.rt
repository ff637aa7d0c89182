ghost use Rattle.std.specs.Prelude.{ℕ, ◌≡◌, ◌+◌, ◌<◌, ◌≤◌, ◌^◌, IfOk};
ghost use Rattle.chain_addr.specs.Groups.{IsGrouped, MovesOut};

use std::alloc::{AllocError, Global};

/// The bytes in groups of five bits, the last filled up with bits 0.
pub(crate) fn grouped(alloc: Global, bytes: &[u8]) -> Result<Vec<u8>, AllocError>
    ensures { IfOk result (λ groups. (padding : ℕ) × IsGrouped bytes.now groups.items padding) }
{
    let mut groups = Vec::new(alloc);
    let mut waiting = 0u32;
    let mut bits = 0u32;
    for byte in bytes {
        bits += 3;
        waiting = push_group(&mut groups, waiting * 256 + u32::from(*byte), bits)?;
        if bits >= 5 {
            bits -= 5;
            waiting = push_group(&mut groups, waiting, bits)?;
        }
    }
    if bits > 0 {
        push_group(&mut groups, waiting << (5 - bits), 0)?;
    }
    Ok(groups)
}

/// Pushes the five highest of five and some more bits, and returns the others.
fn push_group(groups: &mut Vec<u8>, waiting: u32, more: u32) -> Result<u32, AllocError>
    requires few { more ≤ 7 }
    requires waiting { waiting < 2 ^ (5 + more) }
    ensures { IfOk result (λ left. MovesOut groups.old.items groups.new.items waiting more left) }
{
    groups.push((waiting >> more) as u8)?;
    Ok(waiting % (1 << more))
}
