//! How an entry of a scan is handed to a contract.

ghost use Rattle.std.specs.Prelude.{◌≡◌, ◌++◌, IfOk, OnOk};
ghost use Rattle.gas_store.specs.Views.{entries_view};
ghost use Rattle.host_imports.specs.Numbers.{sized, spelled};

use std::alloc::{AllocError, Global};

/// Adds bytes and their length.
fn push_sized(all: &mut Vec<u8>, bytes: &[u8]) -> Result<(), AllocError>
    ensures { OnOk result (all.new.items ≡ all.old.items ++ sized bytes.now) }
{
    let count = (bytes.len() as u64).to_be_bytes();
    all.extend_from_slice(bytes)?;
    all.extend_from_slice(&count[4..])
}

/// The key and its length, and then the value and its length; at the end of the scan both are empty.
pub(crate) fn spelled(
    alloc: Global,
    found: &Option<(Vec<u8>, Vec<u8>)>,
) -> Result<Vec<u8>, AllocError>
    ensures { IfOk result (λ bytes. bytes.items ≡ spelled (entries_view found.now)) }
{
    let mut all = Vec::new(alloc);
    match found {
        Some((key, value)) => {
            push_sized(&mut all, key)?;
            push_sized(&mut all, value)?;
        }
        None => {
            push_sized(&mut all, &[])?;
            push_sized(&mut all, &[])?;
        }
    }
    Ok(all)
}
