ghost use Rattle.std.specs.Prelude.{IfOk, OnOk};
ghost use Rattle.chain_records.specs.Spelled.{HasTyped};

use crate::chain::opened;
use chain_records::{Key, Stored, key_bytes, one_record_changes, stored_bytes};
use code_registry::pinned;
use kv_layers::{Base, Plain};
use std::alloc::{AllocError, Global};
use std::test::Fail;

fn pin(alloc: Global, plain: &mut Plain, id: u64) -> Result<(), AllocError>
    requires typed { HasTyped (⟦<Plain as Base>⟧.stands_for plain.old) }
    ensures { OnOk result (HasTyped (⟦<Plain as Base>⟧.stands_for plain.new)) }
{
    one_record_changes();
    let key = key_bytes(alloc, &Key::Pin(id))?;
    let mark = stored_bytes(alloc, &Stored::Mark)?;
    plain.insert(key, mark)?;
    Ok(())
}

/// The chain before anything is pinned.
fn begun(alloc: Global) -> Result<Plain, Fail>
    ensures { IfOk result (λ plain. HasTyped (⟦<Plain as Base>⟧.stands_for plain)) }
{
    let plain = opened(alloc)?;
    Ok(plain)
}

#[test]
fn pinned_ids_rise(rt: HostRuntime) -> Result<(), Fail> {
    let alloc = rt.alloc();
    let mut plain = begun(alloc)?;
    assert!(rt; pinned(alloc, &plain)?.is_empty());
    for id in [256, 1, u64::MAX, 255] {
        pin(alloc, &mut plain, id)?;
    }
    let rising: &[u64] = &[1, 255, 256, u64::MAX];
    assert_eq!(rt; pinned(alloc, &plain)?.as_slice(), rising);
    Ok(())
}
