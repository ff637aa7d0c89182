ghost use Rattle.std.specs.Prelude.{◌≡◌, ◌≤◌, [], drop, length, sum_by, vec_len};
ghost use Rattle.chain_records.specs.Keys.{key_bytes, storage};
ghost use Rattle.gas_store.specs.Ends.{end_of};
ghost use Rattle.gas_store.specs.Givens.{given_of};

use crate::places::end_of;
use crate::scan::Scan;
use chain_records::{Key, key_bytes};
use std::alloc::{AllocError, Global};

/// One contract's access to its storage during a call. It keeps no storage: each call is handed the
/// layers, which are free for others in between.
#[derive(Debug, Drop)]
pub struct Scoped {
    /// The bytes before each of the contract's keys.
    pub(crate) prefix: Vec<u8>,
    /// The least bytes above all its keys.
    pub(crate) end: Vec<u8>,
    pub(crate) read_only: bool,
    pub(crate) scans: Vec<Scan>,
    /// How many bytes the bounds of all scans had when they began.
    pub(crate) given: usize,
    ghost own: { prefix.items ≡ key_bytes (storage (drop 2 prefix.items) []) },
    ghost short: { length prefix.items ≤ 66 },
    ghost bounded: { end.items ≡ end_of prefix.items },
    ghost counted: { given ≡ sum_by given_of scans.items },
    ghost within: { given ≤ 16777216 },
    ghost few: { vec_len scans ≤ 65536 },
}

impl Scoped {
    ghost use Rattle.std.specs.Prelude.{IfOk};
    ghost use Rattle.gas_store.specs.Views.{addr_of, scans_of, is_read_only};

    /// Without scans.
    pub fn new(alloc: Global, addr: &[u8], read_only: bool) -> Result<Scoped, AllocError>
        requires { (1 ≤ length addr.now) × (length addr.now ≤ 64) }
        ensures addr { IfOk result (λ scoped. addr_of scoped ≡ addr.now) }
        ensures read_only { IfOk result (λ scoped. is_read_only scoped ≡ read_only) }
        ensures scans { IfOk result (λ scoped. scans_of scoped ≡ []) }
    {
        let key = Key::Storage {
            addr: addr.to_vec(alloc)?,
            key: Vec::new(alloc),
        };
        let prefix = key_bytes(alloc, &key)?;
        let end = end_of(alloc, &prefix)?;
        Ok(Scoped {
            prefix,
            end,
            read_only,
            scans: Vec::new(alloc),
            given: 0,
        })
    }

    /// Whether it refuses writes and removals.
    pub fn is_read_only(&self) -> bool
        ensures { result ≡ is_read_only self.now }
    {
        self.read_only
    }
}
