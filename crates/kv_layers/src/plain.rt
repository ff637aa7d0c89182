ghost use Rattle.std.specs.Prelude.{◌≡◌, IfOk, OnOk, OnErr};
ghost use Rattle.std.specs.FinMap.{empty, insert};
ghost use Rattle.kv_layers.specs.Delta.{IsDelta, delta_view};

use crate::base::Base;
use crate::bounds::Bounds;
use crate::delta::Delta;
use crate::layer::{owned_entry, owned_value};
use crate::order::Order;
use crate::sorted::next_entry;
use std::alloc::{AllocError, Global};
use std::collections::BTreeMap;
use std::marker::Model;

/// A sorted map with nothing below it.
#[derive(Debug, Drop)]
pub struct Plain {
    entries: BTreeMap<Vec<u8>, Vec<u8>>,
}

impl Model for Plain {
    ghost use Rattle.std.specs.Coded.{coded_ℕ, coded_list};
    ghost use Rattle.std.specs.FinMap as finite;
    ghost use Rattle.kv_layers.specs.Bytes.{Bytes};
    ghost use Rattle.kv_layers.specs.PlainMap.{map_of};

    ghost Value = { Bytes };

    ghost coded = { finite.code (coded_list coded_ℕ) (coded_list coded_ℕ) };

    ghost view = { λ s. map_of s.entries };
}

impl Plain {
    /// The empty map.
    pub fn new(alloc: Global) -> Plain
        ensures { result ≡ empty }
    {
        Plain {
            entries: BTreeMap::new(alloc),
        }
    }

    /// Gives the key this value, in place of any that it had. An `Err` leaves the map as it was.
    pub fn insert(&mut self, key: Vec<u8>, value: Vec<u8>) -> Result<(), AllocError>
        ensures ok { OnOk result (self.new ≡ insert self.old key.items value.items) }
        ensures err { OnErr result (self.new ≡ self.old) }
    {
        self.entries.insert(key, value)?;
        Ok(())
    }

    /// The changes that lead from the empty map to this one. No key and no value is copied.
    pub fn into_delta(self, alloc: Global) -> Result<Delta, AllocError>
        ensures { IfOk result (λ delta. IsDelta empty (delta_view delta) self) }
    {
        let Plain { entries } = self;
        let mut changes = Vec::with_capacity(alloc, entries.len())?;
        for (key, value) in entries {
            changes.push((key, Some(value)))?;
        }
        Ok(Delta { changes })
    }
}

impl Base for Plain {
    ghost stands_for = { λ plain map. plain ≡ map };

    fn get(&self, _alloc: Global, key: &[u8]) -> Result<Option<Vec<u8>>, AllocError> {
        owned_value(self.entries.get(key))
    }

    fn next_in(
        &self,
        alloc: Global,
        lo: Option<&[u8]>,
        hi: Option<&[u8]>,
        order: Order,
    ) -> Result<Option<(Vec<u8>, Vec<u8>)>, AllocError> {
        let bounds = Bounds::new(alloc, lo, hi)?;
        owned_entry(next_entry(&self.entries, &bounds, order))
    }
}
