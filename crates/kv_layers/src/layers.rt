ghost use Rattle.std.specs.Prelude.{◌≡◌, ◌+◌, ◌<◌, ◌≤◌, ◌∷◌, ℕ, List, Option, reverse, length, vec_len, vec_capacity, IfOk, OnOk, OnErr};
ghost use Rattle.std.specs.Option.{option_map, option_copied};
ghost use Rattle.std.specs.FinMap.{get, insert, remove};
ghost use Rattle.kv_layers.specs.Bytes.{Bytes};
ghost use Rattle.kv_layers.specs.Changes.{change_in, with_change};
ghost use Rattle.kv_layers.specs.Lowest.{lowest_len};
ghost use Rattle.kv_layers.specs.Maps.{Maps, new_maps, changed, pushed, kept, dropped};
ghost use Rattle.kv_layers.specs.Merge.{shown_change};
ghost use Rattle.kv_layers.specs.Next.{IsNext};
ghost use Rattle.kv_layers.specs.Plain.{value_view, entry_view};
ghost use Rattle.kv_layers.specs.Sorted.{lower, upper, AreInside};

use crate::base::Base;
use crate::bounds::Bounds;
use crate::delta::Delta;
use crate::layer::{Change, Layer, are_same, newest_change, owned_entry, owned_value};
use crate::merge::{first_change, next_change, unless_later};
use crate::order::Order;
use crate::sorted::next_entry;
use std::alloc::{AllocError, Global};
use std::collections::BTreeMap;
use std::mem;

/// A map in layers over a base. All changes are made in the newest layer.
#[derive(Debug, Drop)]
pub struct Layers<B> {
    base: B,
    below: Vec<Layer>,
    newest: Layer,
    /// Empty, with room for the lowest layer's changes, so that the delta needs no more memory.
    room: Vec<Change>,
    ghost empty: { vec_len room ≡ 0 },
    ghost roomy: { lowest_len newest below.items ≤ vec_capacity room },
}

impl<B: Base> Layers<B> {
    ghost use Rattle.kv_layers.specs.Layers.{depth, stack, Stands, Turns};
    ghost use Rattle.kv_layers.specs.Delta.{IsDelta, delta_view};

    /// One layer without changes.
    pub fn new(alloc: Global, base: B) -> Layers<B>
        ensures maps { (map : Bytes) → B.stands_for base map →
            Stands B.stands_for result (new_maps map) }
        ensures depth { depth result ≡ 0 }
    {
        Layers {
            base,
            below: Vec::new(alloc),
            newest: BTreeMap::new(alloc),
            room: Vec::new(alloc),
        }
    }

    /// How many layers lie above the first.
    pub fn depth(&self) -> usize
        ensures { result ≡ depth self.now }
    {
        self.below.len()
    }

    /// Gives the key this value.
    pub fn set(&mut self, alloc: Global, key: &[u8], value: &[u8]) -> Result<(), AllocError>
        ensures ok { OnOk result (Turns B.stands_for self.old self.new
            (λ maps. changed maps (insert maps.current key.now value.now))) }
        ensures err { OnErr result (Turns B.stands_for self.old self.new (λ maps. maps)) }
        ensures depth { depth self.new ≡ depth self.old }
    {
        let key = key.to_vec(alloc)?;
        let value = value.to_vec(alloc)?;
        self.write(alloc, key, Some(value))?;
        Ok(())
    }

    /// Removes the key, if it is there.
    pub fn remove(&mut self, alloc: Global, key: &[u8]) -> Result<(), AllocError>
        ensures ok { OnOk result (Turns B.stands_for self.old self.new
            (λ maps. changed maps (remove maps.current key.now))) }
        ensures err { OnErr result (Turns B.stands_for self.old self.new (λ maps. maps)) }
        ensures depth { depth self.new ≡ depth self.old }
    {
        let key = key.to_vec(alloc)?;
        self.write(alloc, key, None)?;
        Ok(())
    }

    /// Begins a layer, which can be kept or dropped as a whole.
    pub fn push_layer(&mut self, alloc: Global) -> Result<(), AllocError>
        ensures ok { OnOk result (Turns B.stands_for self.old self.new pushed) }
        ensures err { OnErr result (Turns B.stands_for self.old self.new (λ maps. maps)) }
        ensures deeper { OnOk result (depth self.new ≡ depth self.old + 1) }
        ensures as_deep { OnErr result (depth self.new ≡ depth self.old) }
    {
        self.below.reserve(1)?;
        let below = mem::replace(&mut self.newest, BTreeMap::new(alloc));
        self.below.push(below).unwrap();
        Ok(())
    }

    /// Moves the changes of the newest layer to the one below it. After an `Err` the layers have no
    /// use but to be dropped.
    pub fn keep_layer(&mut self, alloc: Global) -> Result<(), AllocError>
        requires { 0 < depth self.old }
        ensures ok { OnOk result (Turns B.stands_for self.old self.new kept) }
        ensures depth { depth self.new + 1 ≡ depth self.old }
    {
        let below = self.below.pop().unwrap();
        let upper = mem::replace(&mut self.newest, below);
        for (key, change) in upper {
            self.write(alloc, key, change)?;
        }
        Ok(())
    }

    /// Undoes all changes of the newest layer.
    pub fn drop_layer(&mut self)
        requires { 0 < depth self.old }
        ensures maps { Turns B.stands_for self.old self.new dropped }
        ensures depth { depth self.new + 1 ≡ depth self.old }
    {
        self.newest = self.below.pop().unwrap();
    }

    /// The changes that lead from the base to the map.
    pub fn into_delta(self) -> Delta
    where
        B: Drop,
        requires { depth self ≡ 0 }
        ensures { (maps : Maps) → Stands B.stands_for self maps →
            IsDelta maps.base (delta_view result) maps.current }
    {
        let Layers {
            base: _,
            below: _,
            newest,
            mut room,
        } = self;
        for change in newest {
            room.push(change).unwrap();
        }
        Delta { changes: room }
    }

    /// The newest change of the key, if any layer has one.
    fn change(&self, key: &[u8]) -> Option<&Option<Vec<u8>>>
        ensures { option_map value_view (option_copied result) ≡ change_in (stack self.now) key.now }
    {
        match self.newest.get(key) {
            Some(change) => Some(change),
            None => newest_change(&self.below, key),
        }
    }

    /// The first change within the bounds.
    fn next_change(&self, bounds: &Bounds, order: Order) -> Option<(&Vec<u8>, &Option<Vec<u8>>)>
        ensures { IsNext (change_in (stack self.now)) (lower bounds.now) (upper bounds.now) order
            (option_map shown_change result) }
    {
        let change = next_entry(&self.newest, bounds, order);
        let lower = next_change(&self.below, bounds, order);
        first_change(change, lower, order)
    }

    /// The first entry of the base, where the earlier one was it within wider bounds. The base is asked
    /// only if that one lies outside now.
    fn next_under(
        &self,
        alloc: Global,
        earlier: Option<(Vec<u8>, Vec<u8>)>,
        bounds: &Bounds,
        order: Order,
    ) -> Result<Option<(Vec<u8>, Vec<u8>)>, AllocError>
        ensures { IfOk result (λ under. (map : Bytes) (lo hi : Option (List ℕ)) →
            B.stands_for self.now.base map →
            AreInside (lower bounds.now) (upper bounds.now) lo hi →
            IsNext (get map) lo hi order (option_map entry_view earlier) →
            IsNext (get map) (lower bounds.now) (upper bounds.now) order
            (option_map entry_view under)) }
    {
        let Some((key, value)) = earlier else {
            return Ok(None);
        };
        if bounds.holds(&key) {
            Ok(Some((key, value)))
        } else {
            self.base.next_in(alloc, bounds.lo(), bounds.hi(), order)
        }
    }

    fn write(
        &mut self,
        alloc: Global,
        key: Vec<u8>,
        change: Option<Vec<u8>>,
    ) -> Result<(), AllocError>
        ensures ok { OnOk result (Turns B.stands_for self.old self.new
            (λ maps. changed maps (with_change maps.current key.items (value_view change)))) }
        ensures err { OnErr result (Turns B.stands_for self.old self.new (λ maps. maps)) }
        ensures depth { depth self.new ≡ depth self.old }
    {
        if self.below.is_empty() {
            self.write_lowest(alloc, key, change)?;
        } else {
            self.newest.insert(key, change)?;
        }
        Ok(())
    }

    /// The lowest layer keeps no change that is none.
    fn write_lowest(
        &mut self,
        alloc: Global,
        key: Vec<u8>,
        change: Option<Vec<u8>>,
    ) -> Result<(), AllocError>
        requires { depth self.old ≡ 0 }
        ensures ok { OnOk result (Turns B.stands_for self.old self.new
            (λ maps. changed maps (with_change maps.current key.items (value_view change)))) }
        ensures err { OnErr result (Turns B.stands_for self.old self.new (λ maps. maps)) }
        ensures depth { depth self.new ≡ depth self.old }
    {
        let had = self.base.get(alloc, &key)?;
        if are_same(&had, &change) {
            self.newest.remove(key.as_slice());
            return Ok(());
        }
        self.room.reserve(self.newest.len() + 1)?;
        self.newest.insert(key, change)?;
        Ok(())
    }
}

impl<B: Base> Base for Layers<B> {
    ghost use Rattle.kv_layers.specs.Layers.{HasCurrent};

    ghost stands_for = { HasCurrent B.stands_for };

    fn get(&self, alloc: Global, key: &[u8]) -> Result<Option<Vec<u8>>, AllocError> {
        match self.change(key) {
            Some(change) => owned_value(change.as_ref()),
            None => self.base.get(alloc, key),
        }
    }

    /// A removed key costs another look at each layer, and at the base only where the base has the key.
    fn next_in(
        &self,
        alloc: Global,
        lo: Option<&[u8]>,
        hi: Option<&[u8]>,
        order: Order,
    ) -> Result<Option<(Vec<u8>, Vec<u8>)>, AllocError> {
        let mut bounds = Bounds::new(alloc, lo, hi)?;
        let mut under = self.base.next_in(alloc, lo, hi, order)?;
        'scan: loop {
            let Some((key, value)) = unless_later(self.next_change(&bounds, order), &under, order)
            else {
                return Ok(under);
            };
            match value {
                Some(value) => return owned_entry(Some((key, value))),
                None => {
                    bounds.narrow_past(Vec::from_slice(alloc, key)?, order)?;
                    under = self.next_under(alloc, under, &bounds, order)?;
                }
            }
        }
    }
}
