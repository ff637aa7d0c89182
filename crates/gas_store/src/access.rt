ghost use Rattle.std.specs.Prelude.{◌≡◌, ◌+◌, ◌≤◌, IsTrue};
ghost use Rattle.kv_layers.specs.Layers.{depth, Turns};
ghost use Rattle.kv_layers.specs.Plain.{value_view};
ghost use Rattle.gas_store.specs.Store.{bytes_in, read, write, erase};
ghost use Rattle.gas_store.specs.Views.{unit_view};
ghost use Rattle.gas_store.specs.Effects.{Answers, Does, IsSameScope};

use crate::charge::{charge, cost_of};
use crate::places::joined;
use crate::scoped::Scoped;
use crate::stop::StoreStop;
use gas_meter::{Meter, Schedule};
use kv_layers::{Base, Layers};
use std::alloc::Global;

/// How many bytes a value has.
fn size_of(value: &Option<Vec<u8>>) -> usize
    ensures { result ≡ bytes_in (value_view value.now) }
{
    match value {
        Some(value) => value.len(),
        None => 0,
    }
}

impl Scoped {
    /// What the contract keeps under a key.
    pub fn get<B: Base>(
        &mut self,
        alloc: Global,
        layers: &mut Layers<B>,
        key: &[u8],
        meter: &mut Meter,
        costs: &Schedule,
    ) -> Result<Option<Vec<u8>>, StoreStop>
        ensures step { Answers value_view result (Does B.stands_for layers.old layers.new self.old self.new
            meter.old meter.new (read costs.now key.now)) }
        ensures unchanged { Turns B.stands_for layers.old layers.new (λ maps. maps) }
        ensures scope { IsSameScope self.old self.new }
        ensures depth { depth layers.new ≡ depth layers.old }
        ensures spends { meter.new.left ≤ meter.old.left }
        ensures used { meter.new.left + meter.new.used ≡ meter.old.left + meter.old.used }
    {
        let place = joined(alloc, &self.prefix, key)?;
        let value = layers.get(alloc, &place)?;
        match charge(meter, cost_of(costs.db_read, 3, key.len(), size_of(&value))) {
            Ok(()) => Ok(value),
            Err(stop) => Err(stop),
        }
    }

    /// Gives a key of the contract this value.
    pub fn set<B: Base>(
        &mut self,
        alloc: Global,
        layers: &mut Layers<B>,
        key: &[u8],
        value: &[u8],
        meter: &mut Meter,
        costs: &Schedule,
    ) -> Result<(), StoreStop>
        ensures step { Answers unit_view result (Does B.stands_for layers.old layers.new self.old self.new
            meter.old meter.new (write self.old.read_only costs.now key.now value.now)) }
        ensures unchanged { IsTrue self.old.read_only → Turns B.stands_for layers.old layers.new (λ maps. maps) }
        ensures scope { IsSameScope self.old self.new }
        ensures depth { depth layers.new ≡ depth layers.old }
        ensures spends { meter.new.left ≤ meter.old.left }
        ensures used { meter.new.left + meter.new.used ≡ meter.old.left + meter.old.used }
    {
        if self.read_only {
            return Err(StoreStop::WriteInQuery);
        }
        if value.is_empty() {
            return Err(StoreStop::EmptyValue);
        }
        let place = joined(alloc, &self.prefix, key)?;
        match charge(meter, cost_of(costs.db_write, 30, key.len(), value.len())) {
            Ok(()) => Ok(layers.set(alloc, &place, value)?),
            Err(stop) => Err(stop),
        }
    }

    /// Removes a key of the contract, if it is there.
    pub fn remove<B: Base>(
        &mut self,
        alloc: Global,
        layers: &mut Layers<B>,
        key: &[u8],
        meter: &mut Meter,
        costs: &Schedule,
    ) -> Result<(), StoreStop>
        ensures step { Answers unit_view result (Does B.stands_for layers.old layers.new self.old self.new
            meter.old meter.new (erase self.old.read_only costs.now key.now)) }
        ensures unchanged { IsTrue self.old.read_only → Turns B.stands_for layers.old layers.new (λ maps. maps) }
        ensures scope { IsSameScope self.old self.new }
        ensures depth { depth layers.new ≡ depth layers.old }
        ensures spends { meter.new.left ≤ meter.old.left }
        ensures used { meter.new.left + meter.new.used ≡ meter.old.left + meter.old.used }
    {
        if self.read_only {
            return Err(StoreStop::WriteInQuery);
        }
        let place = joined(alloc, &self.prefix, key)?;
        match charge(meter, u128::from(costs.db_remove)) {
            Ok(()) => Ok(layers.remove(alloc, &place)?),
            Err(stop) => Err(stop),
        }
    }
}
