ghost use Rattle.std.specs.Prelude.{◌≡◌, ◌↔◌, ◌&&◌, ℕ, true, List, IfOk, OnOk, IsTrue};
ghost use Rattle.std.specs.Option.{option_copied};
ghost use Rattle.std.specs.Range.Bound.{bound_map};
ghost use Rattle.std.specs.Map.Iter.{deref};
ghost use Rattle.kv_layers.specs.Next.{comes_before, is_from, is_below, is_within};
ghost use Rattle.kv_layers.specs.Plain.{value_view};

use crate::order::Order;
use std::alloc::{AllocError, Global};
use std::ops::Bound;

/// Bounds of keys: `lo` is included and `hi` is not.
#[derive(Debug, Drop)]
pub struct Bounds {
    pub(crate) lo: Option<Vec<u8>>,
    pub(crate) hi: Option<Vec<u8>>,
}

impl Bounds {
    ghost use Rattle.kv_layers.specs.Sorted.{lower, upper, narrowed_lower, narrowed_upper, AreCrossed, start_of, end_of};

    /// With copies of these, or without a bound where there is none.
    pub fn new(alloc: Global, lo: Option<&[u8]>, hi: Option<&[u8]>) -> Result<Bounds, AllocError>
        ensures lo { IfOk result (λ b. lower b ≡ option_copied lo.entry) }
        ensures hi { IfOk result (λ b. upper b ≡ option_copied hi.entry) }
    {
        let lo = copied(alloc, lo)?;
        let hi = copied(alloc, hi)?;
        Ok(Bounds { lo, hi })
    }

    /// The lower bound.
    pub fn lo(&self) -> Option<&[u8]>
        ensures { option_copied result ≡ lower self.now }
    {
        shown(&self.lo)
    }

    /// The upper bound.
    pub fn hi(&self) -> Option<&[u8]>
        ensures { option_copied result ≡ upper self.now }
    {
        shown(&self.hi)
    }

    /// The lower bound of a range.
    pub(crate) fn start(&self) -> Bound<&Vec<u8>>
        ensures { bound_map deref result ≡ start_of self.now.lo }
    {
        match &self.lo {
            Some(key) => Bound::Included(key),
            None => Bound::Unbounded,
        }
    }

    /// The upper bound of a range.
    pub(crate) fn end(&self) -> Bound<&Vec<u8>>
        ensures { bound_map deref result ≡ end_of self.now.hi }
    {
        match &self.hi {
            Some(key) => Bound::Excluded(key),
            None => Bound::Unbounded,
        }
    }

    /// Whether the lower bound is above the upper one.
    pub(crate) fn are_crossed(&self) -> bool
        ensures { IsTrue result ↔ AreCrossed (lower self.now) (upper self.now) }
    {
        match (&self.lo, &self.hi) {
            (Some(lo), Some(hi)) => Order::Ascending.comes_before(hi, lo),
            _ => false,
        }
    }

    /// Whether the key lies within the bounds.
    pub fn holds(&self, key: &[u8]) -> bool
        ensures { result ≡ is_within (lower self.now) (upper self.now) key.now }
    {
        is_from(self.lo(), key) && is_below(self.hi(), key)
    }

    /// Leaves only the keys that come after the one given, which is to lie within the bounds.
    pub fn narrow_past(&mut self, key: Vec<u8>, order: Order) -> Result<(), AllocError>
        ensures lo { OnOk result (lower self.new ≡ narrowed_lower order (lower self.old) key.items) }
        ensures hi { OnOk result (upper self.new ≡ narrowed_upper order (upper self.old) key.items) }
        ensures past { OnOk result (is_within (lower self.old) (upper self.old) key.items ≡ true →
            (other : List ℕ) → is_within (lower self.new) (upper self.new) other
            ≡ (is_within (lower self.old) (upper self.old) other
            && comes_before order key.items other)) }
    {
        let mut key = key;
        match order {
            Order::Ascending => {
                key.push(0)?;
                self.lo = Some(key);
            }
            Order::Descending => self.hi = Some(key),
        }
        Ok(())
    }
}

fn is_from(lo: Option<&[u8]>, key: &[u8]) -> bool
    ensures { result ≡ is_from (option_copied lo.entry) key.now }
{
    match lo {
        Some(lo) => !Order::Ascending.comes_before(key, lo),
        None => true,
    }
}

/// Whether the key is below an upper bound, if there is one.
pub fn is_below(hi: Option<&[u8]>, key: &[u8]) -> bool
    ensures { result ≡ is_below (option_copied hi.entry) key.now }
{
    match hi {
        Some(hi) => Order::Ascending.comes_before(key, hi),
        None => true,
    }
}

fn copied(alloc: Global, bound: Option<&[u8]>) -> Result<Option<Vec<u8>>, AllocError>
    ensures { IfOk result (λ b. value_view b ≡ option_copied bound.entry) }
{
    match bound {
        Some(key) => Ok(Some(key.to_vec(alloc)?)),
        None => Ok(None),
    }
}

fn shown(bound: &Option<Vec<u8>>) -> Option<&[u8]>
    ensures { option_copied result ≡ value_view bound.now }
{
    match bound {
        Some(key) => Some(key.as_slice()),
        None => None,
    }
}
