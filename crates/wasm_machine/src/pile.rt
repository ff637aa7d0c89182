ghost use Rattle.std.specs.Prelude.{◌≡◌, ◌+◌, ◌^◌, ◌∷◌, ◌++◌, ◌<◌, ◌≤◌, [], length, take, OnOk, MatchOption, slice_get, slice_set, drop, reverse};

use std::alloc::{AllocError, Global};

/// Items of which the upper ones, from a floor on, belong to what runs now, and the lower ones to what
/// waits.
#[derive(Drop)]
pub(crate) struct Pile<T> {
    items: Vec<T>,
    floor: usize,
    ghost raised: { floor ≤ length items.items },
}

#[tactic(auto, unfolding(crate::specs::Piles::span, crate::specs::Piles::below))]
impl<T: Copy> Pile<T> {
    ghost use Rattle.wasm_machine.specs.Piles.{all, below, span, own};

    pub fn new(alloc: Global) -> Pile<T>
        ensures { all result ≡ [] }
    {
        Pile {
            items: Vec::new(alloc),
            floor: 0,
        }
    }

    /// How many items there are, those of what waits among them.
    #[inline(always)]
    pub fn len(&self) -> usize
        ensures length { result ≡ length (all self.now) }
        ensures small { result < 2 ^ 63 }
    {
        self.items.len()
    }

    /// How many items belong to what runs.
    #[inline(always)]
    pub fn own_len(&self) -> usize
        ensures own { result ≡ length (own self.now) }
        ensures span { result ≡ length (span self.now) }
    {
        self.items.len() - self.floor
    }

    #[inline(always)]
    pub fn push(&mut self, item: T) -> Result<(), AllocError>
        ensures own { OnOk result (own self.new ≡ item ∷ own self.old) }
        ensures span { OnOk result (span self.new ≡ span self.old ++ item ∷ []) }
        ensures all { OnOk result (all self.new ≡ all self.old ++ item ∷ []) }
        ensures below { below self.new ≡ below self.old }
    {
        match self.items.push(item) {
            Ok(()) => Ok(()),
            Err(_) => Err(AllocError),
        }
    }

    #[inline(always)]
    pub fn pop(&mut self) -> Option<T>
        ensures own { MatchOption result ((own self.old ≡ []) × (own self.new ≡ [])) (λ item. own self.old ≡ item ∷ own self.new) }
        ensures below { below self.new ≡ below self.old }
        ensures size { MatchOption result (length (all self.new) ≡ length (all self.old)) (λ _. length (all self.new) + 1 ≡ length (all self.old)) }
    {
        if self.items.len() <= self.floor {
            return None;
        }
        self.items.pop()
    }

    /// The topmost item of what runs.
    #[inline(always)]
    pub fn top(&self) -> Option<T>
        ensures { result ≡ slice_get (own self.now) 0 }
    {
        if self.items.len() <= self.floor {
            return None;
        }
        Some(self.items[self.items.len() - 1])
    }

    #[inline(always)]
    pub fn get(&self, i: usize) -> Option<T>
        ensures { result ≡ slice_get (span self.now) i }
    {
        if i < self.own_len() {
            Some(self.items[self.floor + i])
        } else {
            None
        }
    }

    #[inline(always)]
    pub fn set(&mut self, i: usize, item: T)
        requires { i < length (span self.old) }
        ensures span { span self.new ≡ slice_set (span self.old) i item }
        ensures below { below self.new ≡ below self.old }
        ensures size { length (all self.new) ≡ length (all self.old) }
    {
        self.items[self.floor + i] = item;
    }

    /// From now on none of the items belongs to what runs. Answers where the floor was.
    #[inline(always)]
    pub fn raise(&mut self) -> usize
        ensures floor { below self.old ≡ take result (all self.old) }
        ensures from { span self.old ≡ drop result (all self.old) }
        ensures own { own self.new ≡ [] }
        ensures span { span self.new ≡ [] }
        ensures below { below self.new ≡ all self.old }
        ensures all { all self.new ≡ all self.old }
    {
        let floor = self.floor;
        self.floor = self.items.len();
        floor
    }

    /// From now on only the topmost items belong to what runs. Answers where the floor was.
    #[inline(always)]
    pub fn raise_over(&mut self, count: usize) -> usize
        requires { count ≤ length (own self.old) }
        ensures floor { below self.old ≡ take result (below self.new) }
        ensures rest { reverse (drop result (below self.new)) ≡ drop count (own self.old) }
        ensures own { own self.new ≡ take count (own self.old) }
        ensures span { span self.new ≡ reverse (take count (own self.old)) }
    {
        let floor = self.floor;
        self.floor = self.items.len() - count;
        floor
    }

    /// Drops what belongs to what runs.
    #[inline(always)]
    pub fn clear(&mut self)
        ensures all { all self.new ≡ below self.old }
        ensures below { below self.new ≡ below self.old }
        ensures span { span self.new ≡ [] }
        ensures own { own self.new ≡ [] }
        ensures size { length (all self.new) ≤ length (all self.old) }
    {
        self.items.truncate(self.floor);
    }

    /// Sets the floor down to where it was.
    #[inline(always)]
    pub fn reset(&mut self, floor: usize)
        ensures all { all self.new ≡ all self.old }
        ensures below { below self.new ≡ take floor (below self.old) }
        ensures span { span self.new ≡ drop floor (below self.old) ++ span self.old }
    {
        self.floor = floor.min(self.floor);
    }

    /// Sets the floor to where it was when only the items below it waited.
    #[inline(always)]
    pub fn restore(&mut self, floor: usize)
        ensures all { all self.new ≡ all self.old }
        ensures below { below self.new ≡ take floor (all self.old) }
        ensures span { span self.new ≡ drop floor (all self.old) }
    {
        self.floor = floor.min(self.items.len());
    }

    /// What belongs to what runs, the lowest first.
    #[inline(always)]
    pub fn own_items(&self) -> &[T]
        ensures { result.now ≡ span self.now }
    {
        &self.items[self.floor..]
    }
}
