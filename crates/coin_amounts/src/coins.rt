ghost use Rattle.std.specs.Prelude.{◌≡◌, [], ◌↔◌, IsTrue, length, map};
ghost use Rattle.coin_amounts.specs.Plain.{coin_view};
ghost use Rattle.coin_amounts.specs.Order.{IsRising, IsRising-prop, IsPositive};

use crate::coin::Coin;
use std::alloc::Global;

/// Coins with denoms rising by their bytes and amounts above 0.
#[derive(Debug, Drop)]
pub struct Coins {
    pub list: Vec<Coin>,
    pub ghost rising: { IsRising (map coin_view list.items) } by { IsRising-prop (map coin_view list.items) },
    pub ghost positive: { IsPositive (map coin_view list.items) },
}

impl Coins {
    ghost use Rattle.coin_amounts.specs.Coins.{coins_view};

    /// No coins. Takes no memory.
    pub fn new(alloc: Global) -> Self
        ensures { coins_view result ≡ [] }
    {
        Coins {
            list: Vec::new(alloc),
        }
    }

    pub fn len(&self) -> usize
        ensures { result ≡ length (coins_view self.now) }
    {
        self.list.len()
    }

    pub fn is_empty(&self) -> bool
        ensures { IsTrue result ↔ (coins_view self.now ≡ []) }
    {
        self.list.is_empty()
    }

    pub fn as_slice(&self) -> &[Coin]
        ensures { map coin_view result.now ≡ coins_view self.now }
    {
        self.list.as_slice()
    }
}
