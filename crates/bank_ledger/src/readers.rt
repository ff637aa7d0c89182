ghost use Rattle.std.specs.Prelude.{◌≡◌, IfOk};
ghost use Rattle.coin_amounts.specs.Coins.{coins_view};
ghost use Rattle.chain_records.specs.Keys.{IsAddress};
ghost use Rattle.chain_records.specs.Spelled.{OfEach, HasTyped};
ghost use Rattle.bank_ledger.specs.Accounts.{balance, supply, held};

use crate::amounts::amount_at;
use crate::keys::{balance_key, supply_key};
use kv_layers::Base;
use std::alloc::{AllocError, Global};

/// What an address has of a denom.
pub fn balance<B: Base>(
    alloc: Global,
    view: &B,
    addr: &[u8],
    denom: &str,
) -> Result<u128, AllocError>
    requires address { IsAddress addr.now }
    requires typed { HasTyped (B.stands_for view.now) }
    ensures { IfOk result (λ amount. OfEach (B.stands_for view.now)
        (λ s. amount ≡ balance s addr.now denom.now)) }
{
    let key = balance_key(alloc, addr, denom)?;
    amount_at(alloc, view, &key)
}

/// How much there is of a denom.
pub fn supply<B: Base>(alloc: Global, view: &B, denom: &str) -> Result<u128, AllocError>
    requires { HasTyped (B.stands_for view.now) }
    ensures { IfOk result (λ amount. OfEach (B.stands_for view.now)
        (λ s. amount ≡ supply s denom.now)) }
{
    let key = supply_key(alloc, denom)?;
    amount_at(alloc, view, &key)
}
