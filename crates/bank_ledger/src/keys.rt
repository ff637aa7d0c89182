ghost use Rattle.std.specs.Prelude.{◌≡◌, IfOk};
ghost use Rattle.chain_records.specs.Keys.{plain_key, balance, supply, IsAddress};
ghost use Rattle.bank_ledger.specs.Steps.{IsAmountKey};

use chain_records::Key;
use std::alloc::{AllocError, Global};

pub(crate) fn balance_key(alloc: Global, addr: &[u8], denom: &str) -> Result<Key, AllocError>
    requires { IsAddress addr.now }
    ensures key { IfOk result (λ key. plain_key key ≡ balance addr.now denom.now) }
    ensures amount { IfOk result (λ key. IsAmountKey (plain_key key)) }
{
    let addr = addr.to_vec(alloc)?;
    let denom = String::from_str(alloc, denom)?;
    Ok(Key::Balance { addr, denom })
}

pub(crate) fn supply_key(alloc: Global, denom: &str) -> Result<Key, AllocError>
    ensures key { IfOk result (λ key. plain_key key ≡ supply denom.now) }
    ensures amount { IfOk result (λ key. IsAmountKey (plain_key key)) }
{
    Ok(Key::Supply(String::from_str(alloc, denom)?))
}
