ghost use Rattle.std.specs.Prelude.{ℕ, ◌+◌, ◌<◌, ◌^◌, List, All, string_bytes, nat_lt, OnOk, IfErr};
ghost use Rattle.std.specs.List.{list_all};
ghost use Rattle.coin_amounts.specs.Denom.{IsDenom};
ghost use Rattle.coin_amounts.specs.Plain.{coin_view};
ghost use Rattle.coin_amounts.specs.Coins.{coins_view};
ghost use Rattle.chain_records.specs.Keys.{IsAddress};
ghost use Rattle.chain_records.specs.Records.{plain_facts};
ghost use Rattle.chain_records.specs.State.{State};
ghost use Rattle.bank_ledger.specs.Balances.{share, amount_in};
ghost use Rattle.bank_ledger.specs.Minted.{minted};
ghost use Rattle.block_runner.specs.Crediting.{Records, HasRecords, HaveDenoms, AreLawfulFacts, IsOver, accounts_view, Credits};
ghost use Rattle.block_runner.specs.Opening.{credited};

use crate::stop::GenesisStop;
use bank_ledger::{mint, opened};
use chain_records::Facts;
use coin_amounts::{Coin, Coins};
use kv_layers::Plain;
use std::alloc::Global;

/// Adds a coin to what an address has and to the supply.
fn mint_coin(alloc: Global, records: &mut Plain, to: &[u8], coin: &Coin) -> Result<(), GenesisStop>
    requires to { IsAddress to.now }
    requires denom { IsDenom (string_bytes coin.now.denom) }
    requires amount { 0 < coin.now.amount }
    requires records { HasRecords records.old }
    ensures over { (s : State) (u : List ℕ → ℕ) → Records s u records.old
        → IfErr result (λ stop. IsOver stop
        (nat_lt (u (string_bytes coin.now.denom) + coin.now.amount) (2 ^ 128))) }
    ensures minted { OnOk result ((s : State) (u : List ℕ → ℕ) → Records s u records.old
        → Records (minted s to.now (string_bytes coin.now.denom) coin.now.amount)
        (λ denom. u denom + share denom (coin_view coin.now)) records.new) }
{
    if mint(alloc, records, to, coin.denom.as_str(), coin.amount)? {
        Ok(())
    } else {
        Err(GenesisStop::Supply)
    }
}

/// Adds coins to what an address has and to the supplies.
fn credit(alloc: Global, records: &mut Plain, to: &[u8], coins: &Coins) -> Result<(), GenesisStop>
    requires to { IsAddress to.now }
    requires denoms { HaveDenoms (coins_view coins.now) }
    requires records { HasRecords records.old }
    ensures over { (s : State) (u : List ℕ → ℕ) → Records s u records.old
        → IfErr result (λ stop. IsOver stop (list_all (λ coin. nat_lt
        (u coin.denom + amount_in (coins_view coins.now) coin.denom) (2 ^ 128))
        (coins_view coins.now))) }
    ensures credited { OnOk result ((s : State) (u : List ℕ → ℕ) → Records s u records.old
        → Records (credited s (to.now, coins_view coins.now))
        (λ denom. u denom + amount_in (coins_view coins.now) denom) records.new) }
{
    for coin in &coins.list {
        match mint_coin(alloc, records, to, coin) {
            Ok(()) => {}
            Err(stop) => return Err(stop),
        }
    }
    Ok(())
}

/// The records of a chain with these facts, in which each address has the coins at its place.
pub(crate) fn records_of(
    alloc: Global,
    facts: Facts,
    addresses: &[Vec<u8>],
    coins: &[Coins],
) -> Result<Plain, GenesisStop>
    requires facts { AreLawfulFacts (plain_facts facts) }
    requires sized { All (λ a. IsAddress a.items) addresses.now }
    requires denoms { All (λ c. HaveDenoms (coins_view c)) coins.now }
    ensures { Credits result (plain_facts facts) (accounts_view addresses.now coins.now) }
{
    let mut records = opened(alloc, facts)?;
    for (address, held) in addresses.iter().zip(coins) {
        match credit(alloc, &mut records, address, held) {
            Ok(()) => {}
            Err(stop) => return Err(stop),
        }
    }
    Ok(records)
}
