ghost use Rattle.std.specs.Prelude.{string_bytes, IfOk};
ghost use Rattle.chain_addr.specs.Letters.{IsPrefix};

use crate::filled::{ONE, OTHER, UPPER};
use block_runner::{GenesisStop, genesis};
use chain_msgs::Genesis;
use coin_amounts::RawCoin;
use std::alloc::{AllocError, Global};
use std::test::Fail;

const MOST: &str = "340282366920938463463374607431768211455";

/// An account with so much of one denom, or with no coins.
fn holding(
    alloc: Global,
    address: &str,
    amount: &str,
) -> Result<(String, Vec<RawCoin>), AllocError> {
    let mut coins = Vec::new(alloc);
    if !amount.is_empty() {
        coins.push(RawCoin {
            denom: String::from_str(alloc, "utok")?,
            amount: String::from_str(alloc, amount)?,
        })?;
    }
    Ok((String::from_str(alloc, address)?, coins))
}

/// A genesis with this authority and these accounts.
pub fn genesis_of(
    alloc: Global,
    authority: &str,
    accounts: &[(&str, &str)],
) -> Result<Genesis, AllocError>
    ensures { IfOk result (λ g. IsPrefix (string_bytes g.prefix)) }
{
    let mut balances = Vec::new(alloc);
    for (address, amount) in accounts {
        balances.push(holding(alloc, address, amount)?)?;
    }
    Ok(Genesis {
        chain_id: String::from_str(alloc, "t-1")?,
        time: 0,
        prefix: String::from_str(alloc, "abcdef")?,
        authority: Some(String::from_str(alloc, authority)?),
        capabilities: Vec::new(alloc),
        balances,
        query_gas: 1_000_000,
    })
}

#[test]
fn addresses_come_before_coins_and_these_before_supplies(rt: HostRuntime) -> Result<(), Fail> {
    let alloc = rt.alloc();
    // the authority, two accounts with what they have, and why this opens no chain
    for (authority, first, second, stop) in [
        (UPPER, (ONE, MOST), (OTHER, ""), None),
        ("zz", (ONE, "0"), (OTHER, ""), Some(GenesisStop::Address)),
        (ONE, (ONE, "0"), ("zz", ""), Some(GenesisStop::Address)),
        (ONE, (ONE, "0"), (UPPER, ""), Some(GenesisStop::Address)),
        (ONE, (ONE, MOST), (OTHER, "0"), Some(GenesisStop::Coins)),
        (ONE, (ONE, MOST), (OTHER, "1"), Some(GenesisStop::Supply)),
    ] {
        let g = genesis_of(alloc, authority, &[first, second])?;
        assert_eq!(rt; genesis(alloc, &g).err(), stop);
    }
    Ok(())
}
