ghost use Rattle.std.specs.Prelude.{◌≡◌, ◌<◌, ◌≤◌, OnOk, IfOk};
ghost use Rattle.kv_layers.specs.Layers.{HasCurrent};
ghost use Rattle.chain_records.specs.Keys.{IsAddress};
ghost use Rattle.bank_ledger.specs.Lawful.{HasLawful};
ghost use Rattle.bank_ledger.specs.Minted.{HasLawfulRecords};

use bank_ledger::{BankStop, all_balances, balance, burn, mint, opened, send, supply};
use chain_records::Facts;
use coin_amounts::{Coins, CoinsFault, RawCoin, coins_text, read_coins};
use kv_layers::{Base, Layers, Plain};
use std::alloc::{AllocError, Global};
use std::process::Abort;
use std::test::Fail;

const ONE: [u8; 2] = [0xAA, 0xBB];

const OTHER: [u8; 2] = [0xAA, 0xBC];

/// A chain without amounts.
fn begun(alloc: Global) -> Result<Plain, AllocError>
    ensures { IfOk result (λ plain. HasLawfulRecords plain) }
{
    let facts = Facts {
        chain_id: String::from_str(alloc, "t-1")?,
        prefix: String::from_str(alloc, "abcdef")?,
        authority: None,
        caps: Vec::new(alloc),
        query_gas: 1_000_000,
        height: 0,
        time: 0,
    };
    opened(alloc, facts)
}

/// One layer over the records.
fn layered(alloc: Global, plain: Plain) -> Layers<Plain>
    requires { HasLawfulRecords plain }
    ensures { HasLawful (HasCurrent ⟦<Plain as Base>⟧.stands_for result) }
{
    Layers::new(alloc, plain)
}

/// Denoms with their amounts.
type List = &'static [(&'static str, &'static str)];

/// What is done with the bank, or looked at.
#[derive(Clone, Copy, Drop)]
enum Act {
    Send(&'static [u8; 2], &'static [u8; 2], List),
    Burn(&'static [u8; 2], List),
    Held(&'static [u8; 2]),
    Balance(&'static [u8; 2], &'static str),
    Supply(&'static str),
}

fn coins(alloc: Global, list: List) -> Result<Coins, CoinsFault> {
    let mut raws = Vec::new(alloc);
    for (denom, amount) in list {
        raws.push(RawCoin {
            denom: String::from_str(alloc, denom)?,
            amount: String::from_str(alloc, amount)?,
        })?;
    }
    read_coins(alloc, &raws)
}

/// Sends, or tells what was there and what was wanted where that is too little.
fn try_send(
    alloc: Global,
    layers: &mut Layers<Plain>,
    from: &[u8; 2],
    to: &[u8; 2],
    coins: &Coins,
) -> Result<String, AllocError>
    requires lawful { HasLawful (HasCurrent ⟦<Plain as Base>⟧.stands_for layers.old) }
    ensures { OnOk result (HasLawful (HasCurrent ⟦<Plain as Base>⟧.stands_for layers.new)) }
{
    match send(alloc, layers, from, to, coins) {
        Ok(()) => String::from_str(alloc, "sent"),
        Err(BankStop::NotEnough { denom, have, want }) => {
            format!(in alloc; "{denom} {have} {want}")
        }
        Err(BankStop::NoMemory) => Err(AllocError),
    }
}

/// The same for burning.
fn try_burn(
    alloc: Global,
    layers: &mut Layers<Plain>,
    from: &[u8; 2],
    coins: &Coins,
) -> Result<String, AllocError>
    requires lawful { HasLawful (HasCurrent ⟦<Plain as Base>⟧.stands_for layers.old) }
    ensures { OnOk result (HasLawful (HasCurrent ⟦<Plain as Base>⟧.stands_for layers.new)) }
{
    match burn(alloc, layers, from, coins) {
        Ok(()) => String::from_str(alloc, "burnt"),
        Err(BankStop::NotEnough { denom, have, want }) => {
            format!(in alloc; "{denom} {have} {want}")
        }
        Err(BankStop::NoMemory) => Err(AllocError),
    }
}

/// What an account or the bank has.
fn seen(alloc: Global, layers: &Layers<Plain>, act: Act) -> Result<String, Fail>
    requires lawful { HasLawful (HasCurrent ⟦<Plain as Base>⟧.stands_for layers.now) }
{
    let text = match act {
        Act::Held(addr) => coins_text(alloc, &all_balances(alloc, layers, addr)?)?,
        Act::Balance(addr, denom) => format!(in alloc; "{}", balance(alloc, layers, addr, denom)?)?,
        Act::Supply(denom) => format!(in alloc; "{}", supply(alloc, layers, denom)?)?,
        _ => String::new(alloc),
    };
    Ok(text)
}

/// Does this, or looks at it, and tells in a text what came of it.
fn told(alloc: Global, layers: &mut Layers<Plain>, act: Act) -> Result<String, Fail>
    requires lawful { HasLawful (HasCurrent ⟦<Plain as Base>⟧.stands_for layers.old) }
    ensures { OnOk result (HasLawful (HasCurrent ⟦<Plain as Base>⟧.stands_for layers.new)) }
{
    match act {
        Act::Send(from, to, list) => {
            let coins = coins(alloc, list)?;
            let text = try_send(alloc, layers, from, to, &coins)?;
            Ok(text)
        }
        Act::Burn(from, list) => {
            let coins = coins(alloc, list)?;
            let text = try_burn(alloc, layers, from, &coins)?;
            Ok(text)
        }
        _ => seen(alloc, layers, act),
    }
}

/// Does these one after another, and compares what comes of each.
fn expect_all(
    rt: &impl Abort,
    alloc: Global,
    layers: Layers<Plain>,
    acts: &[(Act, &str)],
) -> Result<(), Fail>
    requires { HasLawful (HasCurrent ⟦<Plain as Base>⟧.stands_for layers) }
{
    let mut layers = layers;
    for (act, want) in acts {
        assert_eq!(rt; told(alloc, &mut layers, *act)?.as_str(), *want);
    }
    Ok(())
}

#[test]
fn a_send_moves_to_another_and_changes_nothing_to_oneself(rt: HostRuntime) -> Result<(), Fail> {
    let alloc = rt.alloc();
    let mut plain = begun(alloc)?;
    mint(alloc, &mut plain, &ONE, "utok", 10)?;
    expect_all(
        &rt,
        alloc,
        layered(alloc, plain),
        &[
            (Act::Send(&ONE, &ONE, &[("utok", "10")]), "sent"),
            (Act::Balance(&ONE, "utok"), "10"),
            (Act::Send(&ONE, &ONE, &[("utok", "11")]), "utok 10 11"),
            (Act::Balance(&ONE, "utok"), "10"),
            (Act::Send(&ONE, &OTHER, &[("utok", "3")]), "sent"),
            (Act::Balance(&ONE, "utok"), "7"),
            (Act::Balance(&OTHER, "utok"), "3"),
            (Act::Supply("utok"), "10"),
        ],
    )
}

#[test]
fn a_burn_lowers_the_balance_and_the_supply(rt: HostRuntime) -> Result<(), Fail> {
    let alloc = rt.alloc();
    let mut plain = begun(alloc)?;
    mint(alloc, &mut plain, &ONE, "utok", 10)?;
    expect_all(
        &rt,
        alloc,
        layered(alloc, plain),
        &[
            (Act::Burn(&ONE, &[("utok", "4")]), "burnt"),
            (Act::Balance(&ONE, "utok"), "6"),
            (Act::Supply("utok"), "6"),
            (Act::Burn(&ONE, &[("utok", "7")]), "utok 6 7"),
            (Act::Balance(&ONE, "utok"), "6"),
            (Act::Supply("utok"), "6"),
        ],
    )
}

#[test]
fn the_first_denom_that_falls_short_is_told_and_nothing_is_moved(
    rt: HostRuntime,
) -> Result<(), Fail> {
    let alloc = rt.alloc();
    let mut plain = begun(alloc)?;
    mint(alloc, &mut plain, &ONE, "utok", 10)?;
    mint(alloc, &mut plain, &ONE, "atok", 5)?;
    mint(alloc, &mut plain, &ONE, "ztok", 1)?;
    mint(alloc, &mut plain, &OTHER, "atok", 2)?;
    expect_all(
        &rt,
        alloc,
        layered(alloc, plain),
        &[
            (
                Act::Send(
                    &ONE,
                    &OTHER,
                    &[("ztok", "2"), ("utok", "11"), ("atok", "5")],
                ),
                "utok 10 11",
            ),
            (Act::Held(&ONE), "5atok,10utok,1ztok"),
            (
                Act::Send(
                    &ONE,
                    &OTHER,
                    &[("utok", "10"), ("atok", "4"), ("ztok", "1")],
                ),
                "sent",
            ),
            (Act::Held(&ONE), "1atok"),
            (Act::Held(&OTHER), "6atok,10utok,1ztok"),
        ],
    )
}

#[test]
fn a_minted_amount_counts_for_its_account_and_the_supply_which_has_128_bits(
    rt: HostRuntime,
) -> Result<(), Fail> {
    let alloc = rt.alloc();
    let mut plain = begun(alloc)?;
    assert_eq!(rt; supply(alloc, &plain, "utok")?, 0);
    assert_eq!(rt; balance(alloc, &plain, &ONE, "utok")?, 0);
    assert!(rt; mint(alloc, &mut plain, &OTHER, "utok", 5)?);
    // an amount above 0, whether it is minted, and then what the account has and the supply
    for (amount, minted, have, total) in [
        (1, true, 1, 6),
        (u128::MAX - 5, false, 1, 6),
        (u128::MAX - 6, true, u128::MAX - 5, u128::MAX),
        (1, false, u128::MAX - 5, u128::MAX),
    ] {
        let taken = mint(alloc, &mut plain, &ONE, "utok", u128::max(amount, 1))?;
        assert_eq!(rt; taken, minted, "at {amount}");
        assert_eq!(rt;
            balance(alloc, &plain, &ONE, "utok")?,
            have,
            "after {amount}"
        );
        assert_eq!(rt; supply(alloc, &plain, "utok")?, total, "after {amount}");
    }
    Ok(())
}
