use coin_amounts::{Coins, CoinsFault, RawCoin, coins_text, is_denom, read_amount, read_coins};
use std::alloc::{AllocError, Global};
use std::test::Fail;

#[test]
fn amounts_are_digits_up_to_128_bits(rt: HostRuntime) {
    for (text, want) in [
        ("0", Some(0)),
        ("10", Some(10)),
        ("00012", Some(12)),
        (
            "340282366920938463463374607431768211455",
            Some(340282366920938463463374607431768211455),
        ),
        ("340282366920938463463374607431768211456", None),
        ("1000000000000000000000000000000000000000", None),
        ("", None),
        ("+1", None),
        ("-1", None),
        ("1.0", None),
        (" 1", None),
        ("1_000", None),
        ("\u{661}", None),
        ("1\u{ff11}", None),
    ] {
        assert_eq!(rt; read_amount(text).ok(), want, "{text}");
    }
}

#[test]
fn denoms_begin_with_a_letter(rt: HostRuntime) -> Result<(), Fail> {
    for (text, want) in [
        ("utok", true),
        ("abc", true),
        ("ab", false),
        ("1ab", false),
        ("/ab", false),
        ("ibc/27394FB092D2ECCD56123C74F36E4C1F926001CE", true),
        ("A:b.c_d-e/9", true),
        ("ab c", false),
        ("ab,c", false),
        ("ab\u{e9}", false),
        ("", false),
    ] {
        assert_eq!(rt; is_denom(text), want, "{text}");
    }
    let long = long_denom(rt.alloc())?;
    assert!(rt; is_denom(long.as_str()));
    let longer = format!(in rt.alloc(); "{long}a")?;
    assert!(rt; !is_denom(longer.as_str()));
    Ok(())
}

// 128 letters
fn long_denom(alloc: Global) -> Result<String, AllocError> {
    let mut text = String::new(alloc);
    for _ in 0..128 {
        text.push('a')?;
    }
    Ok(text)
}

fn raw_coins(alloc: Global, pairs: &[(&str, &str)]) -> Result<Vec<RawCoin>, AllocError> {
    let mut list = Vec::new(alloc);
    for (denom, amount) in pairs {
        let denom = String::from_str(alloc, denom)?;
        let amount = String::from_str(alloc, amount)?;
        list.push(RawCoin { denom, amount })?;
    }
    Ok(list)
}

#[test]
fn coins_are_put_in_order(rt: HostRuntime) -> Result<(), Fail> {
    let none: &[(&str, &str)] = &[];
    let one: &[(&str, &str)] = &[("utok", "4")];
    let three: &[(&str, &str)] = &[("utok", "10"), ("Utok", "7"), ("atok", "007")];
    let prefix: &[(&str, &str)] = &[("utoken", "1"), ("utok", "2")];
    for (pairs, want) in [
        (none, ""),
        (one, "4utok"),
        (three, "7Utok,7atok,10utok"),
        (prefix, "2utok,1utoken"),
    ] {
        let list = raw_coins(rt.alloc(), pairs)?;
        let coins = read_coins(rt.alloc(), list.as_slice()).ok().ok_or("coins")?;
        assert_eq!(rt; coins.len(), pairs.len());
        assert_eq!(rt; coins.is_empty(), pairs.is_empty());
        assert_eq!(rt; coins.as_slice().len(), pairs.len());
        let text = coins_text(rt.alloc(), &coins)?;
        assert_eq!(rt; text.as_str(), want);
    }
    assert!(rt; Coins::new(rt.alloc()).is_empty());
    Ok(())
}

#[test]
fn the_earliest_fault_is_answered(rt: HostRuntime) -> Result<(), Fail> {
    let denom_first: &[(&str, &str)] = &[("u", "0"), ("utok", "x")];
    let denom_later: &[(&str, &str)] = &[("utok", "1"), ("1tok", "")];
    let amount_first: &[(&str, &str)] = &[("utok", "x"), ("u", "1")];
    let amount_later: &[(&str, &str)] = &[("utok", "1"), ("utok", "1.0")];
    let zero_first: &[(&str, &str)] = &[("utok", "0"), ("utok", "0")];
    let zero_later: &[(&str, &str)] = &[("utok", "1"), ("utok", "000")];
    let twice: &[(&str, &str)] = &[("utok", "1"), ("utok", "1")];
    let twice_later: &[(&str, &str)] = &[("utok", "1"), ("atok", "1"), ("utok", "2"), ("u", "1")];
    for (pairs, want) in [
        (denom_first, CoinsFault::DenomBad(0)),
        (denom_later, CoinsFault::DenomBad(1)),
        (amount_first, CoinsFault::AmountBad(0)),
        (amount_later, CoinsFault::AmountBad(1)),
        (zero_first, CoinsFault::AmountZero(0)),
        (zero_later, CoinsFault::AmountZero(1)),
        (twice, CoinsFault::DenomTwice(1)),
        (twice_later, CoinsFault::DenomTwice(2)),
    ] {
        let list = raw_coins(rt.alloc(), pairs)?;
        let fault = read_coins(rt.alloc(), list.as_slice())
            .err()
            .ok_or("no fault")?;
        assert_eq!(rt; fault, want);
    }
    Ok(())
}
