//! What is answered of balances and supplies.

ghost use Rattle.std.specs.Prelude.{◌≡◌, ◌+◌, ◌≤◌, IfOk};
ghost use Rattle.coin_amounts.specs.Coins.{coins_view};
ghost use Rattle.chain_msgs.specs.Plain.{answer_view};
ghost use Rattle.bank_ledger.specs.Accounts as accounts;
ghost use Rattle.query_router.specs.Lawful.{HasLawful, OfEachLawful};
ghost use Rattle.query_router.specs.Parts.{Tells, IsFree};
ghost use Rattle.query_router.specs.Queries.{Smart, amount_answer, all_answered, answer_to};
ghost use Rattle.query_router.specs.Requests as requests;

use crate::answers::{amount_answer, coins_answer, invalid};
use crate::charge::{charge, cost_of};
use crate::records::address_in;
use crate::stop::QueryStop;
use bank_ledger::{all_balances, balance, supply};
use chain_msgs::Answer;
use coin_amounts::Coins;
use gas_meter::{Meter, Schedule};
use kv_layers::Base;
use std::alloc::{AllocError, Global};

/// What an address has of a denom.
pub(crate) fn balance_answer<B: Base>(
    alloc: Global,
    view: &B,
    request: &[u8],
    address: &str,
    denom: &str,
) -> Result<Answer, AllocError>
    requires { HasLawful (B.stands_for view.now) }
    ensures { IfOk result (λ answer. OfEachLawful (B.stands_for view.now)
        (λ s. (of_contract : Smart) (costs : Schedule) →
        IsFree answer (answer_to of_contract costs s request.now (requests.balance address.now denom.now)))) }
{
    match address_in(alloc, view, address)? {
        Some(addr) => {
            let amount = balance(alloc, view, &addr, denom)?;
            amount_answer(alloc, denom, amount)
        }
        None => invalid(alloc, "address", request),
    }
}

/// Coins, which are paid for before they are answered.
fn paid_coins(alloc: Global, coins: &Coins, meter: &mut Meter) -> Result<Answer, QueryStop>
    ensures answer { Tells result meter.new.left
        (all_answered (coins_view coins.now) meter.old.left) }
    ensures gas { meter.new.left + meter.new.used ≡ meter.old.left + meter.old.used }
    ensures spends { meter.new.left ≤ meter.old.left }
{
    match charge(meter, cost_of(coins)) {
        Ok(()) => Ok(coins_answer(alloc, coins)?),
        Err(stop) => Err(stop),
    }
}

/// All that an address has.
pub(crate) fn all_balances_answer<B: Base>(
    alloc: Global,
    view: &B,
    request: &[u8],
    address: &str,
    meter: &mut Meter,
) -> Result<Answer, QueryStop>
    requires { HasLawful (B.stands_for view.now) }
    ensures answer { OfEachLawful (B.stands_for view.now) (λ s. (of_contract : Smart) (costs : Schedule) →
        Tells result meter.new.left
        (answer_to of_contract costs s request.now (requests.all_balances address.now) meter.old.left)) }
    ensures gas { meter.new.left + meter.new.used ≡ meter.old.left + meter.old.used }
    ensures spends { meter.new.left ≤ meter.old.left }
{
    match address_in(alloc, view, address)? {
        Some(addr) => {
            let coins = all_balances(alloc, view, &addr)?;
            paid_coins(alloc, &coins, meter)
        }
        None => Ok(invalid(alloc, "address", request)?),
    }
}

/// How much there is of a denom.
pub(crate) fn supply_answer<B: Base>(
    alloc: Global,
    view: &B,
    denom: &str,
) -> Result<Answer, AllocError>
    requires { HasLawful (B.stands_for view.now) }
    ensures { IfOk result (λ answer. OfEachLawful (B.stands_for view.now)
        (λ s. answer_view answer ≡ amount_answer denom.now (accounts.supply s denom.now))) }
{
    let amount = supply(alloc, view, denom)?;
    amount_answer(alloc, denom, amount)
}
