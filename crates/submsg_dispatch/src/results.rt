//! The results of transactions.

ghost use Rattle.std.specs.Prelude.{◌≡◌, ◌+◌, ◌<◌, IfOk};
ghost use Rattle.kv_layers.specs.Layers as stacks;
ghost use Rattle.chain_msgs.specs.Plain.{failure_view, result_view};
ghost use Rattle.submsg_dispatch.specs.Transactions.{failed_result, succeeded};
ghost use Rattle.submsg_dispatch.specs.Under.{IsFailureOf, Closes, outcomes_view};

use crate::failures::out_of_gas;
use crate::outcome::Outcome;
use crate::stop::HandleStop;
use chain_msgs::{Failure, TxResult};
use kv_layers::{Base, Layers};
use std::alloc::{AllocError, Global};

/// The result of a transaction that failed.
pub(crate) fn failed_result(alloc: Global, failure: Failure, gas: u64) -> TxResult
    ensures { result_view result ≡ failed_result (failure_view failure) gas }
{
    TxResult {
        failure: Some(failure),
        outs: Vec::new(alloc),
        events: Vec::new(alloc),
        gas,
    }
}

/// The result of a transaction whose messages gave these.
fn succeeded(alloc: Global, outcomes: Vec<Outcome>, gas: u64) -> Result<TxResult, AllocError>
    ensures { IfOk result (λ answer. result_view answer ≡ succeeded (outcomes_view outcomes) gas) }
{
    let mut outs = Vec::with_capacity(alloc, outcomes.len())?;
    let mut events = Vec::new(alloc);
    for outcome in outcomes {
        let Outcome {
            events: mut more,
            out,
            ..
        } = outcome;
        outs.push(out)?;
        events.append(&mut more)?;
    }
    Ok(TxResult {
        failure: None,
        outs,
        events,
        gas,
    })
}

/// The failure of a transaction that was stopped so.
fn failure_of(alloc: Global, stop: HandleStop) -> Result<Failure, AllocError>
    ensures { IfOk result (λ failure. IsFailureOf stop (failure_view failure)) }
{
    match stop {
        HandleStop::Failed(failure) => Ok(failure),
        HandleStop::OutOfGas => out_of_gas(alloc),
        HandleStop::NoMemory => Err(AllocError),
    }
}

/// Keeps the newest layer where all messages were done, and else drops it.
pub(crate) fn close<B: Base>(
    alloc: Global,
    layers: &mut Layers<B>,
    done: Result<Vec<Outcome>, HandleStop>,
    gas: u64,
) -> Result<TxResult, AllocError>
    requires { 0 < stacks.depth layers.old }
    ensures closed { IfOk result (λ answer. Closes B.stands_for layers.old layers.new
        done gas (result_view answer)) }
    ensures layers { stacks.depth layers.new + 1 ≡ stacks.depth layers.old }
{
    match done {
        Ok(outcomes) => {
            layers.keep_layer(alloc)?;
            succeeded(alloc, outcomes, gas)
        }
        Err(stop) => {
            layers.drop_layer();
            let failure = failure_of(alloc, stop)?;
            Ok(failed_result(alloc, failure, gas))
        }
    }
}
