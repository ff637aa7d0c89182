//! How messages are closed that ran in a layer of their own, or within a limit of gas.

ghost use Rattle.std.specs.Prelude.{◌≡◌, ◌+◌, ◌<◌};
ghost use Rattle.kv_layers.specs.Layers as stacks;
ghost use Rattle.submsg_dispatch.specs.Parts.{counts};
ghost use Rattle.submsg_dispatch.specs.Stages.{ClosesOne, Catches};

use crate::failures::out_of_gas;
use crate::outcome::Outcome;
use crate::stop::HandleStop;
use chain_msgs::Failure;
use kv_layers::{Base, Layers};
use std::alloc::Global;

/// Keeps the newest layer where a message was done, and else drops it.
pub(crate) fn close_message<B: Base>(
    alloc: Global,
    layers: &mut Layers<B>,
    done: Result<Outcome, HandleStop>,
) -> Result<Outcome, HandleStop>
    requires { 0 < stacks.depth layers.old }
    ensures closed { ClosesOne B.stands_for layers.old layers.new done result }
    ensures layers { stacks.depth layers.new + 1 ≡ stacks.depth layers.old }
{
    match done {
        Ok(outcome) => {
            layers.keep_layer(alloc)?;
            Ok(outcome)
        }
        Err(stop) => {
            layers.drop_layer();
            Err(stop)
        }
    }
}

/// Whether a limit of gas counts where so much is left.
pub(crate) fn counts(limit: Option<u64>, left: u64) -> bool
    ensures { result ≡ counts limit left }
{
    match limit {
        Some(limit) => limit <= left,
        None => false,
    }
}

/// What is handed over of a message that ran on a part of the gas. Where the limit counts, its end is a failure.
pub(crate) fn caught(
    alloc: Global,
    counting: bool,
    done: Result<Outcome, HandleStop>,
) -> Result<Result<Outcome, Failure>, HandleStop>
    ensures { Catches counting done result }
{
    match done {
        Ok(outcome) => Ok(Ok(outcome)),
        Err(HandleStop::Failed(failure)) => Ok(Err(failure)),
        Err(HandleStop::OutOfGas) if counting => Ok(Err(out_of_gas(alloc)?)),
        Err(stop) => Err(stop),
    }
}
