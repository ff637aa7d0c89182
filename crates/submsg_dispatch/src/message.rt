//! What a message does.

ghost use Rattle.std.specs.Prelude.{◌≡◌, ◌+◌, ◌≤◌};
ghost use Rattle.kv_layers.specs.Layers as stacks;
ghost use Rattle.kv_layers.specs.Layers.{HasCurrent};
ghost use Rattle.chain_records.specs.Keys.{IsAddress};
ghost use Rattle.chain_msgs.specs.Messages.{cosmos_view};
ghost use Rattle.gas_meter.specs.Ranges.{IsInRange};
ghost use Rattle.query_router.specs.Lawful.{HasLawful};
ghost use Rattle.submsg_dispatch.specs.Reaching.{Leads, UnlessNoMemory};
ghost use Rattle.submsg_dispatch.specs.Submessages.{handled};
ghost use Rattle.submsg_dispatch.specs.Views.{outcome_view};

use crate::outcome::Outcome;
use crate::stop::HandleStop;
use crate::tree::handle_under;
use chain_msgs::CosmosMsg;
use gas_meter::{Meter, Schedule};
use gatekeeper::Modules;
use kv_layers::{Base, Layers};
use state_records::facts;
use std::alloc::Global;

/// Does a message of this sender. After a failure and without gas the layers are as they were.
pub fn handle<B: Base, M: Modules>(
    alloc: Global,
    layers: &mut Layers<B>,
    modules: &mut M,
    sender: &[u8],
    msg: &CosmosMsg,
    index: u32,
    meter: &mut Meter,
    costs: &Schedule,
    depth: u32,
) -> Result<Outcome, HandleStop>
    requires sender { IsAddress sender.now }
    requires depth { depth ≤ 32 }
    requires costs { IsInRange costs.now }
    requires lawful { HasLawful (HasCurrent B.stands_for layers.old) }
    ensures leads { Leads B.stands_for layers.old layers.new
        (M.tally modules.old) (M.tally modules.new) meter.old.left meter.new.left
        (handled costs.now sender.now (cosmos_view msg.now) index depth) outcome_view result }
    ensures lawful { UnlessNoMemory result (HasLawful (HasCurrent B.stands_for layers.new)) }
    ensures gas { meter.new.left + meter.new.used ≡ meter.old.left + meter.old.used }
    ensures layers { stacks.depth layers.new ≡ stacks.depth layers.old }
{
    let chain = facts(alloc, &*layers)?;
    let prefix = chain.prefix.as_str();
    handle_under(
        alloc, layers, modules, prefix, sender, msg, index, meter, costs, depth,
    )
}
