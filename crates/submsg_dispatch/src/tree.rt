//! Messages by their kind, with the submessages that contracts ask for and the replies to them.

ghost use Rattle.std.specs.Prelude.{◌≡◌, ◌+◌, ◌≤◌, map};
ghost use Rattle.kv_layers.specs.Layers as stacks;
ghost use Rattle.kv_layers.specs.Layers.{HasCurrent};
ghost use Rattle.chain_records.specs.Keys.{IsAddress};
ghost use Rattle.chain_msgs.specs.Messages.{cosmos_view, sub_msg_view, reply_view};
ghost use Rattle.gas_meter.specs.Ranges.{IsInRange};
ghost use Rattle.query_router.specs.Lawful.{HasLawfulUnder};
ghost use Rattle.submsg_dispatch.specs.Parts.{attempt};
ghost use Rattle.submsg_dispatch.specs.Stages.{IsCalled, called_view, given_view, tried_view};
ghost use Rattle.submsg_dispatch.specs.Submessages.{at_depth, by_kind, handled, responds, settled, sub, subs};
ghost use Rattle.submsg_dispatch.specs.Under.{LeadsUnder, LeadsOn};
ghost use Rattle.submsg_dispatch.specs.Views.{outcome_view};

use crate::admins::{change_admin, drop_admin};
use crate::bank::{burn_coins, send_coins};
use crate::called::Called;
use crate::charges::charge_message;
use crate::commands::reply_to;
use crate::creation::{described, instantiate};
use crate::execution::execute;
use crate::failures::{stop_of, too_deep, unsupported};
use crate::given::{Caller, Given, caller_of, outcome_of, result_told, with_events, with_reply};
use crate::layer::{caught, close_message, counts};
use crate::migration::migrate;
use crate::outcome::Outcome;
use crate::stop::HandleStop;
use call_outcomes::wants_reply;
use chain_msgs::{CosmosMsg, Failure, Reply, SubMsg};
use gas_meter::{Meter, Schedule};
use gatekeeper::{Modules, fetches_join};
use kv_layers::{Base, Layers};
use std::alloc::Global;

/// Messages and replies nest at most so deep.
const DEEPEST: u32 = 32;

/// Does a message of this sender at a depth. After a failure and without gas the layers are as they were.
#[cycle(tree)]
pub(crate) fn handle_under<B: Base, M: Modules>(
    alloc: Global,
    layers: &mut Layers<B>,
    modules: &mut M,
    prefix: &str,
    sender: &[u8],
    msg: &CosmosMsg,
    index: u32,
    meter: &mut Meter,
    costs: &Schedule,
    depth: u32,
) -> Result<Outcome, HandleStop>
    requires sender { IsAddress sender.now }
    requires depth { depth ≤ 32 }
    requires costs { IsInRange costs.now }
    requires lawful { HasLawfulUnder prefix.now (HasCurrent B.stands_for layers.old) }
    ensures leads { LeadsUnder prefix.now B.stands_for layers.old layers.new
        (M.tally modules.old) (M.tally modules.new) meter.old.left meter.new.left
        (handled costs.now sender.now (cosmos_view msg.now) index depth) outcome_view result }
    ensures gas { meter.new.left + meter.new.used ≡ meter.old.left + meter.old.used }
    ensures layers { stacks.depth layers.new ≡ stacks.depth layers.old }
{
    charge_message(meter, costs)?;
    if depth == DEEPEST {
        return Err(stop_of(too_deep(alloc)));
    }
    layers.push_layer(alloc)?;
    let done = by_kind(
        alloc,
        layers,
        modules,
        prefix,
        sender,
        msg,
        index,
        meter,
        costs,
        depth + 1,
    );
    close_message(alloc, layers, done)
}

/// Does a message that is paid for, and its submessages at a depth.
#[cycle(tree)]
fn by_kind<B: Base, M: Modules>(
    alloc: Global,
    layers: &mut Layers<B>,
    modules: &mut M,
    prefix: &str,
    sender: &[u8],
    msg: &CosmosMsg,
    index: u32,
    meter: &mut Meter,
    costs: &Schedule,
    depth: u32,
) -> Result<Outcome, HandleStop>
    requires sender { IsAddress sender.now }
    requires depth { depth ≤ 32 }
    requires costs { IsInRange costs.now }
    requires lawful { HasLawfulUnder prefix.now (HasCurrent B.stands_for layers.old) }
    ensures leads { LeadsOn prefix.now B.stands_for layers.old layers.new
        (M.tally modules.old) (M.tally modules.new) meter.old.left meter.new.left
        (by_kind (at_depth costs.now index depth) costs.now index prefix.now sender.now (cosmos_view msg.now)) outcome_view result }
    ensures gas { meter.new.left + meter.new.used ≡ meter.old.left + meter.old.used }
    ensures layers { stacks.depth layers.new ≡ stacks.depth layers.old }
{
    fetches_join();
    match msg {
        CosmosMsg::BankSend { to, amount } => {
            let to = to.as_str();
            send_coins(alloc, layers, prefix, sender, to, amount, meter, costs)
        }
        CosmosMsg::BankBurn { amount } => {
            burn_coins(alloc, layers, prefix, sender, amount, meter, costs)
        }
        CosmosMsg::Execute {
            contract,
            msg,
            funds,
        } => {
            let called = execute(
                alloc, layers, modules, prefix, sender, contract, msg, funds, index, meter, costs,
            )?;
            respond(
                alloc, layers, modules, prefix, called, index, meter, costs, depth,
            )
        }
        CosmosMsg::Instantiate {
            admin,
            code_id,
            msg,
            funds,
            label,
            salt,
        } => {
            let contract = described(alloc, prefix, sender, admin, *code_id, label, salt)?;
            let called = instantiate(
                alloc, layers, modules, prefix, contract, msg, funds, salt, index, meter, costs,
            )?;
            respond(
                alloc, layers, modules, prefix, called, index, meter, costs, depth,
            )
        }
        CosmosMsg::Migrate {
            contract,
            new_code_id,
            msg,
        } => {
            let called = migrate(
                alloc,
                layers,
                modules,
                prefix,
                sender,
                contract,
                *new_code_id,
                msg,
                index,
                meter,
                costs,
            )?;
            respond(
                alloc, layers, modules, prefix, called, index, meter, costs, depth,
            )
        }
        CosmosMsg::UpdateAdmin { contract, admin } => {
            let (contract, admin) = (contract.as_str(), admin.as_str());
            change_admin(alloc, layers, prefix, sender, contract, admin)
        }
        CosmosMsg::ClearAdmin { contract } => {
            drop_admin(alloc, layers, prefix, sender, contract.as_str())
        }
        CosmosMsg::Other { kind } => Err(stop_of(unsupported(alloc, kind.as_str()))),
    }
}

/// Does the submessages of a contract that was called, at a depth.
#[cycle(tree)]
pub(crate) fn respond<B: Base, M: Modules>(
    alloc: Global,
    layers: &mut Layers<B>,
    modules: &mut M,
    prefix: &str,
    called: Called,
    index: u32,
    meter: &mut Meter,
    costs: &Schedule,
    depth: u32,
) -> Result<Outcome, HandleStop>
    requires called { IsCalled called }
    requires depth { depth ≤ 32 }
    requires costs { IsInRange costs.now }
    requires lawful { HasLawfulUnder prefix.now (HasCurrent B.stands_for layers.old) }
    ensures leads { LeadsOn prefix.now B.stands_for layers.old layers.new
        (M.tally modules.old) (M.tally modules.new) meter.old.left meter.new.left
        (responds (at_depth costs.now index depth) (called_view called)) outcome_view result }
    ensures gas { meter.new.left + meter.new.used ≡ meter.old.left + meter.old.used }
    ensures layers { stacks.depth layers.new ≡ stacks.depth layers.old }
{
    fetches_join();
    let Caller {
        addr,
        contract,
        entry,
        messages,
        given,
    } = caller_of(alloc, called)?;
    let given = run_subs(
        alloc, layers, modules, prefix, &addr, &messages, given, index, meter, costs, depth,
    )?;
    Ok(outcome_of(alloc, entry, &contract, given)?)
}

/// Does submessages in order, each with the reply to it.
#[cycle(tree)]
fn run_subs<B: Base, M: Modules>(
    alloc: Global,
    layers: &mut Layers<B>,
    modules: &mut M,
    prefix: &str,
    caller: &[u8],
    messages: &[SubMsg],
    given: Given,
    index: u32,
    meter: &mut Meter,
    costs: &Schedule,
    depth: u32,
) -> Result<Given, HandleStop>
    requires caller { IsAddress caller.now }
    requires depth { depth ≤ 32 }
    requires costs { IsInRange costs.now }
    requires lawful { HasLawfulUnder prefix.now (HasCurrent B.stands_for layers.old) }
    ensures leads { LeadsOn prefix.now B.stands_for layers.old layers.new
        (M.tally modules.old) (M.tally modules.new) meter.old.left meter.new.left
        (subs (at_depth costs.now index depth) caller.now (map sub_msg_view messages.now) (given_view given)) given_view result }
    ensures gas { meter.new.left + meter.new.used ≡ meter.old.left + meter.old.used }
    ensures layers { stacks.depth layers.new ≡ stacks.depth layers.old }
{
    fetches_join();
    let mut given = given;
    for message in messages {
        given = run_sub(
            alloc, layers, modules, prefix, caller, message, given, index, meter, costs, depth,
        )?;
    }
    Ok(given)
}

/// Does a submessage, and the reply to it.
#[cycle(tree)]
fn run_sub<B: Base, M: Modules>(
    alloc: Global,
    layers: &mut Layers<B>,
    modules: &mut M,
    prefix: &str,
    caller: &[u8],
    message: &SubMsg,
    given: Given,
    index: u32,
    meter: &mut Meter,
    costs: &Schedule,
    depth: u32,
) -> Result<Given, HandleStop>
    requires caller { IsAddress caller.now }
    requires depth { depth ≤ 32 }
    requires costs { IsInRange costs.now }
    requires lawful { HasLawfulUnder prefix.now (HasCurrent B.stands_for layers.old) }
    ensures leads { LeadsOn prefix.now B.stands_for layers.old layers.new
        (M.tally modules.old) (M.tally modules.new) meter.old.left meter.new.left
        (sub (at_depth costs.now index depth) caller.now (sub_msg_view message.now) (given_view given)) given_view result }
    ensures gas { meter.new.left + meter.new.used ≡ meter.old.left + meter.old.used }
    ensures layers { stacks.depth layers.new ≡ stacks.depth layers.old }
{
    fetches_join();
    let done = try_sub(
        alloc, layers, modules, prefix, caller, message, index, meter, costs, depth,
    )?;
    settle(
        alloc, layers, modules, prefix, caller, message, given, done, index, meter, costs, depth,
    )
}

/// Does the message of a submessage within its limit of gas. A failure is handed over.
#[cycle(tree)]
fn try_sub<B: Base, M: Modules>(
    alloc: Global,
    layers: &mut Layers<B>,
    modules: &mut M,
    prefix: &str,
    caller: &[u8],
    message: &SubMsg,
    index: u32,
    meter: &mut Meter,
    costs: &Schedule,
    depth: u32,
) -> Result<Result<Outcome, Failure>, HandleStop>
    requires caller { IsAddress caller.now }
    requires depth { depth ≤ 32 }
    requires costs { IsInRange costs.now }
    requires lawful { HasLawfulUnder prefix.now (HasCurrent B.stands_for layers.old) }
    ensures leads { LeadsOn prefix.now B.stands_for layers.old layers.new
        (M.tally modules.old) (M.tally modules.new) meter.old.left meter.new.left
        (attempt message.now.gas_limit (handled costs.now caller.now (cosmos_view message.now.msg) index depth)) tried_view result }
    ensures gas { meter.new.left + meter.new.used ≡ meter.old.left + meter.old.used }
    ensures layers { stacks.depth layers.new ≡ stacks.depth layers.old }
{
    let left = meter.left();
    let counting = counts(message.gas_limit, left);
    let mut part = meter.part(message.gas_limit.unwrap_or(left));
    let done = handle_under(
        alloc,
        layers,
        modules,
        prefix,
        caller,
        &message.msg,
        index,
        &mut part,
        costs,
        depth,
    );
    meter.spend(part.used());
    caught(alloc, counting, done)
}

/// Has a contract told what became of its submessage, if it wants that, and gathers what comes of it.
#[cycle(tree)]
fn settle<B: Base, M: Modules>(
    alloc: Global,
    layers: &mut Layers<B>,
    modules: &mut M,
    prefix: &str,
    caller: &[u8],
    message: &SubMsg,
    given: Given,
    done: Result<Outcome, Failure>,
    index: u32,
    meter: &mut Meter,
    costs: &Schedule,
    depth: u32,
) -> Result<Given, HandleStop>
    requires caller { IsAddress caller.now }
    requires depth { depth ≤ 32 }
    requires costs { IsInRange costs.now }
    requires lawful { HasLawfulUnder prefix.now (HasCurrent B.stands_for layers.old) }
    ensures leads { LeadsOn prefix.now B.stands_for layers.old layers.new
        (M.tally modules.old) (M.tally modules.new) meter.old.left meter.new.left
        (settled (at_depth costs.now index depth) caller.now (sub_msg_view message.now) (given_view given) (tried_view done)) given_view result }
    ensures gas { meter.new.left + meter.new.used ≡ meter.old.left + meter.old.used }
    ensures layers { stacks.depth layers.new ≡ stacks.depth layers.old }
{
    fetches_join();
    if !wants_reply(message.reply_on, done.is_ok()) {
        return match done {
            Ok(outcome) => Ok(with_events(given, outcome)?),
            Err(failure) => Err(HandleStop::Failed(failure)),
        };
    }
    let result = result_told(alloc, done)?;
    let reply = Reply {
        id: message.id,
        result,
    };
    let outcome = run_reply(
        alloc, layers, modules, prefix, caller, &reply, index, meter, costs, depth,
    )?;
    Ok(with_reply(alloc, given, reply.result, outcome)?)
}

/// Has the contract with an address told of its submessage. Below the greatest depth it isn't called.
#[cycle(tree)]
fn run_reply<B: Base, M: Modules>(
    alloc: Global,
    layers: &mut Layers<B>,
    modules: &mut M,
    prefix: &str,
    addr: &[u8],
    reply: &Reply,
    index: u32,
    meter: &mut Meter,
    costs: &Schedule,
    depth: u32,
) -> Result<Outcome, HandleStop>
    requires addr { IsAddress addr.now }
    requires depth { depth ≤ 32 }
    requires costs { IsInRange costs.now }
    requires lawful { HasLawfulUnder prefix.now (HasCurrent B.stands_for layers.old) }
    ensures leads { LeadsOn prefix.now B.stands_for layers.old layers.new
        (M.tally modules.old) (M.tally modules.new) meter.old.left meter.new.left
        ((at_depth costs.now index depth).reply addr.now (reply_view reply.now)) outcome_view result }
    ensures gas { meter.new.left + meter.new.used ≡ meter.old.left + meter.old.used }
    ensures layers { stacks.depth layers.new ≡ stacks.depth layers.old }
{
    fetches_join();
    if depth == DEEPEST {
        return Err(stop_of(too_deep(alloc)));
    }
    let called = reply_to(
        alloc,
        layers,
        modules,
        prefix,
        addr.to_vec(alloc)?,
        reply,
        index,
        meter,
        costs,
    )?;
    respond(
        alloc,
        layers,
        modules,
        prefix,
        called,
        index,
        meter,
        costs,
        depth + 1,
    )
}
