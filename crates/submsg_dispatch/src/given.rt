//! What a contract's call with its submessages gives.

ghost use Rattle.std.specs.Prelude.{◌≡◌, IfOk};
ghost use Rattle.chain_msgs.specs.Messages as messages;
ghost use Rattle.chain_msgs.specs.Plain.{out_view};
ghost use Rattle.submsg_dispatch.specs.Stages.{IsCallerOf, given_view, tried_view, events_told, outcome_given, with_events};
ghost use Rattle.submsg_dispatch.specs.Submessages.{told_of, with_reply, result_told, replaced_by};
ghost use Rattle.submsg_dispatch.specs.Under.{events_view};
ghost use Rattle.submsg_dispatch.specs.Views.{outcome_view};

use crate::called::Called;
use crate::outcome::Outcome;
use call_outcomes::{address_told, data_told, failure_told, tell_events};
use chain_msgs::{Event, Failure, ReplyResult, Response, SubMsg};
use contract_call::Entry;
use std::alloc::{AllocError, Global};

/// What a call with its submessages gives so far.
#[derive(Drop)]
pub(crate) struct Given {
    pub events: Vec<Event>,
    pub out: Option<Vec<u8>>,
}

/// A contract that was called, whose submessages are still to be done.
#[derive(Drop)]
pub(crate) struct Caller {
    pub addr: Vec<u8>,
    /// The address as a text.
    pub contract: String,
    pub entry: Entry,
    pub messages: Vec<SubMsg>,
    pub given: Given,
}

/// What a contract that was called gives before its submessages: the events of the call, and what it tells.
pub(crate) fn caller_of(alloc: Global, called: Called) -> Result<Caller, AllocError>
    ensures { IfOk result (IsCallerOf called) }
{
    let Called {
        addr,
        contract,
        entry,
        mut own,
        response,
    } = called;
    let Response {
        messages,
        attributes,
        events,
        out,
    } = response;
    tell_events(alloc, &contract, attributes, events, &mut own)?;
    let given = Given { events: own, out };
    Ok(Caller {
        addr,
        contract,
        entry,
        messages,
        given,
    })
}

/// What a reply to a message is told of the data that its contract gave.
fn told_of(
    alloc: Global,
    entry: Entry,
    contract: &str,
    out: &Option<Vec<u8>>,
) -> Result<Option<Vec<u8>>, AllocError>
    ensures { IfOk result (λ told. out_view told ≡ told_of entry contract.now (out_view out.now)) }
{
    match entry {
        Entry::Execute | Entry::Migrate => data_told(alloc, out),
        Entry::Instantiate => address_told(alloc, contract, out),
        Entry::Sudo | Entry::Reply | Entry::Query => Ok(None),
    }
}

/// What a message gives whose contract was called, and whose submessages gave this at last.
pub(crate) fn outcome_of(
    alloc: Global,
    entry: Entry,
    contract: &str,
    given: Given,
) -> Result<Outcome, AllocError>
    ensures { IfOk result (λ outcome. outcome_view outcome
        ≡ outcome_given entry contract.now (given_view given)) }
{
    let Given { events, out } = given;
    let reply_out = told_of(alloc, entry, contract, &out)?;
    Ok(Outcome {
        events,
        out,
        reply_out,
    })
}

/// What a reply is told of a submessage.
pub(crate) fn result_told(
    alloc: Global,
    done: Result<Outcome, Failure>,
) -> Result<ReplyResult, AllocError>
    ensures { IfOk result (λ told. messages.outcome_view told ≡ result_told (tried_view done)) }
{
    match done {
        Ok(outcome) => Ok(ReplyResult::Ok {
            events: outcome.events,
            out: outcome.reply_out,
        }),
        Err(failure) => Ok(ReplyResult::Error(failure_told(alloc, &failure)?)),
    }
}

/// The events of a submessage that a reply was told of.
fn events_told(alloc: Global, told: ReplyResult) -> Vec<Event>
    ensures { events_view result ≡ events_told (messages.outcome_view told) }
{
    match told {
        ReplyResult::Ok { events, .. } => events,
        ReplyResult::Error(_) => Vec::new(alloc),
    }
}

/// The data of a reply, if there are any, in place of those that there were.
fn replaced_by(before: Option<Vec<u8>>, out: Option<Vec<u8>>) -> Option<Vec<u8>>
    ensures { out_view result ≡ replaced_by (out_view before) (out_view out) }
{
    match out {
        Some(out) => Some(out),
        None => before,
    }
}

/// What there is after a reply, which was told this.
pub(crate) fn with_reply(
    alloc: Global,
    given: Given,
    told: ReplyResult,
    reply: Outcome,
) -> Result<Given, AllocError>
    ensures { IfOk result (λ all. given_view all ≡ with_reply (given_view given)
        (events_told (messages.outcome_view told)) (outcome_view reply)) }
{
    let Given { mut events, out } = given;
    let mut of_sub = events_told(alloc, told);
    let Outcome {
        events: mut of_reply,
        out: replied,
        ..
    } = reply;
    events.append(&mut of_sub)?;
    events.append(&mut of_reply)?;
    Ok(Given {
        events,
        out: replaced_by(out, replied),
    })
}

/// What there is after a submessage that gave this, and that nobody is told of.
pub(crate) fn with_events(given: Given, outcome: Outcome) -> Result<Given, AllocError>
    ensures { IfOk result (λ all. given_view all ≡ with_events (given_view given) (outcome_view outcome)) }
{
    let Given { mut events, out } = given;
    let Outcome {
        events: mut more,
        ..
    } = outcome;
    events.append(&mut more)?;
    Ok(Given { events, out })
}
