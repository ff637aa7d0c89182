//! What a contract is told, written as JSON.

ghost use Rattle.std.specs.Prelude.{◌≡◌, false, codes, IfOk};
ghost use Rattle.serde_json.specs.View.{view};
ghost use Rattle.coin_amounts.specs.Coins.{coins_view};
ghost use Rattle.chain_msgs.specs.Plain.{answer_view, system_view};
ghost use Rattle.chain_msgs.specs.Messages.{env_view, outcome_view, reply_view};
ghost use Rattle.chain_msgs.specs.Texts.{transaction_data, env_data, info_data, outcome_data, reply_data, system_data, answer_data, env_text, info_text, reply_text, answer_text};

use crate::answer::{Answer, SystemError};
use crate::env::Env;
use crate::reply::{Reply, ReplyResult};
use crate::shown::{Shown, list_value};
use coin_amounts::Coins;
use json_shapes::{binary_value, write_json};
use serde_json::{Value, json};
use std::alloc::{AllocError, Global};

fn transaction_value(alloc: Global, index: Option<u32>) -> Result<Value, AllocError>
    ensures { IfOk result (λ value. view value ≡ transaction_data index) }
{
    match index {
        None => Ok(Value::Null),
        Some(index) => json!(in alloc; {"index": index}),
    }
}

fn env_value(alloc: Global, env: &Env) -> Result<Value, AllocError>
    ensures { IfOk result (λ value. view value ≡ env_data (env_view env.now)) }
{
    let time = env.time.to_string(alloc)?;
    let transaction = transaction_value(alloc, env.index)?;
    json!(in alloc; {
        "block": {"chain_id": &env.chain_id, "height": env.height, "time": time},
        "contract": {"address": &env.contract},
        "transaction": transaction
    })
}

/// The environment that a contract's entry is told.
pub fn write_env(alloc: Global, env: &Env) -> Result<Vec<u8>, AllocError>
    ensures { IfOk result (λ text. text.items ≡ env_text (env_view env.now)) }
{
    let value = env_value(alloc, env)?;
    write_json(alloc, &value)
}

fn info_value(alloc: Global, sender: &str, funds: &Coins) -> Result<Value, AllocError>
    ensures { IfOk result (λ value. view value ≡ info_data sender.now (coins_view funds.now)) }
{
    let funds = list_value(alloc, funds.as_slice())?;
    json!(in alloc; {"funds": funds, "sender": sender})
}

/// Who calls, and the funds that come along.
pub fn write_info(alloc: Global, sender: &str, funds: &Coins) -> Result<Vec<u8>, AllocError>
    ensures { IfOk result (λ text. text.items ≡ info_text sender.now (coins_view funds.now)) }
{
    let value = info_value(alloc, sender, funds)?;
    write_json(alloc, &value)
}

fn outcome_value(alloc: Global, outcome: &ReplyResult) -> Result<Value, AllocError>
    ensures { IfOk result (λ value. view value ≡ outcome_data (outcome_view outcome.now)) }
{
    match outcome {
        ReplyResult::Ok { events, out } => {
            let out = out.value(alloc)?;
            let events = list_value(alloc, events)?;
            json!(in alloc; {"ok": {"data": out, "events": events}})
        }
        ReplyResult::Error(text) => json!(in alloc; {"error": text}),
    }
}

fn reply_value(alloc: Global, reply: &Reply) -> Result<Value, AllocError>
    ensures { IfOk result (λ value. view value ≡ reply_data (reply_view reply.now)) }
{
    let result = outcome_value(alloc, &reply.result)?;
    json!(in alloc; {"id": reply.id, "result": result})
}

/// What a contract hears of its submessage.
pub fn write_reply(alloc: Global, reply: &Reply) -> Result<Vec<u8>, AllocError>
    ensures { IfOk result (λ text. text.items ≡ reply_text (reply_view reply.now)) }
{
    let value = reply_value(alloc, reply)?;
    write_json(alloc, &value)
}

fn system_value(alloc: Global, error: &SystemError) -> Result<Value, AllocError>
    ensures { IfOk result (λ value. view value ≡ system_data (system_view error.now)) }
{
    match error {
        SystemError::InvalidRequest { error, request } => {
            let request = binary_value(alloc, request)?;
            json!(in alloc; {"invalid_request": {"error": error, "request": request}})
        }
        SystemError::UnsupportedRequest { kind } => {
            json!(in alloc; {"unsupported_request": {"kind": kind}})
        }
        SystemError::NoSuchContract { addr } => {
            json!(in alloc; {"no_such_contract": {"addr": addr}})
        }
        SystemError::NoSuchCode { code_id } => {
            json!(in alloc; {"no_such_code": {"code_id": *code_id}})
        }
    }
}

/// What a query answers.
pub fn answer_value(alloc: Global, answer: &Answer) -> Result<Value, AllocError>
    ensures { IfOk result (λ value. view value ≡ answer_data (answer_view answer.now)) }
{
    match answer {
        Answer::Ok(bytes) => {
            let bytes = binary_value(alloc, bytes)?;
            json!(in alloc; {"ok": {"ok": bytes}})
        }
        Answer::ContractError(text) => json!(in alloc; {"ok": {"error": text}}),
        Answer::System(error) => {
            let error = system_value(alloc, error)?;
            json!(in alloc; {"error": error})
        }
    }
}

/// What a contract is answered to its query.
pub fn write_answer(alloc: Global, answer: &Answer) -> Result<Vec<u8>, AllocError>
    ensures { IfOk result (λ text. text.items ≡ answer_text (answer_view answer.now)) }
{
    let value = answer_value(alloc, answer)?;
    write_json(alloc, &value)
}
