//! What queries are answered.

ghost use Rattle.std.specs.Prelude.{◌≡◌, codes, false, map, IfOk};
ghost use Rattle.serde_json.specs.View.{view};
ghost use Rattle.serde_json.specs.Written.{has_float, compact_text};
ghost use Rattle.json_shapes.specs.Values.{list_data, variant_data};
ghost use Rattle.coin_amounts.specs.Coins.{coins_view};
ghost use Rattle.chain_msgs.specs.Plain.{answer_view, answered};
ghost use Rattle.chain_msgs.specs.Texts.{coin_data};
ghost use Rattle.query_router.specs.Queries.{invalid, unsupported, amount_answer, coins_answer};

use chain_msgs::{Answer, SystemError, list_value};
use coin_amounts::Coins;
use json_shapes::write_json;
use serde_json::{Value, json};
use std::alloc::{AllocError, Global};

/// What is answered to a request that can't be answered.
pub(crate) fn invalid(alloc: Global, error: &str, request: &[u8]) -> Result<Answer, AllocError>
    ensures { IfOk result (λ answer. answer_view answer ≡ invalid error.now request.now) }
{
    Ok(Answer::System(SystemError::InvalidRequest {
        error: String::from_str(alloc, error)?,
        request: request.to_vec(alloc)?,
    }))
}

/// What is answered to a request that the chain doesn't know.
pub(crate) fn unsupported(alloc: Global, kind: &str) -> Result<Answer, AllocError>
    ensures { IfOk result (λ answer. answer_view answer ≡ unsupported kind.now) }
{
    Ok(Answer::System(SystemError::UnsupportedRequest {
        kind: String::from_str(alloc, kind)?,
    }))
}

/// The text of a value, as an answer.
pub(crate) fn written(alloc: Global, value: &Value) -> Result<Answer, AllocError>
    ensures { IfOk result (λ answer. has_float (view value.now) ≡ false
        → answer_view answer ≡ answered (compact_text (view value.now))) }
{
    Ok(Answer::Ok(write_json(alloc, value)?))
}

fn amount_value(alloc: Global, denom: &str, amount: u128) -> Result<Value, AllocError>
    ensures { IfOk result (λ value. view value ≡ variant_data (codes "amount")
        (coin_data (record { denom = denom.now; amount = amount }))) }
{
    let amount = amount.to_string(alloc)?;
    json!(in alloc; {"amount": {"amount": amount, "denom": denom}})
}

/// How much there is of a denom.
pub(crate) fn amount_answer(alloc: Global, denom: &str, amount: u128) -> Result<Answer, AllocError>
    ensures { IfOk result (λ answer. answer_view answer ≡ amount_answer denom.now amount) }
{
    let value = amount_value(alloc, denom, amount)?;
    written(alloc, &value)
}

fn coins_value(alloc: Global, coins: &Coins) -> Result<Value, AllocError>
    ensures { IfOk result (λ value. view value ≡ variant_data (codes "amount")
        (list_data (map coin_data (coins_view coins.now)))) }
{
    let coins = list_value(alloc, coins.as_slice())?;
    json!(in alloc; {"amount": coins})
}

/// The coins in their order.
pub(crate) fn coins_answer(alloc: Global, coins: &Coins) -> Result<Answer, AllocError>
    ensures { IfOk result (λ answer. answer_view answer ≡ coins_answer (coins_view coins.now)) }
{
    let value = coins_value(alloc, coins)?;
    written(alloc, &value)
}
