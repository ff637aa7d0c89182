//! What a client is told of a transaction, written as JSON.

ghost use Rattle.std.specs.Prelude.{◌≡◌, codes, IfOk};
ghost use Rattle.serde_json.specs.View.{view};
ghost use Rattle.chain_msgs.specs.Plain.{TxResult as PlainResult, failure_view, result_view};
ghost use Rattle.chain_msgs.specs.Texts.{success_data, failure_data, result_data};

use crate::block::TxResult;
use crate::failure::Failure;
use crate::shown::{Shown, list_value};
use serde_json::{Value, json};
use std::alloc::{AllocError, Global};

impl Shown for TxResult {
    ghost Plain = { PlainResult };

    ghost plain_view = { result_view };

    ghost data_of = { result_data };

    fn value(&self, alloc: Global) -> Result<Value, AllocError> {
        match &self.failure {
            None => success_value(alloc, self),
            Some(failure) => failure_value(alloc, failure, self.gas),
        }
    }
}

fn success_value(alloc: Global, r: &TxResult) -> Result<Value, AllocError>
    ensures { IfOk result (λ value. view value ≡ success_data (result_view r.now)) }
{
    let outs = list_value(alloc, &r.outs)?;
    let events = list_value(alloc, &r.events)?;
    json!(in alloc; {
        "code": 0u32, "codespace": "", "data": outs, "detail": "", "events": events, "gas": r.gas
    })
}

fn failure_value(alloc: Global, failure: &Failure, gas: u64) -> Result<Value, AllocError>
    ensures { IfOk result (λ value. view value ≡ failure_data (failure_view failure.now) gas) }
{
    json!(in alloc; {
        "code": failure.code, "codespace": &failure.codespace, "data": [],
        "detail": &failure.detail, "events": [], "gas": gas
    })
}
