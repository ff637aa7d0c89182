//! What is answered of codes.

ghost use Rattle.std.specs.Prelude.{◌≡◌, ℕ, List, IfOk};
ghost use Rattle.serde_json.specs.View.{view};
ghost use Rattle.chain_addr.specs.Letters.{IsPrefix};
ghost use Rattle.chain_msgs.specs.Plain.{answer_view};
ghost use Rattle.chain_records.specs.Records.{plain_code_info};
ghost use Rattle.query_router.specs.Lawful.{HasLawful, OfEachLawful};
ghost use Rattle.query_router.specs.Parts.{IsFree};
ghost use Rattle.query_router.specs.Queries.{Smart, code_data, code_answer, answer_to};
ghost use Rattle.query_router.specs.Requests as requests;

use crate::answers::written;
use crate::records::prefix_of;
use chain_addr::encode;
use chain_msgs::{Answer, SystemError};
use chain_records::CodeInfo;
use code_registry::info;
use gas_meter::Schedule;
use kv_layers::Base;
use serde_json::{Value, json};
use std::alloc::{AllocError, Global};

fn code_value(alloc: Global, prefix: &str, id: u64, known: &CodeInfo) -> Result<Value, AllocError>
    requires { IsPrefix prefix.now }
    ensures { IfOk result (λ value. view value
        ≡ code_data prefix.now id (plain_code_info known.now)) }
{
    let checksum = hex::encode(alloc, &known.checksum)?;
    let creator = encode(alloc, prefix, &known.creator)?;
    json!(in alloc; {"checksum": checksum, "code_id": id, "creator": creator})
}

fn code_answer(alloc: Global, prefix: &str, id: u64, known: &CodeInfo) -> Result<Answer, AllocError>
    requires { IsPrefix prefix.now }
    ensures { IfOk result (λ answer. answer_view answer
        ≡ code_answer prefix.now id (plain_code_info known.now)) }
{
    let value = code_value(alloc, prefix, id, known)?;
    written(alloc, &value)
}

/// What is known of the code with this id.
pub(crate) fn code_info_answer<B: Base>(
    alloc: Global,
    view: &B,
    id: u64,
) -> Result<Answer, AllocError>
    requires { HasLawful (B.stands_for view.now) }
    ensures { IfOk result (λ answer. OfEachLawful (B.stands_for view.now) (λ s.
        (of_contract : Smart) (costs : Schedule) (request : List ℕ) →
        IsFree answer (answer_to of_contract costs s request (requests.code_info id)))) }
{
    match info(alloc, view, id)? {
        Some(known) => {
            let prefix = prefix_of(alloc, view)?;
            code_answer(alloc, &prefix, id, &known)
        }
        None => Ok(Answer::System(SystemError::NoSuchCode { code_id: id })),
    }
}
