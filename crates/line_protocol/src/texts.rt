ghost use Rattle.std.specs.Prelude.{◌≡◌, ◌++◌, false, map, IfOk};
ghost use Rattle.serde_json.specs.Data.{Data, string};
ghost use Rattle.serde_json.specs.View.{view};
ghost use Rattle.serde_json.specs.Written.{has_float, compact_text};
ghost use Rattle.hex.specs.Hex.{encode_lower};
ghost use Rattle.sha2.specs.Sha256.{sha256};
ghost use Rattle.chain_msgs.specs.Plain.{result_view, genesis_view};
ghost use Rattle.line_protocol.specs.Plain.{query_result_view, reply_view};
ghost use Rattle.line_protocol.specs.Texts.{line_text, genesis_data, body_data, next_digest, digested, block_data, query_result_data, query_data, kind_text, check_data, bad_data};

use crate::kind::BadKind;
use crate::reply::{QueryReply, QueryResult};
use chain_msgs::{Genesis, TxResult, answer_value, list_value};
use json_shapes::write_json;
use serde_json::{Value, json};
use sha2::{Digest, Sha256};
use std::alloc::{AllocError, Global};

/// How many bytes a block's line has besides its body's text.
const AROUND_BODY: usize = 96;

/// The compact text of a value and a line feed.
fn write_line(alloc: Global, value: &Value) -> Result<Vec<u8>, AllocError>
    requires { has_float (view value.now) ≡ false }
    ensures { IfOk result (λ text. text.items ≡ line_text (view value.now)) }
{
    let mut text = write_json(alloc, value)?;
    text.push(b'\n')?;
    Ok(text)
}

/// The line that answers a genesis.
pub fn genesis_text(alloc: Global, g: &Genesis) -> Result<Vec<u8>, AllocError>
    ensures { IfOk result (λ text. text.items ≡ line_text (genesis_data (genesis_view g.now))) }
{
    let line = genesis_value(alloc, g)?;
    write_line(alloc, &line)
}

fn genesis_value(alloc: Global, g: &Genesis) -> Result<Value, AllocError>
    ensures { IfOk result (λ value. view value ≡ genesis_data (genesis_view g.now)) }
{
    let chain_id = g.chain_id.as_str();
    json!(in alloc; {"genesis": {"chain_id": chain_id, "height": 0u64}})
}

/// The line that answers a code: `Ok`, or why the gate doesn't take it.
pub fn check_text(alloc: Global, answer: &str) -> Result<Vec<u8>, AllocError>
    ensures { IfOk result (λ text. text.items ≡ line_text (check_data answer.now)) }
{
    let line = check_value(alloc, answer)?;
    write_line(alloc, &line)
}

fn check_value(alloc: Global, answer: &str) -> Result<Value, AllocError>
    ensures { IfOk result (λ value. view value ≡ check_data answer.now) }
{
    json!(in alloc; {"check": answer})
}

/// The line that answers a bad line.
pub fn bad_text(alloc: Global, kind: &BadKind, line: u64) -> Result<Vec<u8>, AllocError>
    ensures { IfOk result (λ text. text.items ≡ line_text (bad_data kind.now line)) }
{
    let line = bad_value(alloc, *kind, line)?;
    write_line(alloc, &line)
}

fn bad_value(alloc: Global, kind: BadKind, line: u64) -> Result<Value, AllocError>
    ensures { IfOk result (λ value. view value ≡ bad_data kind line) }
{
    let kind = kind_text(kind);
    json!(in alloc; {"bad_line": {"kind": kind, "line": line}})
}

fn kind_text(kind: BadKind) -> &'static str
    ensures { result.now ≡ kind_text kind }
{
    match kind {
        BadKind::Total => "total",
        BadKind::Long => "long",
        BadKind::Json => "json",
        BadKind::Number => "number",
        BadKind::Shape => "shape",
        BadKind::Order => "order",
        BadKind::Address => "address",
        BadKind::Coins => "coins",
        BadKind::Supply => "supply",
        BadKind::Missing => "missing",
        BadKind::Base64 => "base64",
    }
}

/// The body of a block's line, which its digest covers.
fn body_value(alloc: Global, height: u64, results: &[TxResult]) -> Result<Value, AllocError>
    ensures { IfOk result (λ value. view value ≡ body_data height (map result_view results.now)) }
{
    let results = list_value(alloc, results)?;
    json!(in alloc; {"height": height, "results": results})
}

/// The line of a block whose body has this text.
fn digested_text(alloc: Global, body: &[u8], digest: &[u8; 32]) -> Result<Vec<u8>, AllocError>
    ensures { IfOk result (λ line. (d : Data) → body.now ≡ compact_text d
        → line.items ≡ line_text (digested d digest.now)) }
{
    let digest = write_digest(alloc, digest)?;
    let mut line = Vec::with_capacity(alloc, body.len() + AROUND_BODY)?;
    line.extend_from_slice(b"{\"block\":{\"body\":")?;
    line.extend_from_slice(body)?;
    line.extend_from_slice(b",\"digest\":")?;
    line.extend_from_slice(&digest)?;
    line.extend_from_slice(b"}}\n")?;
    Ok(line)
}

/// The JSON text of a digest.
fn write_digest(alloc: Global, digest: &[u8; 32]) -> Result<Vec<u8>, AllocError>
    ensures { IfOk result (λ text. text.items
        ≡ compact_text (string (encode_lower digest.now))) }
{
    let digest = Value::String(hex::encode(alloc, digest)?);
    write_json(alloc, &digest)
}

/// The digest of a digest and a text.
fn chained_digest(last: &[u8; 32], text: &[u8]) -> [u8; 32]
    ensures { result ≡ sha256 (last.now ++ text.now) }
{
    let mut hasher = Sha256::new();
    hasher.update(last);
    hasher.update(text);
    hasher.finalize()
}

/// The line that answers a block, and the digest in it, which the next block's covers.
pub fn block_text(
    alloc: Global,
    height: u64,
    results: &[TxResult],
    last: &[u8; 32],
) -> Result<(Vec<u8>, [u8; 32]), AllocError>
    ensures text { IfOk result (λ answer. answer.0.items
        ≡ line_text (block_data height (map result_view results.now) answer.1)) }
    ensures digest { IfOk result (λ answer. answer.1
        ≡ next_digest last.now height (map result_view results.now)) }
{
    let body = body_value(alloc, height, results)?;
    let text = write_json(alloc, &body)?;
    let digest = chained_digest(last, &text);
    Ok((digested_text(alloc, &text, &digest)?, digest))
}

fn query_result_value(alloc: Global, found: &QueryResult) -> Result<Value, AllocError>
    ensures { IfOk result (λ value. view value
        ≡ query_result_data (query_result_view found.now)) }
{
    match found {
        QueryResult::Answer(answer) => answer_value(alloc, answer),
        QueryResult::OutOfGas => json!(in alloc; "out_of_gas"),
        QueryResult::NotYet { newest } => json!(in alloc; {"not_yet": {"newest": *newest}}),
        QueryResult::Pruned { oldest, newest } => {
            json!(in alloc; {"pruned": {"newest": *newest, "oldest": *oldest}})
        }
    }
}

fn query_value(alloc: Global, reply: &QueryReply) -> Result<Value, AllocError>
    ensures { IfOk result (λ value. view value ≡ query_data (reply_view reply.now)) }
{
    let result = query_result_value(alloc, &reply.result)?;
    json!(in alloc; {"query": {
        "client": reply.client, "gas": reply.gas, "height": reply.height, "n": reply.n,
        "result": result
    }})
}

/// The line that answers a query.
pub fn query_text(alloc: Global, reply: &QueryReply) -> Result<Vec<u8>, AllocError>
    ensures { IfOk result (λ text. text.items ≡ line_text (query_data (reply_view reply.now))) }
{
    let line = query_value(alloc, reply)?;
    write_line(alloc, &line)
}
