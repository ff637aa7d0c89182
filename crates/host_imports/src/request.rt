//! What a contract asks of the host: the imports by their names, with their arguments.

ghost use Rattle.std.specs.Prelude.{◌≡◌};
ghost use Rattle.wasm_types.specs.Plain.{plain_module};
ghost use Rattle.host_imports.specs.Requests.{with_one, with_two, with_three, request_named, request_of, asked};

use wasm_types::{Module, Value};

/// What the call of an import asks. Each number is a pointer to a Region, but `order` and `scan`.
#[derive(Clone, Copy, Debug, PartialEq, Eq)]
pub enum Request {
    DbRead { key: u32 },
    DbWrite { key: u32, value: u32 },
    DbRemove { key: u32 },
    /// A bound of 0 is none.
    DbScan { lo: u32, hi: u32, order: u32 },
    DbNext { scan: u32 },
    AddrValidate { text: u32 },
    AddrCanonicalize { text: u32, target: u32 },
    AddrHumanize { bytes: u32, target: u32 },
    Debug { text: u32 },
    QueryChain { request: u32 },
    Abort { text: u32 },
    /// Any import on signatures.
    Signature,
}

fn with_one(name: &str, a: u32) -> Option<Request>
    ensures { result ≡ request_named name.now (with_one a) }
{
    match name {
        "db_read" => Some(Request::DbRead { key: a }),
        "db_remove" => Some(Request::DbRemove { key: a }),
        "db_next" => Some(Request::DbNext { scan: a }),
        "addr_validate" => Some(Request::AddrValidate { text: a }),
        "debug" => Some(Request::Debug { text: a }),
        "query_chain" => Some(Request::QueryChain { request: a }),
        "abort" => Some(Request::Abort { text: a }),
        _ => None,
    }
}

fn with_two(name: &str, a: u32, b: u32) -> Option<Request>
    ensures { result ≡ request_named name.now (with_two a b) }
{
    match name {
        "db_write" => Some(Request::DbWrite { key: a, value: b }),
        "addr_canonicalize" => Some(Request::AddrCanonicalize { text: a, target: b }),
        "addr_humanize" => Some(Request::AddrHumanize {
            bytes: a,
            target: b,
        }),
        _ => None,
    }
}

fn with_three(name: &str, a: u32, b: u32, c: u32) -> Option<Request>
    ensures { result ≡ request_named name.now (with_three a b c) }
{
    match name {
        "db_scan" => Some(Request::DbScan {
            lo: a,
            hi: b,
            order: c,
        }),
        "secp256k1_verify"
        | "ed25519_verify"
        | "ed25519_batch_verify"
        | "secp256k1_recover_pubkey" => Some(Request::Signature),
        _ => None,
    }
}

/// What the import of this name is asked.
fn request_of(name: &str, args: &[Value]) -> Option<Request>
    ensures { result ≡ request_of name.now args.now }
{
    match args {
        [Value::I32(a)] => with_one(name, *a),
        [Value::I32(a), Value::I32(b)] => with_two(name, *a, *b),
        [Value::I32(a), Value::I32(b), Value::I32(c)] => with_three(name, *a, *b, *c),
        _ => None,
    }
}

/// What the import with this number is asked.
pub(crate) fn asked(m: &Module, import: u32, args: &[Value]) -> Option<Request>
    ensures { result ≡ asked (plain_module m.now) import args.now }
{
    match m.imports.get(import as usize) {
        Some(import) => request_of(&import.name, args),
        None => None,
    }
}
