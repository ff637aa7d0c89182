ghost use Rattle.std.specs.Prelude.{◌≡◌, option_map};
ghost use Rattle.wasm_types.specs.Interface.{host_functions, entry_points, type_named};
ghost use Rattle.gatekeeper.specs.Signatures.{plain_signature};

use crate::signature::Signature;
use wasm_types::ValType;

/// The type of the function that a contract may import under this name.
pub fn host_function(name: &str) -> Option<Signature>
    ensures { option_map plain_signature result ≡ type_named host_functions name.now }
{
    let (params, result) = match name {
        "db_read" | "db_next" | "addr_validate" | "query_chain" => (1, Some(ValType::I32)),
        "db_write" => (2, None),
        "db_remove" | "debug" | "abort" => (1, None),
        "addr_canonicalize" | "addr_humanize" => (2, Some(ValType::I32)),
        "db_scan" | "secp256k1_verify" | "ed25519_verify" | "ed25519_batch_verify" => {
            (3, Some(ValType::I32))
        }
        "secp256k1_recover_pubkey" => (3, Some(ValType::I64)),
        _ => return None,
    };
    Some(Signature { params, result })
}

/// The type of the function that a contract may export under this name for the host to call.
pub fn entry_point(name: &str) -> Option<Signature>
    ensures { option_map plain_signature result ≡ type_named entry_points name.now }
{
    let (params, result) = match name {
        "interface_version_8" => (0, None),
        "allocate" => (1, Some(ValType::I32)),
        "deallocate" => (1, None),
        "instantiate" | "execute" => (3, Some(ValType::I32)),
        "migrate" | "sudo" | "reply" | "query" => (2, Some(ValType::I32)),
        _ => return None,
    };
    Some(Signature { params, result })
}
