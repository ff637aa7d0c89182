//! What is looked at before a contract is made or called.

ghost use Rattle.std.specs.Prelude.{◌≡◌, None, IfOk, OnOk, IfErr, map};
ghost use Rattle.std.specs.FinMap.{get};
ghost use Rattle.std.specs.List.{list_any};
ghost use Rattle.std.specs.Option.{option_map};
ghost use Rattle.std.specs.Str.{bytes_eq};
ghost use Rattle.chain_records.specs.Records.{bytes_view, list_view, plain_contract};
ghost use Rattle.chain_records.specs.Spelled.{OfEach, HasTyped};
ghost use Rattle.contract_admin.specs.Administration.{label_fits, is_allowed, make_refusal};
ghost use Rattle.contract_admin.specs.Refusals.{IsStop};

use crate::stop::AdminStop;
use chain_records::{CodeInfo, Contract};
use kv_layers::Base;
use state_records::{code_info, contract};
use std::alloc::{AllocError, Global};

/// The longest label, in bytes.
const LONGEST_LABEL: usize = 128;

/// Whether a contract may have this label: one of 1 to 128 bytes.
pub fn is_label(label: &str) -> bool
    ensures { result ≡ label_fits label.now }
{
    !label.is_empty() && label.len() <= LONGEST_LABEL
}

/// The contract with this address, if there is one.
pub fn find<B: Base>(alloc: Global, view: &B, addr: &[u8]) -> Result<Option<Contract>, AllocError>
    requires { HasTyped (B.stands_for view.now) }
    ensures { IfOk result (λ found. OfEach (B.stands_for view.now)
        (λ s. option_map plain_contract found ≡ get s.contracts addr.now)) }
{
    contract(alloc, view, addr)
}

/// That the sender may instantiate a code: whoever its list names, or everybody where it has none.
pub fn may_make<B: Base>(
    alloc: Global,
    view: &B,
    sender: &[u8],
    code_id: u64,
) -> Result<(), AdminStop>
    requires { HasTyped (B.stands_for view.now) }
    ensures ok { OnOk result (OfEach (B.stands_for view.now)
        (λ s. make_refusal s sender.now code_id ≡ None)) }
    ensures stop { IfErr result (λ stop. OfEach (B.stands_for view.now)
        (λ s. IsStop stop (make_refusal s sender.now code_id))) }
{
    let Some(info) = code_info(alloc, view, code_id)? else {
        return Err(AdminStop::NoSuchCode(code_id));
    };
    if !is_allowed(&info, sender) {
        return Err(AdminStop::MayNotInstantiate);
    }
    Ok(())
}

/// Whether the sender may instantiate the code of which this is known.
fn is_allowed(info: &CodeInfo, sender: &[u8]) -> bool
    ensures { result ≡ is_allowed (option_map list_view info.now.allow) sender.now }
{
    match &info.allow {
        Some(addresses) => is_among(addresses, sender),
        None => true,
    }
}

fn is_among(addresses: &[Vec<u8>], sender: &[u8]) -> bool
    ensures { result ≡ list_any (bytes_eq sender.now) (map bytes_view addresses.now) }
{
    any_same(addresses, sender)
}

fn any_same(addresses: &[Vec<u8>], sender: &[u8]) -> bool
    ensures { result ≡ list_any (λ address. bytes_eq sender.now (bytes_view address)) addresses.now }
{
    addresses.iter().any(|address| is_same(sender, address))
}

fn is_same(sender: &[u8], address: &Vec<u8>) -> bool
    ensures { result ≡ bytes_eq sender.now (bytes_view address.now) }
{
    sender == address.as_slice()
}
