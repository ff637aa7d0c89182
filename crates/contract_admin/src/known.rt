//! Which codes and contracts there are.

ghost use Rattle.std.specs.Prelude.{◌≡◌, None, OnOk, IfOk, IfErr};
ghost use Rattle.std.specs.Option.{is_some};
ghost use Rattle.std.specs.FinMap.{get};
ghost use Rattle.chain_records.specs.Spelled.{OfEach, HasTyped};
ghost use Rattle.contract_admin.specs.Administration.{code_refusal, taken_refusal};
ghost use Rattle.contract_admin.specs.Refusals.{IsStop};

use crate::stop::AdminStop;
use chain_records::Key;
use kv_layers::Base;
use state_records::is_there;
use std::alloc::{AllocError, Global};

/// That there is a code with this id.
pub(crate) fn need_code<B: Base>(alloc: Global, view: &B, code_id: u64) -> Result<(), AdminStop>
    requires { HasTyped (B.stands_for view.now) }
    ensures ok { OnOk result (OfEach (B.stands_for view.now)
        (λ s. code_refusal s code_id ≡ None)) }
    ensures stop { IfErr result (λ stop. OfEach (B.stands_for view.now)
        (λ s. IsStop stop (code_refusal s code_id))) }
{
    if has_code(alloc, view, code_id)? {
        Ok(())
    } else {
        Err(AdminStop::NoSuchCode(code_id))
    }
}

/// That there is no contract with this address.
pub(crate) fn need_free<B: Base>(alloc: Global, view: &B, addr: &[u8]) -> Result<(), AdminStop>
    requires { HasTyped (B.stands_for view.now) }
    ensures ok { OnOk result (OfEach (B.stands_for view.now)
        (λ s. taken_refusal s addr.now ≡ None)) }
    ensures stop { IfErr result (λ stop. OfEach (B.stands_for view.now)
        (λ s. IsStop stop (taken_refusal s addr.now))) }
{
    if is_taken(alloc, view, addr)? {
        Err(AdminStop::AddressTaken)
    } else {
        Ok(())
    }
}

fn has_code<B: Base>(alloc: Global, view: &B, code_id: u64) -> Result<bool, AllocError>
    requires { HasTyped (B.stands_for view.now) }
    ensures { IfOk result (λ there. OfEach (B.stands_for view.now)
        (λ s. there ≡ is_some (get s.codes code_id))) }
{
    is_there(alloc, view, &Key::CodeInfo(code_id))
}

fn is_taken<B: Base>(alloc: Global, view: &B, addr: &[u8]) -> Result<bool, AllocError>
    requires { HasTyped (B.stands_for view.now) }
    ensures { IfOk result (λ there. OfEach (B.stands_for view.now)
        (λ s. there ≡ is_some (get s.contracts addr.now))) }
{
    let copy = addr.to_vec(alloc)?;
    is_there(alloc, view, &Key::Contract(copy))
}
