//! What is known of single codes.

ghost use Rattle.std.specs.Prelude.{◌≡◌, IfOk, option_map};
ghost use Rattle.std.specs.Option.{is_some};
ghost use Rattle.std.specs.FinMap.{get};
ghost use Rattle.gatekeeper.specs.CodeBytes.{code_bytes};
ghost use Rattle.chain_records.specs.Records.{plain_code_info};
ghost use Rattle.chain_records.specs.Spelled.{OfEach, HasTyped};
ghost use Rattle.state_records.specs.Records.{info_at};
ghost use Rattle.code_registry.specs.Codes.{bytes_at};
ghost use Rattle.code_registry.specs.Lawful.{HasLawful};

use chain_records::{CodeInfo, Key, key_bytes, maps_give_records};
use gatekeeper::{ValidCode, taken_is_accepted};
use kv_layers::Base;
use state_records::{code_info, is_there};
use std::alloc::{AllocError, Global};

/// The code with this id, if there is one. Its bytes are read once and not looked through again.
pub fn code<B: Base>(alloc: Global, view: &B, id: u64) -> Result<Option<ValidCode>, AllocError>
    requires { HasLawful (B.stands_for view.now) }
    ensures { IfOk result (λ found. OfEach (B.stands_for view.now)
        (λ s. option_map code_bytes found ≡ bytes_at s id)) }
{
    maps_give_records();
    taken_is_accepted();
    let place = key_bytes(alloc, &Key::Code(id))?;
    match view.get(alloc, &place)? {
        Some(bytes) => Ok(Some(ValidCode::of_checked(bytes)?)),
        None => Ok(None),
    }
}

/// Who stored the code with this id, its checksum, and who may instantiate it; if there is such a code.
pub fn info<B: Base>(alloc: Global, view: &B, id: u64) -> Result<Option<CodeInfo>, AllocError>
    requires { HasTyped (B.stands_for view.now) }
    ensures { IfOk result (λ found. OfEach (B.stands_for view.now)
        (λ s. option_map plain_code_info found ≡ info_at s id)) }
{
    code_info(alloc, view, id)
}

/// Whether this id is pinned.
pub fn is_pinned<B: Base>(alloc: Global, view: &B, id: u64) -> Result<bool, AllocError>
    requires { HasTyped (B.stands_for view.now) }
    ensures { IfOk result (λ there. OfEach (B.stands_for view.now)
        (λ s. there ≡ is_some (get s.pins id))) }
{
    is_there(alloc, view, &Key::Pin(id))
}
