//! What a contract's admin changes.

ghost use Rattle.std.specs.Prelude.{◌≡◌, Some, None, OnOk, IfErr, IfOk, IfSome};
ghost use Rattle.std.specs.FinMap.{get};
ghost use Rattle.std.specs.Option.{option_map, option_copied};
ghost use Rattle.chain_records.specs.Keys.{IsAddress};
ghost use Rattle.chain_records.specs.Records.{bytes_view, plain_contract};
ghost use Rattle.chain_records.specs.Spelled.{OfEach, HasTyped};
ghost use Rattle.chain_records.specs.State.{Spells};
ghost use Rattle.kv_layers.specs.Layers.{depth, HasCurrent};
ghost use Rattle.kv_layers.specs.Spelling.{Becomes};
ghost use Rattle.contract_admin.specs.Administration.{is_admin, change_refusal, migrate_refusal};
ghost use Rattle.contract_admin.specs.Effects.{IsAdminSet, IsCodeSet};
ghost use Rattle.contract_admin.specs.Lawful.{HasLawful, HasLawfulContracts};
ghost use Rattle.contract_admin.specs.Refusals.{IsStop, Leaves, UnlessNoMemory};

use crate::known::need_code;
use crate::stop::AdminStop;
use chain_records::Contract;
use kv_layers::{Base, Layers};
use state_records::{contract, set_contract};
use std::alloc::{AllocError, Global};

/// Gives a contract another admin, or none, for the one that it has.
pub fn set_admin<B: Base>(
    alloc: Global,
    layers: &mut Layers<B>,
    sender: &[u8],
    addr: &[u8],
    admin: Option<&[u8]>,
) -> Result<(), AdminStop>
    requires admin { IfSome (option_copied admin) IsAddress }
    requires lawful { HasLawful (HasCurrent B.stands_for layers.old) }
    ensures changed { OnOk result (Becomes Spells HasLawfulContracts B.stands_for layers.old layers.new
        (λ s t. IsAdminSet s sender.now addr.now (option_copied admin.entry) t)) }
    ensures stop { IfErr result (λ stop. OfEach (HasCurrent B.stands_for layers.old)
        (λ s. IsStop stop (change_refusal s sender.now addr.now))) }
    ensures lawful { OnOk result (HasLawful (HasCurrent B.stands_for layers.new)) }
    ensures still_lawful { IfErr result (λ stop. UnlessNoMemory stop
        (HasLawful (HasCurrent B.stands_for layers.new))) }
    ensures unchanged { IfErr result (Leaves B.stands_for layers.old layers.new) }
    ensures depth { depth layers.new ≡ depth layers.old }
{
    let found = may_change(alloc, &*layers, sender, addr)?;
    let admin = copied(alloc, admin)?;
    let changed = Contract { admin, ..found };
    set_contract(alloc, layers, addr, changed)?;
    Ok(())
}

/// Gives a contract another code, for its admin.
pub fn set_code<B: Base>(
    alloc: Global,
    layers: &mut Layers<B>,
    sender: &[u8],
    addr: &[u8],
    code_id: u64,
) -> Result<(), AdminStop>
    requires { HasLawful (HasCurrent B.stands_for layers.old) }
    ensures changed { OnOk result (Becomes Spells HasLawfulContracts B.stands_for layers.old layers.new
        (λ s t. IsCodeSet s sender.now addr.now code_id t)) }
    ensures stop { IfErr result (λ stop. OfEach (HasCurrent B.stands_for layers.old)
        (λ s. IsStop stop (migrate_refusal s sender.now addr.now code_id))) }
    ensures lawful { OnOk result (HasLawful (HasCurrent B.stands_for layers.new)) }
    ensures still_lawful { IfErr result (λ stop. UnlessNoMemory stop
        (HasLawful (HasCurrent B.stands_for layers.new))) }
    ensures unchanged { IfErr result (Leaves B.stands_for layers.old layers.new) }
    ensures depth { depth layers.new ≡ depth layers.old }
{
    let current = may_change(alloc, &*layers, sender, addr)?;
    need_code(alloc, &*layers, code_id)?;
    let changed = Contract { code_id, ..current };
    set_contract(alloc, layers, addr, changed)?;
    Ok(())
}

/// The contract with this address, where the sender is its admin and may change it.
pub fn may_change<B: Base>(
    alloc: Global,
    view: &B,
    sender: &[u8],
    addr: &[u8],
) -> Result<Contract, AdminStop>
    requires { HasTyped (B.stands_for view.now) }
    ensures found { IfOk result (λ found. OfEach (B.stands_for view.now)
        (λ s. Some (plain_contract found) ≡ get s.contracts addr.now)) }
    ensures ok { OnOk result (OfEach (B.stands_for view.now)
        (λ s. change_refusal s sender.now addr.now ≡ None)) }
    ensures stop { IfErr result (λ stop. OfEach (B.stands_for view.now)
        (λ s. IsStop stop (change_refusal s sender.now addr.now))) }
{
    let Some(found) = contract(alloc, view, addr)? else {
        return Err(AdminStop::NoSuchContract);
    };
    if !is_admin(&found, sender) {
        return Err(AdminStop::NotAdmin);
    }
    Ok(found)
}

fn is_admin(contract: &Contract, sender: &[u8]) -> bool
    ensures { result ≡ is_admin (option_map bytes_view contract.now.admin) sender.now }
{
    match &contract.admin {
        Some(admin) => admin.as_slice() == sender,
        None => false,
    }
}

/// A copy of the bytes, if there are any.
fn copied(alloc: Global, bytes: Option<&[u8]>) -> Result<Option<Vec<u8>>, AllocError>
    ensures { IfOk result (λ copy. option_map bytes_view copy ≡ option_copied bytes.entry) }
{
    match bytes {
        Some(bytes) => Ok(Some(bytes.to_vec(alloc)?)),
        None => Ok(None),
    }
}
