//! Contracts that are made.

ghost use Rattle.std.specs.Prelude.{◌≡◌, None, OnOk, IfOk, IfErr, IfSome};
ghost use Rattle.std.specs.Option.{option_map};
ghost use Rattle.chain_records.specs.Keys.{IsAddress};
ghost use Rattle.chain_records.specs.Records.{bytes_view, plain_contract};
ghost use Rattle.chain_records.specs.Spelled.{OfEach, HasTyped};
ghost use Rattle.chain_records.specs.State.{Spells};
ghost use Rattle.kv_layers.specs.Layers.{depth, HasCurrent};
ghost use Rattle.kv_layers.specs.Spelling.{Becomes};
ghost use Rattle.contract_admin.specs.Administration.{create_refusal};
ghost use Rattle.contract_admin.specs.Effects.{IsCreated, IsInstanceTaken};
ghost use Rattle.contract_admin.specs.Lawful.{HasLawful, HasLawfulContracts};
ghost use Rattle.contract_admin.specs.Refusals.{IsStop, Leaves, UnlessNoMemory};

use crate::instantiation::is_label;
use crate::known::{need_code, need_free};
use crate::stop::AdminStop;
use chain_records::{Contract, Counters};
use kv_layers::{Base, Layers, owned_value};
use state_records::{counters, set_contract, set_counters};
use std::alloc::{AllocError, Global};

/// Writes the record of a contract that has none yet. Who may instantiate its code isn't looked at here.
pub fn create<B: Base>(
    alloc: Global,
    layers: &mut Layers<B>,
    addr: &[u8],
    contract: &Contract,
) -> Result<(), AdminStop>
    requires address { IsAddress addr.now }
    requires creator { IsAddress contract.now.creator.items }
    requires admin { IfSome (option_map bytes_view contract.now.admin) IsAddress }
    requires lawful { HasLawful (HasCurrent B.stands_for layers.old) }
    ensures created { OnOk result (Becomes Spells HasLawfulContracts B.stands_for layers.old layers.new
        (λ s t. IsCreated s addr.now (plain_contract contract.now) t)) }
    ensures stop { IfErr result (λ stop. OfEach (HasCurrent B.stands_for layers.old)
        (λ s. IsStop stop (create_refusal s addr.now (plain_contract contract.now)))) }
    ensures lawful { OnOk result (HasLawful (HasCurrent B.stands_for layers.new)) }
    ensures still_lawful { IfErr result (λ stop. UnlessNoMemory stop
        (HasLawful (HasCurrent B.stands_for layers.new))) }
    ensures unchanged { IfErr result (Leaves B.stands_for layers.old layers.new) }
    ensures depth { depth layers.new ≡ depth layers.old }
{
    may_create(alloc, &*layers, addr, contract)?;
    let copy = copy_of(alloc, contract)?;
    set_contract(alloc, layers, addr, copy)?;
    Ok(())
}

/// The number of the next instance, which is given with this. After 2^64 - 1 comes 0.
pub fn take_instance<B: Base>(alloc: Global, layers: &mut Layers<B>) -> Result<u64, AllocError>
    requires { HasLawful (HasCurrent B.stands_for layers.old) }
    ensures taken { IfOk result (λ id. Becomes Spells HasLawfulContracts B.stands_for layers.old layers.new
        (λ s t. IsInstanceTaken s id t)) }
    ensures lawful { OnOk result (HasLawful (HasCurrent B.stands_for layers.new)) }
    ensures depth { depth layers.new ≡ depth layers.old }
{
    let given = counters(alloc, &*layers)?;
    let next = Counters {
        next_instance: given.next_instance.wrapping_add(1),
        ..given
    };
    set_counters(alloc, layers, next)?;
    Ok(given.next_instance)
}

/// That nothing speaks against a contract with this address.
fn may_create<B: Base>(
    alloc: Global,
    view: &B,
    addr: &[u8],
    contract: &Contract,
) -> Result<(), AdminStop>
    requires { HasTyped (B.stands_for view.now) }
    ensures ok { OnOk result (OfEach (B.stands_for view.now)
        (λ s. create_refusal s addr.now (plain_contract contract.now) ≡ None)) }
    ensures stop { IfErr result (λ stop. OfEach (B.stands_for view.now)
        (λ s. IsStop stop (create_refusal s addr.now (plain_contract contract.now)))) }
{
    if !is_label(contract.label.as_str()) {
        return Err(AdminStop::LabelBad);
    }
    need_code(alloc, view, contract.code_id)?;
    need_free(alloc, view, addr)?;
    Ok(())
}

/// A contract of which the same is known.
fn copy_of(alloc: Global, contract: &Contract) -> Result<Contract, AllocError>
    ensures { IfOk result (λ copy. plain_contract copy ≡ plain_contract contract.now) }
{
    let creator = contract.creator.to_vec(alloc)?;
    let admin = owned_value(contract.admin.as_ref())?;
    let label = contract.label.clone()?;
    Ok(Contract {
        code_id: contract.code_id,
        creator,
        admin,
        label,
    })
}
