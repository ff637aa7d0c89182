//! Messages that migrate contracts to other codes.

ghost use Rattle.std.specs.Prelude.{◌≡◌, ◌+◌, ℕ, Option, IfOk};
ghost use Rattle.chain_records.specs.Keys.{IsAddress};
ghost use Rattle.kv_layers.specs.Layers as stacks;
ghost use Rattle.kv_layers.specs.Layers.{HasCurrent};
ghost use Rattle.gas_meter.specs.Ranges.{IsInRange};
ghost use Rattle.gatekeeper.specs.Cache.{Tally};
ghost use Rattle.query_router.specs.Lawful.{HasLawfulUnder};
ghost use Rattle.contract_admin.specs.Administration.{migrate_refusal};
ghost use Rattle.submsg_dispatch.specs.Calling.{migrates, refused_if};
ghost use Rattle.submsg_dispatch.specs.Stages.{IsCallee, IsCalled, called_view, nothing_view, migrate_told, migrate_written};
ghost use Rattle.submsg_dispatch.specs.Under.{LeadsOn};

use crate::admins::contract_stop;
use crate::called::{Called, Callee};
use crate::calls::tell_call;
use crate::events::one;
use crate::failures::{no_such_code, stop_of};
use crate::reading::address_in;
use crate::stop::HandleStop;
use call_outcomes::code_event;
use chain_addr::encode;
use code_registry::info;
use contract_admin::{may_change, set_code};
use contract_call::Entry;
use gas_meter::{Meter, Schedule};
use gatekeeper::{Modules, fetches_join};
use kv_layers::{Base, Layers};
use std::alloc::Global;

/// That the sender may give a contract the code with this id.
fn may_migrate<B: Base>(
    alloc: Global,
    layers: &Layers<B>,
    prefix: &str,
    sender: &[u8],
    addr: &[u8],
    code_id: u64,
) -> Result<(), HandleStop>
    requires lawful { HasLawfulUnder prefix.now (HasCurrent B.stands_for layers.now) }
    ensures { (tally : Option Tally) (left : ℕ) → LeadsOn prefix.now B.stands_for
        layers.now layers.now tally tally left left
        (refused_if prefix.now addr.now (λ s. migrate_refusal s sender.now addr.now code_id)) nothing_view result }
{
    if let Err(stop) = may_change(alloc, layers, sender, addr) {
        return Err(contract_stop(alloc, prefix, addr, stop));
    }
    match info(alloc, layers, code_id)? {
        Some(_) => Ok(()),
        None => Err(stop_of(no_such_code(alloc, code_id))),
    }
}

/// Migrates the contract that a text names to the code with an id.
pub(crate) fn migrate<B: Base, M: Modules>(
    alloc: Global,
    layers: &mut Layers<B>,
    modules: &mut M,
    prefix: &str,
    sender: &[u8],
    contract: &str,
    code_id: u64,
    msg: &[u8],
    index: u32,
    meter: &mut Meter,
    costs: &Schedule,
) -> Result<Called, HandleStop>
    requires sender { IsAddress sender.now }
    requires costs { IsInRange costs.now }
    requires lawful { HasLawfulUnder prefix.now (HasCurrent B.stands_for layers.old) }
    ensures leads { LeadsOn prefix.now B.stands_for layers.old layers.new
        (M.tally modules.old) (M.tally modules.new) meter.old.left meter.new.left
        (migrates costs.now index prefix.now sender.now contract.now code_id msg.now) called_view result }
    ensures called { IfOk result IsCalled }
    ensures gas { meter.new.left + meter.new.used ≡ meter.old.left + meter.old.used }
    ensures layers { stacks.depth layers.new ≡ stacks.depth layers.old }
{
    fetches_join();
    let addr = address_in(alloc, prefix, contract)?;
    may_migrate(alloc, &*layers, prefix, sender, &addr, code_id)?;
    let text = encode(alloc, prefix, &addr)?;
    let callee = Callee {
        addr,
        text,
        code_id,
    };
    migrate_told(
        alloc, layers, modules, prefix, sender, callee, msg, index, meter, costs,
    )
}

/// Calls the new code of a contract, which the contract has from then on.
fn migrate_told<B: Base, M: Modules>(
    alloc: Global,
    layers: &mut Layers<B>,
    modules: &mut M,
    prefix: &str,
    sender: &[u8],
    callee: Callee,
    msg: &[u8],
    index: u32,
    meter: &mut Meter,
    costs: &Schedule,
) -> Result<Called, HandleStop>
    requires callee { IsCallee prefix.now callee }
    requires costs { IsInRange costs.now }
    requires lawful { HasLawfulUnder prefix.now (HasCurrent B.stands_for layers.old) }
    ensures leads { LeadsOn prefix.now B.stands_for layers.old layers.new
        (M.tally modules.old) (M.tally modules.new) meter.old.left meter.new.left
        (migrate_told costs.now index prefix.now sender.now callee.addr.items callee.code_id msg.now) called_view result }
    ensures called { IfOk result IsCalled }
    ensures gas { meter.new.left + meter.new.used ≡ meter.old.left + meter.old.used }
    ensures layers { stacks.depth layers.new ≡ stacks.depth layers.old }
{
    fetches_join();
    let code_id = callee.code_id;
    let own = one(alloc, code_event(alloc, "migrate", &callee.text, code_id)?)?;
    let called = tell_call(
        alloc,
        layers,
        modules,
        prefix,
        callee,
        Entry::Migrate,
        own,
        None,
        msg,
        index,
        meter,
        costs,
    )?;
    match set_code(alloc, layers, sender, &called.addr, code_id) {
        Ok(()) => Ok(called),
        Err(stop) => Err(contract_stop(alloc, prefix, &called.addr, stop)),
    }
}
