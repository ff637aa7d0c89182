//! Messages that change a contract's admin.

ghost use Rattle.std.specs.Prelude.{◌≡◌, ℕ, List, Some, None, Option, option_map, IfSome, IfOk};
ghost use Rattle.std.specs.Option.{option_copied};
ghost use Rattle.kv_layers.specs.Layers as stacks;
ghost use Rattle.kv_layers.specs.Layers.{HasCurrent};
ghost use Rattle.chain_addr.specs.Letters.{IsPrefix};
ghost use Rattle.chain_records.specs.Keys.{IsAddress};
ghost use Rattle.chain_records.specs.Spelled.{OfEach, HasTyped};
ghost use Rattle.contract_admin.specs.Administration.{change_refusal};
ghost use Rattle.gatekeeper.specs.Cache.{Tally};
ghost use Rattle.chain_addr.specs.Text.{text_of};
ghost use Rattle.chain_msgs.specs.Plain.{failure_view};
ghost use Rattle.submsg_dispatch.specs.Failures as plain;
ghost use Rattle.submsg_dispatch.specs.Failures.{contract_failure};
ghost use Rattle.submsg_dispatch.specs.Messages.{change_admin, drop_admin};
ghost use Rattle.submsg_dispatch.specs.Views.{outcome_view};
ghost use Rattle.submsg_dispatch.specs.Under.{LeadsUnder, HasLawfulUnder, TellsContract, StopsFirst, admin_put};

use crate::failures::{
    address_taken, label_bad, may_not_instantiate, no_such_code, no_such_contract, not_admin,
    stop_of,
};
use crate::outcome::{Outcome, only_events};
use crate::reading::address_in;
use crate::stop::HandleStop;
use chain_addr::encode;
use chain_msgs::Failure;
use contract_admin::{AdminStop, may_change, set_admin};
use kv_layers::{Base, Layers};
use std::alloc::{AllocError, Global};

/// A contract gets another admin.
pub(crate) fn change_admin<B: Base>(
    alloc: Global,
    layers: &mut Layers<B>,
    prefix: &str,
    sender: &[u8],
    contract: &str,
    admin: &str,
) -> Result<Outcome, HandleStop>
    requires lawful { HasLawfulUnder prefix.now (HasCurrent B.stands_for layers.old) }
    ensures leads { (tally : Option Tally) (left : ℕ) → LeadsUnder prefix.now B.stands_for
        layers.old layers.new tally tally left left
        (change_admin sender.now contract.now admin.now) outcome_view result }
    ensures layers { stacks.depth layers.new ≡ stacks.depth layers.old }
{
    let addr = address_in(alloc, prefix, contract)?;
    match address_in(alloc, prefix, admin) {
        Ok(next) => put_admin(alloc, layers, prefix, sender, &addr, Some(&next)),
        Err(stop) => Err(unless_refused(alloc, &*layers, prefix, sender, &addr, stop)),
    }
}

/// A contract has no admin any more.
pub(crate) fn drop_admin<B: Base>(
    alloc: Global,
    layers: &mut Layers<B>,
    prefix: &str,
    sender: &[u8],
    contract: &str,
) -> Result<Outcome, HandleStop>
    requires lawful { HasLawfulUnder prefix.now (HasCurrent B.stands_for layers.old) }
    ensures leads { (tally : Option Tally) (left : ℕ) → LeadsUnder prefix.now B.stands_for
        layers.old layers.new tally tally left left
        (drop_admin sender.now contract.now) outcome_view result }
    ensures layers { stacks.depth layers.new ≡ stacks.depth layers.old }
{
    let addr = address_in(alloc, prefix, contract)?;
    put_admin(alloc, layers, prefix, sender, &addr, None)
}

/// Gives a contract this admin, or none, where the sender may change it.
fn put_admin<B: Base>(
    alloc: Global,
    layers: &mut Layers<B>,
    prefix: &str,
    sender: &[u8],
    addr: &[u8],
    admin: Option<&[u8]>,
) -> Result<Outcome, HandleStop>
    requires admin { IfSome (option_copied admin) IsAddress }
    requires lawful { HasLawfulUnder prefix.now (HasCurrent B.stands_for layers.old) }
    ensures leads { (tally : Option Tally) (left : ℕ) → LeadsUnder prefix.now B.stands_for
        layers.old layers.new tally tally left left
        (admin_put sender.now addr.now (option_copied admin.entry)) outcome_view result }
    ensures layers { stacks.depth layers.new ≡ stacks.depth layers.old }
{
    match set_admin(alloc, layers, sender, addr, admin) {
        Ok(()) => Ok(only_events(Vec::new(alloc))),
        Err(stop) => Err(contract_stop(alloc, prefix, addr, stop)),
    }
}

/// This stop, unless the sender may not change the contract: that is looked at before.
fn unless_refused<B: Base>(
    alloc: Global,
    view: &B,
    prefix: &str,
    sender: &[u8],
    addr: &[u8],
    other: HandleStop,
) -> HandleStop
    requires prefix { IsPrefix prefix.now }
    requires typed { HasTyped (B.stands_for view.now) }
    ensures { OfEach (B.stands_for view.now) (λ s. StopsFirst other result
        (option_map (contract_failure prefix.now addr.now) (change_refusal s sender.now addr.now))) }
{
    match may_change(alloc, view, sender, addr) {
        Ok(_) => other,
        Err(stop) => contract_stop(alloc, prefix, addr, stop),
    }
}

/// The stop of a message on the contract with this address.
pub(crate) fn contract_stop(alloc: Global, prefix: &str, addr: &[u8], stop: AdminStop) -> HandleStop
    requires { IsPrefix prefix.now }
    ensures { TellsContract prefix.now addr.now stop result }
{
    match stop {
        AdminStop::NoSuchContract => stop_of(unknown_contract(alloc, prefix, addr)),
        AdminStop::NotAdmin => stop_of(not_admin(alloc)),
        AdminStop::NoSuchCode(id) => stop_of(no_such_code(alloc, id)),
        AdminStop::MayNotInstantiate => stop_of(may_not_instantiate(alloc)),
        AdminStop::AddressTaken => stop_of(address_taken(alloc)),
        AdminStop::LabelBad => stop_of(label_bad(alloc)),
        AdminStop::NoMemory => HandleStop::NoMemory,
    }
}

/// The failure of a message on a contract that isn't there.
fn unknown_contract(alloc: Global, prefix: &str, addr: &[u8]) -> Result<Failure, AllocError>
    requires { IsPrefix prefix.now }
    ensures { IfOk result (λ failure. failure_view failure
        ≡ plain.no_such_contract (text_of prefix.now addr.now)) }
{
    let text = encode(alloc, prefix, addr)?;
    no_such_contract(alloc, text)
}
