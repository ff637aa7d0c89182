//! Calls of contracts for messages and replies.

ghost use Rattle.std.specs.Prelude.{◌≡◌, ◌+◌, ◌≤◌, ◌↔◌, ℕ, IsSome, IsTrue};
ghost use Rattle.std.specs.Option.{option_copied};
ghost use Rattle.chain_addr.specs.Letters.{IsPrefix};
ghost use Rattle.chain_records.specs.Keys.{IsAddress};
ghost use Rattle.chain_records.specs.State.{State, Spells};
ghost use Rattle.gas_meter.specs.Ranges.{IsInRange};
ghost use Rattle.kv_layers.specs.Layers.{HasCurrent, Stands};
ghost use Rattle.kv_layers.specs.Layers as stacks;
ghost use Rattle.kv_layers.specs.Maps.{Maps};
ghost use Rattle.contract_call.specs.Calls.{arguments, takes_info};
ghost use Rattle.query_router.specs.Calls.{call_on, queries};
ghost use Rattle.query_router.specs.Endings.{Ends};
ghost use Rattle.query_router.specs.Lawful.{IsLawful, HasLawfulUnder};

use crate::calls::open_call;
use crate::end::CallEnd;
use crate::router::finish;
use crate::stop::QueryStop;
use chain_records::bytes_tell_keys;
use contract_call::Entry;
use gas_meter::{Meter, Schedule};
use gas_store::{storages_are_typed, storages_change_alone};
use gatekeeper::{Modules, fetches_join};
use kv_layers::{Base, Layers};
use std::alloc::Global;

/// Calls an entry of the contract with an address, as the code with this id has it; addresses are written
/// under the prefix. What the contract asks is answered on the way, at depth 1. What it did before it failed
/// stays in the layers. Where there is no such code, the gas counts as run out.
pub fn call_contract<B: Base, M: Modules>(
    alloc: Global,
    layers: &mut Layers<B>,
    modules: &mut M,
    prefix: &str,
    addr: &[u8],
    code_id: u64,
    entry: Entry,
    env: &[u8],
    info: Option<&[u8]>,
    msg: &[u8],
    meter: &mut Meter,
    costs: &Schedule,
) -> Result<CallEnd, QueryStop>
    requires address { IsAddress addr.now }
    requires info { IsSome info ↔ IsTrue (takes_info entry) }
    requires costs { IsInRange costs.now }
    requires lawful { HasLawfulUnder prefix.now (HasCurrent B.stands_for layers.old) }
    ensures ends { (maps : Maps) (s : State) → Stands B.stands_for layers.old maps →
        Spells maps.current s → IsLawful s → s.facts.prefix ≡ prefix.now →
        Ends B.stands_for layers.new maps s addr.now meter.new.left (M.tally modules.old) (M.tally modules.new)
        (call_on (queries costs.now 9) costs.now s addr.now code_id entry
        (arguments env.now (option_copied info.entry) msg.now) meter.old.left) result }
    ensures gas { meter.new.left + meter.new.used ≡ meter.old.left + meter.old.used }
    ensures spends { meter.new.left ≤ meter.old.left }
    ensures layers { stacks.depth layers.new ≡ stacks.depth layers.old }
{
    fetches_join();
    bytes_tell_keys();
    storages_change_alone();
    storages_are_typed();
    let own = String::from_str(alloc, prefix)?;
    match open_call(
        alloc, &*layers, modules, own, addr, code_id, entry, env, info, msg,
    )? {
        Some(call) => finish(alloc, call, layers, modules, meter, costs, 0),
        None => Err(QueryStop::OutOfGas),
    }
}
