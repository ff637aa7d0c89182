//! A contract's call that runs.

ghost use Rattle.std.specs.Prelude.{◌≡◌, ◌+◌, ◌<◌, ◌≤◌, ◌↔◌, ℕ, List, [], ◌∷◌, map, IfOk, OnOk, IsSome, IsTrue};
ghost use Rattle.std.specs.Option.{option_copied};
ghost use Rattle.std.specs.Arc.{arc_value};
ghost use Rattle.chain_addr.specs.Letters.{IsPrefix};
ghost use Rattle.gas_meter.specs.Ranges.{IsInRange};
ghost use Rattle.kv_layers.specs.Maps.{Maps};
ghost use Rattle.kv_layers.specs.Layers.{depth, Turns};
ghost use Rattle.kv_layers.specs.Plain.{bytes_view};
ghost use Rattle.gas_store.specs.Views.{addr_of, is_read_only};
ghost use Rattle.gas_store.specs.Effects.{IsSameScope};
ghost use Rattle.wasm_types.specs.Plain.{plain_module};
ghost use Rattle.contract_call.specs.Calls.{Call, Outset, Answer, arguments, takes_info, call_of};

use crate::entry::Entry;
use crate::going::go_on;
use crate::stage::Stage;
use crate::step::Step;
use crate::stop::{Pause, Stop};
use gas_meter::{Meter, Schedule};
use gas_store::Scoped;
use kv_layers::{Base, Layers};
use std::alloc::{AllocError, Global};
use std::mem;
use std::sync::Arc;
use wasm_machine::Machine;
use wasm_types::Module;

/// A contract's call, from its beginning to its end. At each query it stands still.
#[derive(Drop)]
pub struct Running {
    machine: Machine,
    stage: Stage,
}

impl Running {
    ghost use Rattle.contract_call.specs.Running.{StandsForPart, CanGoOn, HasAnswer, WaitsForAnswer};
    ghost use Rattle.contract_call.specs.Steps.{IfQuery, GoesOnFrom, ComesTo};

    /// A call of which nothing was done yet. Those that are told who calls have an `info`.
    pub fn begin(
        alloc: Global,
        m: Arc<Module>,
        entry: Entry,
        env: &[u8],
        info: Option<&[u8]>,
        msg: &[u8],
        pinned: bool,
    ) -> Result<Running, AllocError>
        requires { IsSome info ↔ IsTrue (takes_info entry) }
        ensures stands { IfOk result (λ running. (outset : Outset) →
            StandsForPart running (call_of (plain_module (arc_value m)) entry
            (arguments env.now (option_copied info.entry) msg.now) pinned) outset []) }
        ensures ready { IfOk result (λ running. CanGoOn running) }
    {
        let machine = Machine::new(alloc, m)?;
        let args = arguments(alloc, env, info, msg)?;
        let stage = Stage::New {
            entry,
            args,
            pinned,
        };
        Ok(Running { machine, stage })
    }

    /// Goes on up to the call's end or its next query. Then it waits for the answer; after every other
    /// step it has no use but to be dropped.
    pub fn advance<B: Base>(
        &mut self,
        alloc: Global,
        store: &mut Scoped,
        layers: &mut Layers<B>,
        prefix: &str,
        meter: &mut Meter,
        costs: &Schedule,
    ) -> Result<Step, AllocError>
        requires ready { CanGoOn self.old }
        requires costs { IsInRange costs.now }
        requires prefix { IsPrefix prefix.now }
        ensures step { IfOk result (λ step. (maps : Maps) (call : Call) (outset : Outset) (answers : List Answer) →
            StandsForPart self.old call outset answers →
            GoesOnFrom B.stands_for layers.old maps store.old meter.old.left costs.now prefix.now call outset answers →
            ComesTo B.stands_for layers.new maps (addr_of store.old) store.new self.new meter.new.left
            call outset answers step) }
        ensures waits { IfOk result (λ step. IfQuery step (WaitsForAnswer self.new)) }
        ensures falls { IfOk result (λ step. IfQuery step
            (HasAnswer self.old → meter.new.left < meter.old.left)) }
        ensures scope { IsSameScope store.old store.new }
        ensures layers { depth layers.new ≡ depth layers.old }
        ensures unchanged { IsTrue (is_read_only store.old) → Turns B.stands_for layers.old layers.new (λ maps. maps) }
        ensures spends { meter.new.left ≤ meter.old.left }
        ensures used { meter.new.left + meter.new.used ≡ meter.old.left + meter.old.used }
    {
        let stage = mem::replace(&mut self.stage, Stage::Over);
        match go_on(
            alloc,
            stage,
            &mut self.machine,
            store,
            layers,
            prefix,
            meter,
            costs,
        ) {
            Ok(Pause::Finished(bytes)) => Ok(Step::Finished(bytes)),
            Ok(Pause::Query(request)) => {
                self.stage = Stage::Waits;
                Ok(Step::Query(request))
            }
            Err(Stop::Fault(fault)) => Ok(Step::Fault(fault)),
            Err(Stop::OutOfGas) => Ok(Step::OutOfGas),
            Err(Stop::NoMemory) => Err(AllocError),
        }
    }

    /// Takes the answer to the query that the call waits for. It goes on with the next `advance`.
    pub fn answer(&mut self, alloc: Global, bytes: &[u8]) -> Result<(), AllocError>
        requires { WaitsForAnswer self.old }
        ensures stands { OnOk result ((call : Call) (outset : Outset) (answers : List Answer) (left : ℕ) →
            StandsForPart self.old call outset answers →
            StandsForPart self.new call outset (record { bytes = bytes.now; left = left } ∷ answers)) }
        ensures ready { OnOk result (CanGoOn self.new) }
        ensures answered { OnOk result (HasAnswer self.new) }
    {
        let bytes = bytes.to_vec(alloc)?;
        self.stage = Stage::Answered(bytes);
        Ok(())
    }
}

/// What an entry point is handed, in order.
fn arguments(
    alloc: Global,
    env: &[u8],
    info: Option<&[u8]>,
    msg: &[u8],
) -> Result<Vec<Vec<u8>>, AllocError>
    ensures { IfOk result (λ args. map bytes_view args.items ≡ arguments env.now (option_copied info.entry) msg.now) }
{
    let mut args = Vec::new(alloc);
    args.push(env.to_vec(alloc)?)?;
    if let Some(info) = info {
        args.push(info.to_vec(alloc)?)?;
    }
    args.push(msg.to_vec(alloc)?)?;
    Ok(args)
}
