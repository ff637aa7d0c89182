ghost use Rattle.std.specs.Prelude.{◌≡◌, ◌+◌, ◌*◌, ◌≤◌, List, IfOk, OnOk};
ghost use Rattle.gas_meter.specs.Ranges.{IsInRange};
ghost use Rattle.wasm_types.specs.Plain.{plain_module};
ghost use Rattle.wasm_machine.specs.Acts.{Act};
ghost use Rattle.wasm_machine.specs.Exec.{Ahead};
ghost use Rattle.wasm_machine.specs.Start.{table, code_at};
ghost use Rattle.wasm_machine.specs.Rests.{next_weight, Begins, AsksFrom, StepAsks, hosts, height, ahead, running, LeadsTo, LeadsOut, Pauses, HostsAfter, StepHosts, IsBelow, next_at, IsBodyOf};

use crate::advance::Code;
use crate::frame::{Event, Frame, Next, Pause, Step};
use crate::functions::{Body, body_at};
use crate::state::State;
use crate::stop::Stop;
use gas_meter::Meter;
use std::alloc::Global;
use wasm_types::Module;

impl State {
    /// What the newest call does next, up to where a function runs or the call stops.
    fn step(&mut self, alloc: Global, m: &Module) -> Result<Step, Stop>
        ensures leads { (a : Ahead) → 1 ≤ hosts self.old.callers.items →
            LeadsTo (plain_module m.now) result self.new a (next_at (plain_module m.now) self.old self.old.next a) }
        ensures hosts { IfOk result (λ step. StepHosts step (hosts self.old.callers.items) (hosts self.new.callers.items)) }
        ensures sinks { IfOk result (λ step. IsBelow step (height self.old + next_weight self.old.next) (height self.new)) }
        ensures asks { IfOk result (λ step. StepAsks self.old.next step) }
    {
        match self.next {
            Next::Enter(func) => self.enter(alloc, m, func),
            Next::Give(value) => match self.give(value)? {
                Some(frame) => Ok(Step::Runs(frame)),
                None => Ok(Step::Stops(Pause::Done(value))),
            },
        }
    }

    /// A function runs, up to its end or to a call.
    fn go(
        &mut self,
        alloc: Global,
        code: &Code,
        body: Body,
        frame: Frame,
        meter: &mut Meter,
    ) -> Result<(), Stop>
        requires costs { IsInRange code.now.costs.now }
        requires body { IsBodyOf (code_at (plain_module code.now.module.now) frame.code) body.instrs.now body.targets.now }
        ensures leads { (acts : List Act) → code.now.table.now ≡ table (plain_module code.now.module.now) →
            LeadsOut (plain_module code.now.module.now) result self.new (ahead meter.new.left code.now.costs.now acts)
            (running (plain_module code.now.module.now) self.old frame (ahead meter.old.left code.now.costs.now acts)) }
        ensures hosts { OnOk result (hosts self.new.callers.items ≡ hosts self.old.callers.items) }
        ensures sinks { OnOk result (5 * meter.new.left + height self.new + next_weight self.new.next ≤ 5 * meter.old.left + height self.old) }
        ensures free { meter.new.left ≡ meter.old.left → OnOk result (¬ Begins self.new.next) }
        ensures left { meter.new.left ≤ meter.old.left }
        ensures used { meter.new.left + meter.new.used ≡ meter.old.left + meter.old.used }
    {
        let mut place = frame.place;
        loop {
            let here = Frame { place, ..frame };
            match self.advance(alloc, code, body, here, meter) {
                Ok(Event::Goes(onward)) => place = onward,
                Ok(Event::Leaves) => return Ok(()),
                Err(stop) => return Err(stop),
            }
        }
    }

    /// Goes on with the newest call, up to its end or to a call of an import.
    pub fn run(&mut self, alloc: Global, code: &Code, meter: &mut Meter) -> Result<Pause, Stop>
        requires { IsInRange code.now.costs.now }
        ensures leads { (acts : List Act) → 1 ≤ hosts self.old.callers.items → code.now.table.now ≡ table (plain_module code.now.module.now) →
            Pauses (plain_module code.now.module.now) result self.new (ahead meter.new.left code.now.costs.now acts)
            (next_at (plain_module code.now.module.now) self.old self.old.next (ahead meter.old.left code.now.costs.now acts)) }
        ensures hosts { IfOk result (λ pause. HostsAfter pause (hosts self.old.callers.items) (hosts self.new.callers.items)) }
        ensures free { meter.new.left ≡ meter.old.left → IfOk result (λ pause. AsksFrom self.old.next pause) }
        ensures left { meter.new.left ≤ meter.old.left }
        ensures used { meter.new.left + meter.new.used ≡ meter.old.left + meter.old.used }
    {
        loop {
            match self.step(alloc, code.module)? {
                Step::Runs(frame) => {
                    let body = body_at(code.module, frame.code);
                    self.go(alloc, code, body, frame, meter)?;
                }
                Step::Stops(pause) => return Ok(pause),
            }
        }
    }
}
