ghost use Rattle.std.specs.Prelude.{◌≡◌, ℕ, ◌+◌, ◌<◌, ◌≤◌, ◌++◌, ◌∷◌, ◌↔◌, [], List, IfOk, OnOk, OnErr};
ghost use Rattle.gas_meter.specs.Ranges.{IsInRange};
ghost use Rattle.wasm_machine.specs.Acts as host;
ghost use Rattle.wasm_machine.specs.Acts.{Act, IsAsk, standing_of};
ghost use Rattle.wasm_machine.specs.Pauses.{standing_at, TurnsAt};
ghost use Rattle.wasm_machine.specs.Phases.{TakesMemory, TakesCall, IsReady, IsAsked, called, answered, over, asking, after_turn};

use crate::advance::Code;
use crate::frame::{Next, Pause};
use crate::pile::Pile;
use crate::start::{start_globals, start_memory, table};
use crate::state::State;
use crate::stop::Stop;
use crate::turn::{Phase, Turn};
use crate::values::Values;
use gas_meter::{Meter, Schedule};
use linear_memory::Memory;
use std::alloc::{AllocError, Global};
use std::sync::Arc;
use wasm_types::{Module, Value};

/// A module with its memory and globals, and the calls that are under way.
#[derive(Drop)]
pub struct Machine {
    module: Arc<Module>,
    table: Vec<Option<u32>>,
    state: State,
    phase: Phase,
}

impl Machine {
    ghost use Rattle.std.specs.Arc.{arc_value};
    ghost use Rattle.std.specs.Borrow.{sem};
    ghost use Rattle.wasm_machine.specs.Machine.{module_of, phase_of, HasUnbegunCall, stands_after, StandsFor, LendsMemory, with_memory};

    /// A machine in which no call is under way.
    pub fn new(alloc: Global, m: Arc<Module>) -> Result<Machine, AllocError>
        ensures stands { IfOk result (λ machine. StandsFor machine []) }
        ensures module { IfOk result (λ machine. module_of machine ≡ arc_value m) }
        ensures phase { IfOk result (λ machine. phase_of machine ≡ Phase.Idle) }
    {
        let memory = start_memory(alloc, &m)?;
        let globals = start_globals(alloc, &m)?;
        let table = table(alloc, &m)?;
        let values = Values {
            memory,
            globals,
            operands: Pile::new(alloc),
            locals: Pile::new(alloc),
        };
        let state = State {
            values,
            labels: Pile::new(alloc),
            callers: Vec::new(alloc),
            depth: 0,
            next: Next::Give(None),
        };
        Ok(Machine {
            module: m,
            table,
            state,
            phase: Phase::Idle,
        })
    }

    pub fn module(&self) -> &Module
        ensures { result.now ≡ module_of self.now }
    {
        &self.module
    }

    pub fn memory(&self) -> &Memory
        ensures { (acts : List Act) → StandsFor self.now acts → result.now ≡ (stands_after self.now acts).memory }
    {
        &self.state.values.memory
    }

    /// The memory, to be changed between two runs.
    pub fn memory_mut(&mut self) -> &mut Memory
        requires { TakesMemory (phase_of self.old) }
        ensures* changes { sem 𝓛 (LendsMemory self.entry result) }
        ensures value { (acts : List Act) → StandsFor self.old acts → result.now ≡ (stands_after self.old acts).memory }
        ensures stands { (bytes : List ℕ) (acts : List Act) → StandsFor self.old acts →
            StandsFor (with_memory self.old bytes) (acts ++ host.memory bytes ∷ []) }
        ensures phase { (bytes : List ℕ) → phase_of (with_memory self.old bytes) ≡ phase_of self.old }
        ensures module { (bytes : List ℕ) → module_of (with_memory self.old bytes) ≡ module_of self.old }
        ensures unbegun { (bytes : List ℕ) → HasUnbegunCall (with_memory self.old bytes) ↔ HasUnbegunCall self.old }
    {
        let state = &mut self.state;
        let values = &mut state.values;
        &mut values.memory
    }

    /// Calls a function, the imported ones counted first. It begins with the next `run`.
    pub fn call(&mut self, func: u32, args: &[Value]) -> Result<(), AllocError>
        requires { TakesCall (phase_of self.old) }
        ensures stands { OnOk result ((acts : List Act) → StandsFor self.old acts →
            StandsFor self.new (acts ++ host.call func args.now ∷ [])) }
        ensures phase { OnOk result (phase_of self.new ≡ called (phase_of self.old)) }
        ensures unbegun { OnOk result (HasUnbegunCall self.new) }
        ensures err { OnErr result (phase_of self.new ≡ Phase.Spent) }
        ensures module { module_of self.new ≡ module_of self.old }
    {
        let phase = self.phase;
        self.phase = Phase::Spent;
        self.state.begin_call(args)?;
        self.state.next = Next::Enter(func);
        self.phase = called(phase);
        Ok(())
    }

    /// Gives the answer that the newest call waits for. It goes on with the next `run`.
    pub fn resume(&mut self, answer: Option<Value>)
        requires { IsAsked (phase_of self.old) }
        ensures stands { (acts : List Act) → StandsFor self.old acts →
            StandsFor self.new (acts ++ host.answer answer ∷ []) }
        ensures phase { phase_of self.new ≡ answered (phase_of self.old) }
        ensures begun { ¬ HasUnbegunCall self.new }
        ensures module { module_of self.new ≡ module_of self.old }
    {
        self.state.next = Next::Give(answer);
        self.phase = answered(self.phase);
    }

    /// Goes on with the newest call, up to its end or to a call of an import.
    pub fn run(
        &mut self,
        alloc: Global,
        meter: &mut Meter,
        costs: &Schedule,
    ) -> Result<Turn, AllocError>
        requires phase { IsReady (phase_of self.old) }
        requires costs { IsInRange costs.now }
        ensures stands { OnOk result ((acts : List Act) → StandsFor self.old acts →
            StandsFor self.new (acts ++ host.go meter.old.left costs.now ∷ [])) }
        ensures turn { IfOk result (λ turn. (acts : List Act) → StandsFor self.old acts →
            standing_of turn ≡ (stands_after self.old (acts ++ host.go meter.old.left costs.now ∷ [])).standing) }
        ensures left { OnOk result ((acts : List Act) → StandsFor self.old acts →
            meter.new.left ≡ (stands_after self.old (acts ++ host.go meter.old.left costs.now ∷ [])).left) }
        ensures spends { meter.new.left ≤ meter.old.left }
        ensures used { meter.new.left + meter.new.used ≡ meter.old.left + meter.old.used }
        ensures asks { IfOk result (λ turn. IsAsk turn → ¬ HasUnbegunCall self.old → meter.new.left < meter.old.left) }
        ensures begun { ¬ HasUnbegunCall self.new }
        ensures phase { IfOk result (λ turn. phase_of self.new ≡ after_turn (standing_of turn) (phase_of self.old)) }
        ensures err { OnErr result (phase_of self.new ≡ Phase.Spent) }
        ensures module { module_of self.new ≡ module_of self.old }
    {
        let phase = self.phase;
        self.phase = Phase::Spent;
        let code = Code {
            module: &self.module,
            table: &self.table,
            costs,
        };
        match self.state.run(alloc, &code, meter) {
            Ok(pause) => {
                self.phase = after_pause(&pause, phase);
                Ok(turn_of(pause))
            }
            Err(stop) => turn_at(stop),
        }
    }
}

/// The phase after a call of a function.
fn called(phase: Phase) -> Phase
    ensures { result ≡ called phase }
{
    match phase {
        Phase::Idle => Phase::Ready,
        Phase::Asked => Phase::ReadyOver,
        Phase::Ready | Phase::ReadyOver | Phase::AskedOver | Phase::Spent => phase,
    }
}

/// The phase after an answer.
fn answered(phase: Phase) -> Phase
    ensures { result ≡ answered phase }
{
    match phase {
        Phase::Asked => Phase::Ready,
        Phase::AskedOver => Phase::ReadyOver,
        Phase::Idle | Phase::Ready | Phase::ReadyOver | Phase::Spent => phase,
    }
}

/// The phase after the end of the newest call.
fn over(phase: Phase) -> Phase
    ensures { result ≡ over phase }
{
    match phase {
        Phase::Ready => Phase::Idle,
        Phase::ReadyOver => Phase::Asked,
        Phase::Idle | Phase::Asked | Phase::AskedOver | Phase::Spent => phase,
    }
}

/// The phase after a call of an import.
fn asking(phase: Phase) -> Phase
    ensures { result ≡ asking phase }
{
    match phase {
        Phase::Ready => Phase::Asked,
        Phase::ReadyOver => Phase::AskedOver,
        Phase::Idle | Phase::Asked | Phase::AskedOver | Phase::Spent => phase,
    }
}

/// The phase after a run that didn't end everything.
fn after_pause(pause: &Pause, phase: Phase) -> Phase
    ensures { result ≡ after_turn (standing_at pause.now) phase }
{
    match pause {
        Pause::Done(_) => over(phase),
        Pause::Asks { import: _, args: _ } => asking(phase),
    }
}

fn turn_of(pause: Pause) -> Turn
    ensures { standing_of result ≡ standing_at pause }
{
    match pause {
        Pause::Done(value) => Turn::Done(value),
        Pause::Asks { import, args } => Turn::Ask { import, args },
    }
}

fn turn_at(stop: Stop) -> Result<Turn, AllocError>
    ensures { TurnsAt stop result }
{
    match stop {
        Stop::Trap(kind) => Ok(Turn::Trap(kind)),
        Stop::OutOfGas => Ok(Turn::OutOfGas),
        Stop::NoMemory => Err(AllocError),
    }
}
