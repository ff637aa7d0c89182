ghost use Rattle.std.specs.Prelude.{◌≡◌, ◌≤◌, IfOk, OnErr};
ghost use Rattle.node_core.specs.Plain.{publish, enter, look, stow, pins, shelf_answer, tell};
ghost use Rattle.node_core.specs.Steps.{start, stepped, window, is_actor};

use crate::answer::CoreAnswer;
use crate::event::CoreEvent;
use crate::numbers::{is_among, to_front};
use std::alloc::{AllocError, Global};

/// The state of the node as one list of steps sees it.
#[derive(Debug, Drop)]
pub struct Core {
    newest: u64,
    keep: u32,
    size: u32,
    pinned: Vec<u32>,
    recent: Vec<u32>,
    seen: Vec<u64>,
    ghost keeps_some: { 1 ≤ keep },
}

impl Core {
    ghost use Rattle.node_core.specs.View.{core_view, event_view};

    /// Height 0 is published, nothing is held, and each reader has seen height 0.
    pub fn new(alloc: Global, keep: u32, recent: u32, readers: u32) -> Result<Core, AllocError>
        requires keeps_some { 1 ≤ keep }
        requires keeps_few { keep ≤ 1024 }
        requires some { 1 ≤ recent }
        requires few { recent ≤ 128 }
        ensures { IfOk result (λ c. core_view c ≡ start keep recent readers) }
    {
        Ok(Core {
            newest: 0,
            keep,
            size: recent,
            pinned: Vec::new(alloc),
            recent: Vec::new(alloc),
            seen: vec![in alloc; 0; readers as usize]?,
        })
    }

    /// One step. A refused event changes nothing, and neither does want of memory.
    pub fn step(&mut self, alloc: Global, event: &CoreEvent) -> Result<CoreAnswer, AllocError>
        ensures ok { IfOk result (λ answer. record { state = core_view self.new; answer = answer } ≡ stepped (core_view self.old) (event_view event.now)) }
        ensures err { OnErr result (core_view self.new ≡ core_view self.old) }
    {
        match event {
            CoreEvent::Publish { height } => Ok(self.publish(*height)),
            CoreEvent::Enter { reader, height } => Ok(self.enter(*reader, *height)),
            CoreEvent::Look { actor, code } => self.look(alloc, *actor, *code),
            CoreEvent::Stow { actor, code } => self.stow(alloc, *actor, *code),
            CoreEvent::Pins { codes } => self.pin(alloc, codes),
            CoreEvent::ShelfAnswer { actor, code, good } => Ok(self.answer_shelf(
                *actor, *code, *good,
            )),
            CoreEvent::Tell { reader } => Ok(self.tell(*reader)),
        }
    }

    fn publish(&mut self, height: u64) -> CoreAnswer
        ensures { record { state = core_view self.new; answer = result } ≡ stepped (core_view self.old) (publish height) }
    {
        if height == 0 || height - 1 != self.newest {
            return CoreAnswer::Refused;
        }
        self.newest = height;
        CoreAnswer::Nothing
    }

    /// The answer to who asks this height.
    fn window(&self, height: Option<u64>) -> CoreAnswer
        ensures { result ≡ window (core_view self.now).keep (core_view self.now).newest height }
    {
        let newest = self.newest;
        let height = height.unwrap_or(newest);
        let oldest = newest.saturating_sub(u64::from(self.keep - 1));
        if newest < height {
            CoreAnswer::NotYet { newest }
        } else if height < oldest {
            CoreAnswer::Pruned { oldest, newest }
        } else {
            CoreAnswer::Entered { newest, height }
        }
    }

    fn enter(&mut self, reader: u32, height: Option<u64>) -> CoreAnswer
        ensures { record { state = core_view self.new; answer = result } ≡ stepped (core_view self.old) (enter reader height) }
    {
        let answer = self.window(height);
        match self.tell(reader) {
            CoreAnswer::Refused => CoreAnswer::Refused,
            _ => answer,
        }
    }

    fn tell(&mut self, reader: u32) -> CoreAnswer
        ensures { record { state = core_view self.new; answer = result } ≡ stepped (core_view self.old) (tell reader) }
    {
        let reader = reader as usize;
        if reader >= self.seen.len() {
            return CoreAnswer::Refused;
        }
        self.seen[reader] = self.newest;
        CoreAnswer::Nothing
    }

    fn is_actor(&self, actor: u32) -> bool
        ensures { result ≡ is_actor (core_view self.now) actor }
    {
        actor as usize <= self.seen.len()
    }

    fn look(&mut self, alloc: Global, actor: u32, code: u32) -> Result<CoreAnswer, AllocError>
        ensures ok { IfOk result (λ answer. record { state = core_view self.new; answer = answer } ≡ stepped (core_view self.old) (look actor code)) }
        ensures err { OnErr result (core_view self.new ≡ core_view self.old) }
    {
        if !self.is_actor(actor) {
            return Ok(CoreAnswer::Refused);
        }
        if is_among(code, &self.pinned) {
            return Ok(CoreAnswer::Found { module: code });
        }
        if !is_among(code, &self.recent) {
            return Ok(CoreAnswer::Missing);
        }
        self.recent = to_front(alloc, code, &self.recent)?;
        Ok(CoreAnswer::Found { module: code })
    }

    fn stow(&mut self, alloc: Global, actor: u32, code: u32) -> Result<CoreAnswer, AllocError>
        ensures ok { IfOk result (λ answer. record { state = core_view self.new; answer = answer } ≡ stepped (core_view self.old) (stow actor code)) }
        ensures err { OnErr result (core_view self.new ≡ core_view self.old) }
    {
        if !self.is_actor(actor) {
            return Ok(CoreAnswer::Refused);
        }
        let mut recent = to_front(alloc, code, &self.recent)?;
        recent.truncate(self.size as usize);
        self.recent = recent;
        Ok(CoreAnswer::Nothing)
    }

    fn pin(&mut self, alloc: Global, codes: &[u32]) -> Result<CoreAnswer, AllocError>
        ensures ok { IfOk result (λ answer. record { state = core_view self.new; answer = answer } ≡ stepped (core_view self.old) (pins codes.now)) }
        ensures err { OnErr result (core_view self.new ≡ core_view self.old) }
    {
        self.pinned = Vec::from_slice(alloc, codes)?;
        Ok(CoreAnswer::Nothing)
    }

    fn answer_shelf(&mut self, actor: u32, code: u32, good: bool) -> CoreAnswer
        ensures { record { state = core_view self.new; answer = result } ≡ stepped (core_view self.old) (shelf_answer actor code good) }
    {
        if !self.is_actor(actor) {
            return CoreAnswer::Refused;
        }
        if good {
            CoreAnswer::Found { module: code }
        } else {
            CoreAnswer::Missing
        }
    }
}
