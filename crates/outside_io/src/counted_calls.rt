ghost use Rattle.std.specs.Prelude.{◌≡◌, ◌≤◌, ◌⊎◌, ◌↔◌, IsErr, is_err, false};
ghost use Rattle.outside_io.specs.Memory.{no_calls, after_call, IsListed};

use crate::source::Failed;
use std::marker::Model;

/// The calls of a source or a sink in memory, some of which are to fail.
#[derive(Debug, Drop)]
pub(crate) struct CountedCalls {
    made: u64,
    failing: Vec<u64>,
    faults: u64,
}

impl Model for CountedCalls {
    ghost use Rattle.outside_io.specs.Memory.{Calls};

    ghost Value = { Calls };

    ghost view = { λ c. record { made = c.made; failing = c.failing.items; faults = c.faults } };
}

impl CountedCalls {
    /// No call yet. Those whose numbers, from 0 on, are listed will fail.
    pub(crate) fn new(failing: Vec<u64>) -> CountedCalls
        ensures { result ≡ no_calls failing.items }
    {
        CountedCalls {
            made: 0,
            failing,
            faults: 0,
        }
    }

    /// Counts a call, which fails where it is listed or can't be served.
    pub(crate) fn admit(&mut self, can_serve: bool) -> Result<(), Failed>
        ensures fails { IsErr result ↔ (IsListed self.old ⊎ (can_serve ≡ false)) }
        ensures after { self.new ≡ after_call self.old (is_err result) }
        ensures kept { self.old.faults ≤ self.new.faults }
    {
        let fails = !can_serve || self.failing.contains(&self.made);
        self.made = self.made.saturating_add(1);
        if fails {
            self.faults = self.faults.saturating_add(1);
            return Err(Failed);
        }
        Ok(())
    }
}
