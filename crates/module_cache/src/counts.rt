ghost use Rattle.std.specs.Prelude.{◌≡◌};
ghost use Rattle.module_cache.specs.Counted.{counted, no_counts};

use gatekeeper::Served;

/// How many fetches were served from where. Each number stays at 2^64 - 1 once there.
#[derive(Clone, Copy, Debug, PartialEq, Eq)]
pub struct Counts {
    pub pinned: u64,
    pub recent: u64,
    pub file: u64,
    pub decoded: u64,
}

impl Counts {
    pub(crate) fn none() -> Counts
        ensures { result ≡ no_counts }
    {
        Counts {
            pinned: 0,
            recent: 0,
            file: 0,
            decoded: 0,
        }
    }

    /// One more fetch that was served so.
    pub(crate) fn count(&mut self, served: Served)
        ensures { self.new ≡ counted self.old served }
    {
        match served {
            Served::Pinned => self.pinned = self.pinned.saturating_add(1),
            Served::Recent => self.recent = self.recent.saturating_add(1),
            Served::File => self.file = self.file.saturating_add(1),
            Served::Decoded => self.decoded = self.decoded.saturating_add(1),
        }
    }
}
