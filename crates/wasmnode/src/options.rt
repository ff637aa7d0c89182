ghost use Rattle.std.specs.Prelude.{◌≡◌, [], None, false};

use std::alloc::Global;

/// The options of the commands. A field that a command doesn't take has its default.
#[derive(Debug, Drop)]
pub struct Options {
    /// How many threads answer queries.
    pub workers: u8,
    /// How many of the newest heights can be asked: 1 to 1024.
    pub keep: u32,
    /// How many codes of modules are kept read, besides the pinned ones: 1 to 128.
    pub recent: u32,
    /// The folder of the cache, if there is one.
    pub cache: Option<String>,
    /// Whether the cache's counts are written at the end.
    pub stats: bool,
    /// The capabilities of the chain.
    pub caps: Vec<String>,
    /// The seed of a run that is made.
    pub number: u64,
}

impl Options {
    /// What holds where the words give no option.
    pub fn standard(alloc: Global) -> Options
        ensures counts { (result.workers ≡ 4) × (result.keep ≡ 64) × (result.recent ≡ 32) }
        ensures none { (result.cache ≡ None) × (result.stats ≡ false) × (result.number ≡ 0) }
        ensures caps { result.caps.items ≡ [] }
    {
        Options {
            workers: 4,
            keep: 64,
            recent: 32,
            cache: None,
            stats: false,
            caps: Vec::new(alloc),
            number: 0,
        }
    }
}
