/// A step of the node. Codes are named by numbers.
#[derive(Debug, Drop)]
pub enum CoreEvent {
    /// A height is published.
    Publish { height: u64 },
    /// A reader asks for a height, or for the newest.
    Enter { reader: u32, height: Option<u64> },
    /// An actor looks whether the cache holds the module of a code.
    Look { actor: u32, code: u32 },
    /// An actor puts the module of a code into the cache.
    Stow { actor: u32, code: u32 },
    /// These codes are pinned from now on.
    Pins { codes: Vec<u32> },
    /// An actor was given a file that is that of the code's module, or wasn't.
    ShelfAnswer { actor: u32, code: u32, good: bool },
    /// A reader is told the newest height.
    Tell { reader: u32 },
}
