/// What the core answers to an event.
#[derive(Clone, Copy, Debug, PartialEq, Eq)]
pub enum CoreAnswer {
    Nothing,
    Entered { newest: u64, height: u64 },
    NotYet { newest: u64 },
    Pruned { oldest: u64, newest: u64 },
    Found { module: u32 },
    Missing,
    Refused,
}
