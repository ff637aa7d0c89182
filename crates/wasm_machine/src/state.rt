use crate::frame::{Caller, Label, Next};
use crate::pile::Pile;
use crate::values::Values;

/// All that changes while a machine runs. The last caller is the newest.
#[derive(Drop)]
pub(crate) struct State {
    pub values: Values,
    pub labels: Pile<Label>,
    pub callers: Vec<Caller>,
    /// How many frames are under way.
    pub depth: usize,
    /// What the newest call does where no function runs.
    pub next: Next,
}
