use wasm_types::{ValType, Value};

/// The frame of a function: its code among the module's, the place of the instruction that comes next,
/// and its result.
#[derive(Clone, Copy, Debug, PartialEq, Eq)]
pub(crate) struct Frame {
    pub code: usize,
    pub place: usize,
    pub result: Option<ValType>,
}

/// A block that is open: its result, the place behind it, the place of a loop's first instruction, and
/// where the floor of the operands was outside.
#[derive(Clone, Copy, Debug, PartialEq, Eq)]
pub(crate) struct Label {
    pub result: Option<ValType>,
    pub after: usize,
    pub start: Option<usize>,
    pub floor: usize,
}

/// Who waits for the end of a call. A function waits with the floors of its operands, locals and labels.
#[derive(Clone, Copy, Debug, PartialEq, Eq)]
pub(crate) enum Caller {
    Host,
    Function {
        frame: Frame,
        operands: usize,
        locals: usize,
        labels: usize,
    },
}

/// What an instruction comes to in the function that runs.
#[derive(Clone, Copy, Debug, PartialEq, Eq)]
pub(crate) enum Event {
    /// The instruction at a place of the function.
    Goes(usize),
    /// The function ends, or calls another one and waits: the state has what comes next.
    Leaves,
}

/// What the newest call comes to where no function runs.
#[derive(Debug, Drop)]
pub(crate) enum Step {
    /// A function runs.
    Runs(Frame),
    Stops(Pause),
}

/// Where a run comes to a stop that isn't the end of everything.
#[derive(Debug, Drop)]
pub(crate) enum Pause {
    /// The newest call of the host is over.
    Done(Option<Value>),
    /// An import was called.
    Asks { import: u32, args: Vec<Value> },
}

/// What the newest call does when it is run next.
#[derive(Clone, Copy, Debug, PartialEq, Eq)]
pub(crate) enum Next {
    /// It begins, with the operands as its arguments.
    Enter(u32),
    /// It gets this answer.
    Give(Option<Value>),
}
