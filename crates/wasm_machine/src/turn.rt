use wasm_types::Value;

/// Why a call can't go on.
#[derive(Clone, Copy, Debug, PartialEq, Eq)]
pub enum TrapKind {
    /// The instruction `unreachable`, or one that stands where no valid module has it.
    Unreachable,
    DivideByZero,
    IntegerOverflow,
    /// A load or a store past the end of the memory.
    OutOfBounds,
    /// `call_indirect` of a place past the end of the table.
    TableBounds,
    /// `call_indirect` of a place that holds no function.
    TableEmpty,
    /// `call_indirect` of a function of another type.
    TableType,
    /// More than 512 frames, or more than 131,072 operands and locals.
    StackOverflow,
}

/// Where a run comes to a stop.
#[derive(Debug, Drop, PartialEq, Eq)]
pub enum Turn {
    /// The newest call is over, with this value.
    Done(Option<Value>),
    Trap(TrapKind),
    OutOfGas,
    /// An import was called, and waits for its answer.
    Ask { import: u32, args: Vec<Value> },
}

/// Which calls a machine takes.
#[derive(Clone, Copy, Debug, PartialEq, Eq)]
pub enum Phase {
    /// No call is under way.
    Idle,
    /// A call is under way and can be run.
    Ready,
    /// The one call under way waits for an answer.
    Asked,
    /// A call over one that waits for an answer can be run.
    ReadyOver,
    /// A call over one that waits for an answer waits for an answer too.
    AskedOver,
    /// A call ended with a trap, or without gas, or without memory.
    Spent,
}
