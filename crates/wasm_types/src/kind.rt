/// Why bytes are no module: what is wrong with the first part that can't be read.
#[derive(Clone, Copy, Debug, PartialEq, Eq)]
pub enum ReadKind {
    /// The body, the section or the input ends.
    Cut,
    /// The header is another.
    Magic,
    /// A number has more bytes than its type allows, or bits that don't count.
    Leb,
    /// A section is unknown, stands twice or is out of order.
    Section,
    /// A start section, which this host doesn't take.
    Start,
    /// A section or a body isn't as long as it says.
    Size,
    /// A text isn't UTF-8.
    Name,
    /// A function type begins with another byte than 60.
    Form,
    /// No type of a number, a block or a table.
    ValueType,
    /// A type or an instruction of floats, which this host doesn't take.
    Float,
    /// A function has more than one result.
    Results,
    /// An import or an export is of no known sort.
    Kind,
    /// A flag of limits or of mutability is neither 0 nor 1.
    Flag,
    /// A byte 00 is wanted.
    Reserved,
    /// An instruction is unknown, or not one that a constant expression has.
    Opcode,
    /// An `else` without `if`, or an `end` is missing.
    Nesting,
    /// A function declares more than 4,096 locals.
    Locals,
    /// There are more or fewer functions than codes.
    Count,
}

/// Why a module isn't valid.
#[derive(Clone, Copy, Debug, PartialEq, Eq)]
pub enum ValidKind {
    TypeIndex,
    FuncIndex,
    TableIndex,
    MemoryIndex,
    GlobalIndex,
    LocalIndex,
    Label,
    /// An operand is missing.
    Underflow,
    /// An operand is of another type.
    Mismatch,
    /// Operands are left where a block ends.
    Leftover,
    /// An alignment is above the natural one.
    Align,
    /// An immutable global is assigned.
    Immutable,
    /// An initialiser or offset isn't constant or of another type.
    Init,
    ExportTwice,
    ManyTables,
    ManyMemories,
    Limits,
}
