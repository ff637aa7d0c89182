use crate::kind::{ReadKind, ValidKind};

/// Why the host doesn't take a contract's code. A number names an import or a segment by its place, or
/// gives the size that is too large; a text is the name of an export or a capability.
#[derive(Debug, Drop, PartialEq, Eq)]
pub enum GateRefusal {
    Gzip,
    TooLarge(usize),
    Read { kind: ReadKind, at: usize },
    Invalid(ValidKind),
    ImportKind(u32),
    ImportCount(u32),
    ImportUnknown(u32),
    ImportType(u32),
    MemoryMissing,
    MemoryMax,
    MemoryInitial(u32),
    TableNoMax,
    TableSize(u32),
    ElementRange(u32),
    DataRange(u32),
    ExportMissing(String),
    InterfaceTwice,
    ExportType(String),
    Capability(String),
}
