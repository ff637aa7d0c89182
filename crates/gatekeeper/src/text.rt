ghost use Rattle.std.specs.Prelude.{◌≡◌, IfOk, string_bytes};
ghost use Rattle.wasm_types.specs.Plain.{plain_refusal};
ghost use Rattle.gatekeeper.specs.Texts.{read_name, valid_name, refusal_text};

use std::alloc::{AllocError, Global};
use wasm_types::{GateRefusal, ReadKind, ValidKind};

fn read_name(kind: ReadKind) -> &'static str
    ensures { result.now ≡ read_name kind }
{
    match kind {
        ReadKind::Cut => "Cut",
        ReadKind::Magic => "Magic",
        ReadKind::Leb => "Leb",
        ReadKind::Section => "Section",
        ReadKind::Start => "Start",
        ReadKind::Size => "Size",
        ReadKind::Name => "Name",
        ReadKind::Form => "Form",
        ReadKind::ValueType => "ValueType",
        ReadKind::Float => "Float",
        ReadKind::Results => "Results",
        ReadKind::Kind => "Kind",
        ReadKind::Flag => "Flag",
        ReadKind::Reserved => "Reserved",
        ReadKind::Opcode => "Opcode",
        ReadKind::Nesting => "Nesting",
        ReadKind::Locals => "Locals",
        ReadKind::Count => "Count",
    }
}

fn valid_name(kind: ValidKind) -> &'static str
    ensures { result.now ≡ valid_name kind }
{
    match kind {
        ValidKind::TypeIndex => "TypeIndex",
        ValidKind::FuncIndex => "FuncIndex",
        ValidKind::TableIndex => "TableIndex",
        ValidKind::MemoryIndex => "MemoryIndex",
        ValidKind::GlobalIndex => "GlobalIndex",
        ValidKind::LocalIndex => "LocalIndex",
        ValidKind::Label => "Label",
        ValidKind::Underflow => "Underflow",
        ValidKind::Mismatch => "Mismatch",
        ValidKind::Leftover => "Leftover",
        ValidKind::Align => "Align",
        ValidKind::Immutable => "Immutable",
        ValidKind::Init => "Init",
        ValidKind::ExportTwice => "ExportTwice",
        ValidKind::ManyTables => "ManyTables",
        ValidKind::ManyMemories => "ManyMemories",
        ValidKind::Limits => "Limits",
    }
}

/// Why a code isn't taken: the rule's name, and the value that breaks it.
pub fn refusal_text(alloc: Global, refusal: &GateRefusal) -> Result<String, AllocError>
    ensures { IfOk result (λ text. string_bytes text ≡ refusal_text (plain_refusal refusal.now)) }
{
    match refusal {
        GateRefusal::Gzip => String::from_str(alloc, "Gzip"),
        GateRefusal::TooLarge(length) => format!(in alloc; "TooLarge {length}"),
        GateRefusal::Read { kind, at } => {
            let kind = read_name(*kind);
            format!(in alloc; "Read {kind} {at}")
        }
        GateRefusal::Invalid(kind) => {
            let kind = valid_name(*kind);
            format!(in alloc; "Invalid {kind}")
        }
        GateRefusal::ImportKind(at) => format!(in alloc; "ImportKind {at}"),
        GateRefusal::ImportCount(count) => format!(in alloc; "ImportCount {count}"),
        GateRefusal::ImportUnknown(at) => format!(in alloc; "ImportUnknown {at}"),
        GateRefusal::ImportType(at) => format!(in alloc; "ImportType {at}"),
        GateRefusal::MemoryMissing => String::from_str(alloc, "MemoryMissing"),
        GateRefusal::MemoryMax => String::from_str(alloc, "MemoryMax"),
        GateRefusal::MemoryInitial(pages) => format!(in alloc; "MemoryInitial {pages}"),
        GateRefusal::TableNoMax => String::from_str(alloc, "TableNoMax"),
        GateRefusal::TableSize(max) => format!(in alloc; "TableSize {max}"),
        GateRefusal::ElementRange(at) => format!(in alloc; "ElementRange {at}"),
        GateRefusal::DataRange(at) => format!(in alloc; "DataRange {at}"),
        GateRefusal::ExportMissing(name) => format!(in alloc; "ExportMissing {name}"),
        GateRefusal::InterfaceTwice => String::from_str(alloc, "InterfaceTwice"),
        GateRefusal::ExportType(name) => format!(in alloc; "ExportType {name}"),
        GateRefusal::Capability(name) => format!(in alloc; "Capability {name}"),
    }
}
