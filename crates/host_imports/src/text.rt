//! What is told of a fault.

ghost use Rattle.std.specs.Prelude.{◌≡◌};
ghost use Rattle.host_imports.specs.Faults.{trap_name, region_name};

use crate::fault::CallFault;
use linear_memory::RegionBad;
use std::fmt;
use wasm_machine::TrapKind;

fn trap_name(kind: TrapKind) -> &'static str
    ensures { result.now ≡ trap_name kind }
{
    match kind {
        TrapKind::Unreachable => "Unreachable",
        TrapKind::DivideByZero => "DivideByZero",
        TrapKind::IntegerOverflow => "IntegerOverflow",
        TrapKind::OutOfBounds => "OutOfBounds",
        TrapKind::TableBounds => "TableBounds",
        TrapKind::TableEmpty => "TableEmpty",
        TrapKind::TableType => "TableType",
        TrapKind::StackOverflow => "StackOverflow",
    }
}

fn region_name(bad: RegionBad) -> &'static str
    ensures { result.now ≡ region_name bad }
{
    match bad {
        RegionBad::Pointer => "Pointer",
        RegionBad::Offset => "Offset",
        RegionBad::Length => "Length",
        RegionBad::Range => "Range",
        RegionBad::End => "End",
        RegionBad::TooLong {
            length: _,
            limit: _,
        } => "TooLong",
    }
}

/// The fault's name, and then each field behind a space.
impl fmt::Display for CallFault {
    ghost use Rattle.std.specs.Prelude.{Some};
    ghost use Rattle.host_imports.specs.Faults.{fault_view, fault_text};

    ghost output = { λ fault. Some (fault_text (fault_view fault)) };

    fn fmt<W: fmt::Write>(&self, f: &mut fmt::Formatter<W>) -> fmt::Result {
        match self {
            CallFault::Trap(kind) => {
                let kind = trap_name(*kind);
                write!(f, "Trap {kind}")
            }
            CallFault::Aborted(text) => write!(f, "Aborted {text}"),
            CallFault::RegionBad(bad) => {
                let bad = region_name(*bad);
                write!(f, "RegionBad {bad}")
            }
            CallFault::TooLong { length, limit } => write!(f, "TooLong {length} {limit}"),
            CallFault::WriteInQuery => f.write_str("WriteInQuery"),
            CallFault::EmptyValue => f.write_str("EmptyValue"),
            CallFault::BadOrder => f.write_str("BadOrder"),
            CallFault::NoSuchScan => f.write_str("NoSuchScan"),
            CallFault::TooManyScans => f.write_str("TooManyScans"),
            CallFault::ImportInAllocate => f.write_str("ImportInAllocate"),
            CallFault::SignatureOutOfScope => f.write_str("SignatureOutOfScope"),
            CallFault::NoEntry(name) => write!(f, "NoEntry {name}"),
            CallFault::BadResult => f.write_str("BadResult"),
            CallFault::BadEvent => f.write_str("BadEvent"),
        }
    }
}
