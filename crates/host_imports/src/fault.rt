//! Why a contract's call fails.

use linear_memory::RegionBad;
use wasm_machine::TrapKind;

/// Why a contract's call fails.
#[derive(Debug, Drop, PartialEq, Eq)]
pub enum CallFault {
    Trap(TrapKind),
    /// The contract ended the call by `abort`, with this text.
    Aborted(String),
    /// A Region that can't be read or written.
    RegionBad(RegionBad),
    /// So many bytes in a Region, of which there may be so many.
    TooLong { length: u32, limit: u32 },
    /// A write or a removal in a query.
    WriteInQuery,
    EmptyValue,
    /// The order of a scan is neither 1 nor 2.
    BadOrder,
    /// No scan has this number.
    NoSuchScan,
    /// Too many scans, or too many bytes in their bounds.
    TooManyScans,
    /// `allocate` or `deallocate` called an import other than `abort`.
    ImportInAllocate,
    /// An import on signatures, which this host doesn't have.
    SignatureOutOfScope,
    /// The contract doesn't export the entry point.
    NoEntry(String),
    /// A result that isn't JSON of its form.
    BadResult,
    /// A name of an attribute or of an event that contracts may not use.
    BadEvent,
}
