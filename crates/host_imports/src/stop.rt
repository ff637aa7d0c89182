//! Why a part of the host's work gave nothing.

ghost use Rattle.std.specs.Prelude.{◌≡◌};
ghost use Rattle.host_imports.specs.Faults.{fault_view, region_fault};
ghost use Rattle.host_imports.specs.Refusals.{stop_at};

use crate::fault::CallFault;
use gas_store::StoreStop;
use linear_memory::RegionBad;

/// Why a part of the host's work gave nothing.
#[derive(Debug, Drop)]
pub(crate) enum Stop {
    Fault(CallFault),
    OutOfGas,
    NoMemory,
}

/// The fault of a Region that can't be read or written.
pub(crate) fn region_fault(bad: RegionBad) -> CallFault
    ensures { fault_view result ≡ region_fault bad }
{
    match bad {
        RegionBad::TooLong { length, limit } => CallFault::TooLong { length, limit },
        RegionBad::Pointer
        | RegionBad::Offset
        | RegionBad::Length
        | RegionBad::Range
        | RegionBad::End => CallFault::RegionBad(bad),
    }
}

/// Why a call of the storage did nothing.
pub(crate) fn refusal(stop: StoreStop) -> Stop
    ensures { result ≡ stop_at stop }
{
    match stop {
        StoreStop::OutOfGas => Stop::OutOfGas,
        StoreStop::WriteInQuery => Stop::Fault(CallFault::WriteInQuery),
        StoreStop::EmptyValue => Stop::Fault(CallFault::EmptyValue),
        StoreStop::NoSuchScan => Stop::Fault(CallFault::NoSuchScan),
        StoreStop::TooManyScans => Stop::Fault(CallFault::TooManyScans),
        StoreStop::NoMemory => Stop::NoMemory,
    }
}
