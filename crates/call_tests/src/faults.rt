use host_imports::CallFault;
use std::alloc::Global;
use std::process::Abort;
use std::test::Fail;
use wasm_machine::TrapKind;

fn expect_text(rt: &impl Abort, alloc: Global, fault: CallFault, want: &str) -> Result<(), Fail> {
    let told = format!(in alloc; "{fault}")?;
    assert_eq!(rt; told.as_str(), want);
    Ok(())
}

#[test]
fn a_trap_is_told_with_its_kind(rt: HostRuntime) -> Result<(), Fail> {
    let alloc = rt.alloc();
    for (kind, want) in [
        (TrapKind::Unreachable, "Trap Unreachable"),
        (TrapKind::DivideByZero, "Trap DivideByZero"),
        (TrapKind::IntegerOverflow, "Trap IntegerOverflow"),
        (TrapKind::OutOfBounds, "Trap OutOfBounds"),
        (TrapKind::TableBounds, "Trap TableBounds"),
        (TrapKind::TableEmpty, "Trap TableEmpty"),
        (TrapKind::TableType, "Trap TableType"),
        (TrapKind::StackOverflow, "Trap StackOverflow"),
    ] {
        expect_text(&rt, alloc, CallFault::Trap(kind), want)?;
    }
    Ok(())
}

#[test]
fn a_result_of_another_form_is_told(rt: HostRuntime) -> Result<(), Fail> {
    let alloc = rt.alloc();
    expect_text(&rt, alloc, CallFault::BadResult, "BadResult")?;
    expect_text(&rt, alloc, CallFault::BadEvent, "BadEvent")
}
