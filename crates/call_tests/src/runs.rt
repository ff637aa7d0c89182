use crate::bodies::{ALLOCATE, UNREACHABLE, put_body};
use crate::calls::expect_run;
use contract_call::Entry;
use gas_meter::{Meter, Schedule};
use std::alloc::{AllocError, Global};
use std::test::Fail;
use wasm_types::Module;
use wasm_writer::{echo, keeper, sign, spin};

#[test]
fn a_call_costs_its_entry_its_arguments_and_what_the_contract_runs(
    rt: HostRuntime,
) -> Result<(), Fail> {
    let alloc = rt.alloc();
    for (entry, pinned, gas, want, used) in [
        (Entry::Instantiate, false, 99_999, "message", 60_064),
        (Entry::Execute, false, 60_064, "message", 60_064),
        (Entry::Execute, false, 60_063, "out of gas", 60_063),
        (Entry::Execute, false, 60_062, "out of gas", 60_062),
        (Entry::Execute, false, 60_020, "out of gas", 60_020),
        (Entry::Execute, false, 59_999, "out of gas", 59_999),
        (Entry::Execute, true, 5_064, "message", 5_064),
        (Entry::Execute, true, 4_999, "out of gas", 4_999),
        (Entry::Migrate, false, 99_999, "message", 60_043),
        (Entry::Sudo, false, 99_999, "message", 60_043),
        (Entry::Query, true, 99_999, "message", 5_043),
        (
            Entry::Reply,
            false,
            99_999,
            "{\"ok\":{\"data\":\"cg==\"}}",
            60_043,
        ),
    ] {
        let module = echo(alloc)?;
        let _chain = expect_run(&rt, alloc, module, entry, pinned, &[], gas, want, used)?;
    }
    Ok(())
}

/// A contract without `reply`.
fn unreplying(alloc: Global) -> Result<Module, AllocError> {
    let mut module = echo(alloc)?;
    let _reply = module.exports.pop();
    Ok(module)
}

#[test]
fn an_entry_point_that_is_missing_is_told_after_the_charge(rt: HostRuntime) -> Result<(), Fail> {
    let alloc = rt.alloc();
    for (entry, pinned, gas, want, used) in [
        (Entry::Reply, false, 60_000, "NoEntry reply", 60_000),
        (Entry::Reply, false, 59_999, "out of gas", 59_999),
        (Entry::Reply, true, 5_000, "NoEntry reply", 5_000),
        (Entry::Sudo, true, 5_043, "message", 5_043),
    ] {
        let module = unreplying(alloc)?;
        let _chain = expect_run(&rt, alloc, module, entry, pinned, &[], gas, want, used)?;
    }
    Ok(())
}

#[test]
fn an_entry_point_that_is_missing_is_told_before_an_argument_is_given(
    rt: HostRuntime,
) -> Result<(), Fail> {
    let alloc = rt.alloc();
    for (entry, gas, want, used) in [
        (Entry::Reply, 99_999, "NoEntry reply", 60_000),
        (Entry::Sudo, 99_999, "Trap Unreachable", 60_001),
        (Entry::Sudo, 60_000, "out of gas", 60_000),
    ] {
        let mut module = unreplying(alloc)?;
        put_body(alloc, &mut module, ALLOCATE, &[UNREACHABLE])?;
        let _chain = expect_run(&rt, alloc, module, entry, false, &[], gas, want, used)?;
    }
    Ok(())
}

#[test]
fn a_contract_that_never_ends_uses_all_gas(rt: HostRuntime) -> Result<(), Fail> {
    let alloc = rt.alloc();
    let module = spin(alloc)?;
    let _chain = expect_run(
        &rt,
        alloc,
        module,
        Entry::Execute,
        true,
        &[],
        9_999,
        "out of gas",
        9_999,
    )?;
    Ok(())
}

#[test]
fn a_contract_that_asks_for_a_signature_ends(rt: HostRuntime) -> Result<(), Fail> {
    let alloc = rt.alloc();
    let module = sign(alloc)?;
    let _chain = expect_run(
        &rt,
        alloc,
        module,
        Entry::Execute,
        false,
        &[],
        99_999,
        "SignatureOutOfScope",
        60_076,
    )?;
    Ok(())
}

#[test]
fn a_contract_keeps_what_it_writes(rt: HostRuntime) -> Result<(), Fail> {
    let alloc = rt.alloc();
    let costs = Schedule::standard();
    for (gas, want, used, kept) in [
        (62_135, "out of gas", 62_135, Some(b"v".as_slice())),
        (62_136, "message", 62_136, Some(b"v".as_slice())),
        (62_134, "out of gas", 62_134, None),
    ] {
        let module = keeper(alloc)?;
        let mut chain = expect_run(
            &rt,
            alloc,
            module,
            Entry::Execute,
            false,
            &[],
            gas,
            want,
            used,
        )?;
        let mut meter = Meter::new(9_999);
        let layers = &mut chain.layers;
        let found = chain.store.get(alloc, layers, b"k", &mut meter, &costs)?;
        assert_eq!(rt; found.as_deref(), kept, "with {gas} gas");
    }
    Ok(())
}
