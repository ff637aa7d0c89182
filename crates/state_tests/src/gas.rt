use gas_meter::{Meter, OutOfGas, Schedule};

#[test]
fn a_meter_charges_exactly_what_is_left(rt: HostRuntime) {
    let mut meter = Meter::new(100);
    // a charge, whether it is taken, what is left, what is used
    for (n, want, left, used) in [
        (30, Ok(()), 70, 30),
        (0, Ok(()), 70, 30),
        (69, Ok(()), 1, 99),
        (1, Ok(()), 0, 100),
        (0, Ok(()), 0, 100),
        (1, Err(OutOfGas), 0, 100),
    ] {
        assert_eq!(rt; meter.charge(n), want, "at {n}");
        assert_eq!(rt; (meter.left(), meter.used()), (left, used), "after {n}");
    }
    let mut meter = Meter::new(u64::MAX);
    assert_eq!(rt; meter.charge(7), Ok(()));
    assert_eq!(rt; meter.charge(u64::MAX), Err(OutOfGas));
    assert_eq!(rt; (meter.left(), meter.used()), (0, u64::MAX));
}

#[test]
fn a_wide_charge_is_compared_whole(rt: HostRuntime) {
    // a charge of a fresh meter of 100, whether it is taken, what is left
    for (n, want, left) in [
        (100, Ok(()), 0),
        (99, Ok(()), 1),
        (101, Err(OutOfGas), 0),
        (1 << 64, Err(OutOfGas), 0),
        ((1 << 64) + 1, Err(OutOfGas), 0),
        (u128::MAX, Err(OutOfGas), 0),
    ] {
        let mut meter = Meter::new(100);
        assert_eq!(rt; meter.charge_wide(n), want, "at {n}");
        assert_eq!(rt;
            (meter.left(), meter.used()),
            (left, 100 - left),
            "after {n}"
        );
    }
}

#[test]
fn a_part_is_the_smaller_of_its_limit_and_what_is_left(rt: HostRuntime) {
    let mut meter = Meter::new(100);
    assert_eq!(rt; meter.charge(40), Ok(()));
    for (limit, want) in [(0, 0), (59, 59), (60, 60), (61, 60), (u64::MAX, 60)] {
        let part = meter.part(limit);
        assert_eq!(rt; (part.left(), part.used()), (want, 0), "at {limit}");
    }
    let mut part = meter.part(50);
    assert_eq!(rt; part.charge(51), Err(OutOfGas));
    meter.spend(part.used());
    assert_eq!(rt; (meter.left(), meter.used()), (10, 90));
}

#[test]
fn instructions_cost_the_standard_numbers(rt: HostRuntime) {
    let costs = Schedule::standard();
    for (op, want) in [
        (0x00, 1), // unreachable
        (0x02, 1), // block
        (0x05, 0), // else
        (0x0B, 0), // end
        (0x0C, 1), // br
        (0x0E, 2), // br_table
        (0x10, 10), // call
        (0x11, 15), // call_indirect
        (0x24, 1), // global.set
        (0x28, 2), // i32.load
        (0x35, 2), // i64.load32_u
        (0x3E, 2), // i64.store32
        (0x3F, 1), // memory.size
        (0x40, 10), // memory.grow
        (0x41, 1), // i32.const
        (0x6C, 1), // i32.mul
        (0x6D, 4), // i32.div_s
        (0x70, 4), // i32.rem_u
        (0x71, 1), // i32.and
        (0x7E, 1), // i64.mul
        (0x7F, 4), // i64.div_s
        (0x82, 4), // i64.rem_u
        (0x83, 1), // i64.and
        (0xC4, 1), // i64.extend32_s
    ] {
        assert_eq!(rt; costs.cost(op), want, "at {op}");
    }
}
