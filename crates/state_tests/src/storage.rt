use gas_meter::{Meter, Schedule};
use gas_store::{Scoped, StoreStop};
use kv_layers::{Layers, Order, Plain};
use std::alloc::Global;
use std::test::Fail;

const ADDR: [u8; 3] = [0x44, 0xFF, 0xFF];

/// A storage in which these keys have the value AA.
fn filled(
    alloc: Global,
    layers: &mut Layers<Plain>,
    addr: &[u8; 3],
    keys: &[u8],
) -> Result<Scoped, StoreStop> {
    let mut store = Scoped::new(alloc, addr, false)?;
    let mut meter = Meter::new(1_000_000);
    let costs = Schedule::standard();
    for key in keys {
        store.set(alloc, layers, &[*key], &[0xAA], &mut meter, &costs)?;
    }
    Ok(store)
}

/// The one byte of the key that a scan gives next.
fn next_key(
    alloc: Global,
    store: &mut Scoped,
    layers: &mut Layers<Plain>,
    scan: u32,
    meter: &mut Meter,
) -> Result<Option<u8>, StoreStop> {
    let found = store.next(alloc, layers, scan, meter, &Schedule::standard())?;
    match found {
        Some((key, _)) => Ok(key.first().copied()),
        None => Ok(None),
    }
}

#[test]
fn a_scan_reads_the_storage_as_it_is_and_each_step_is_charged(rt: HostRuntime) -> Result<(), Fail> {
    let alloc = rt.alloc();
    let costs = Schedule::standard();
    let mut layers = Layers::new(alloc, Plain::new(alloc));
    let mut store = filled(alloc, &mut layers, &ADDR, &[1, 2, 3])?;
    let mut meter = Meter::new(10_000);
    let scan = store.start_scan(alloc, None, None, Order::Ascending, &mut meter, &costs)?;
    assert_eq!(rt; scan, 1);
    assert_eq!(rt;
        next_key(alloc, &mut store, &mut layers, scan, &mut meter)?,
        Some(1)
    );
    store.remove(alloc, &mut layers, &[2], &mut meter, &costs)?;
    assert_eq!(rt;
        next_key(alloc, &mut store, &mut layers, scan, &mut meter)?,
        Some(3)
    );
    assert_eq!(rt;
        next_key(alloc, &mut store, &mut layers, scan, &mut meter)?,
        None
    );
    assert_eq!(rt; meter.used(), 2102);

    let mut layers = Layers::new(alloc, Plain::new(alloc));
    let mut store = filled(alloc, &mut layers, &ADDR, &[1, 2, 3])?;
    let mut meter = Meter::new(10_000);
    let scan = store.start_scan(
        alloc,
        Some(&[1]),
        Some(&[3]),
        Order::Descending,
        &mut meter,
        &costs,
    )?;
    assert_eq!(rt;
        next_key(alloc, &mut store, &mut layers, scan, &mut meter)?,
        Some(2)
    );
    assert_eq!(rt;
        next_key(alloc, &mut store, &mut layers, scan, &mut meter)?,
        Some(1)
    );
    assert_eq!(rt;
        next_key(alloc, &mut store, &mut layers, scan, &mut meter)?,
        None
    );
    assert_eq!(rt; meter.used(), 1108);
    Ok(())
}

#[test]
fn keys_ahead_of_a_scan_count_and_those_behind_and_of_others_do_not(
    rt: HostRuntime,
) -> Result<(), Fail> {
    let alloc = rt.alloc();
    let costs = Schedule::standard();
    // an order, keys that are added and removed after the first entry, and what a scan then gives
    for (order, first, added, removed, then) in [
        (Order::Ascending, 2, [1, 5], 4, [Some(5), Some(6), None]),
        (Order::Descending, 6, [7, 3], 4, [Some(3), Some(2), None]),
    ] {
        let mut layers = Layers::new(alloc, Plain::new(alloc));
        let mut store = filled(alloc, &mut layers, &ADDR, &[2, 4, 6])?;
        filled(alloc, &mut layers, &[0x44, 0xFF, 0xFE], &[2, 3, 9])?;
        filled(alloc, &mut layers, &[0x45, 0, 0], &[0, 3])?;
        let mut meter = Meter::new(1_000_000);
        let scan = store.start_scan(alloc, None, None, order, &mut meter, &costs)?;
        assert_eq!(rt;
            next_key(alloc, &mut store, &mut layers, scan, &mut meter)?,
            Some(first)
        );
        for key in &added {
            store.set(alloc, &mut layers, &[*key], &[0xBB], &mut meter, &costs)?;
        }
        store.remove(alloc, &mut layers, &[removed], &mut meter, &costs)?;
        for want in then {
            assert_eq!(rt;
                next_key(alloc, &mut store, &mut layers, scan, &mut meter)?,
                want
            );
        }
    }
    Ok(())
}

#[test]
fn each_refusal_has_its_cause(rt: HostRuntime) -> Result<(), Fail> {
    let alloc = rt.alloc();
    let costs = Schedule::standard();
    let mut layers = Layers::new(alloc, Plain::new(alloc));
    let mut store = filled(alloc, &mut layers, &ADDR, &[1])?;
    let mut query = Scoped::new(alloc, &ADDR, true)?;
    assert_eq!(rt; query.is_read_only(), true);
    let mut meter = Meter::new(5_000);
    assert_eq!(rt;
        query.set(alloc, &mut layers, &[2], &[], &mut meter, &costs),
        Err(StoreStop::WriteInQuery)
    );
    assert_eq!(rt;
        query.remove(alloc, &mut layers, &[1], &mut meter, &costs),
        Err(StoreStop::WriteInQuery)
    );
    assert_eq!(rt;
        store.set(alloc, &mut layers, &[2], &[], &mut meter, &costs),
        Err(StoreStop::EmptyValue)
    );
    for scan in [0, 1, u32::MAX] {
        assert_eq!(rt;
            next_key(alloc, &mut store, &mut layers, scan, &mut meter),
            Err(StoreStop::NoSuchScan)
        );
    }
    assert_eq!(rt; meter.used(), 0);
    let value = query.get(alloc, &mut layers, &[1], &mut meter, &costs)?;
    assert_eq!(rt; value.map(|value| value.len()), Some(1));
    assert_eq!(rt; meter.used(), 1006);
    let value = query.get(alloc, &mut layers, &[2], &mut meter, &costs)?;
    assert_eq!(rt; value.is_none(), true);
    assert_eq!(rt; meter.used(), 2009);
    store.set(alloc, &mut layers, &[2], &[0xBB], &mut meter, &costs)?;
    assert_eq!(rt; meter.used(), 4069);
    assert_eq!(rt;
        store.remove(alloc, &mut layers, &[1], &mut meter, &costs),
        Err(StoreStop::OutOfGas)
    );
    assert_eq!(rt; meter.left(), 0);
    let value = store.get(alloc, &mut layers, &[1], &mut Meter::new(2_000), &costs)?;
    assert_eq!(rt; value.is_some(), true);
    Ok(())
}

#[test]
fn a_call_has_so_many_scans_and_bytes_of_bounds(rt: HostRuntime) -> Result<(), Fail> {
    let alloc = rt.alloc();
    let costs = Schedule::standard();
    let mut store = Scoped::new(alloc, &ADDR, false)?;
    let mut meter = Meter::new(u64::MAX);
    for number in 1..65_537u32 {
        let scan = store.start_scan(alloc, None, None, Order::Ascending, &mut meter, &costs)?;
        assert_eq!(rt; scan, number);
    }
    let more = store.start_scan(alloc, None, None, Order::Ascending, &mut meter, &costs);
    assert_eq!(rt; more, Err(StoreStop::TooManyScans));

    let mut store = Scoped::new(alloc, &ADDR, false)?;
    let bound = Vec::from_elem(alloc, 7u8, 65_536)?;
    for _ in 0..256 {
        store.start_scan(
            alloc,
            Some(&bound),
            None,
            Order::Descending,
            &mut meter,
            &costs,
        )?;
    }
    let more = store.start_scan(
        alloc,
        None,
        Some(&[7]),
        Order::Ascending,
        &mut meter,
        &costs,
    );
    assert_eq!(rt; more, Err(StoreStop::TooManyScans));
    assert_eq!(rt;
        store.start_scan(alloc, None, None, Order::Ascending, &mut meter, &costs)?,
        257
    );
    Ok(())
}
