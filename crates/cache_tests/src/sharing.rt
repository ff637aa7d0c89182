use crate::counting::{CountingShelf, FullShelf, codes};
use crate::served::expect_served;
use gatekeeper::{Modules, Served, ValidCode};
use module_cache::{Owned, Shared};
use module_shelves::MemShelf;
use outside_io::{NoShelf, Shelf};
use std::alloc::{AllocError, Global};
use std::process::Abort;
use std::sync::Arc;
use std::sync::atomic::{AtomicU64, Ordering};
use std::test::Fail;
use std::thread::join;

/// Two fetches give one module, which is the one that the cache keeps: none is decoded for the second.
fn expect_one_module<R: Abort, M: Modules>(
    rt: &R,
    alloc: Global,
    cache: &mut M,
    code: &ValidCode,
) -> Result<(), Fail> {
    let (first, _) = cache.fetch(alloc, code)?;
    assert_eq!(rt; Arc::strong_count(&first), 2);
    let (second, served) = cache.fetch(alloc, code)?;
    assert_eq!(rt; served, Served::Recent);
    assert_eq!(rt; Arc::strong_count(&first), 3);
    assert_eq!(rt; Arc::strong_count(&second), 3);
    Ok(())
}

#[test]
fn a_second_fetch_gives_the_module_of_the_first(rt: HostRuntime) -> Result<(), Fail> {
    let alloc = rt.alloc();
    let codes = codes(alloc, 1)?;
    let code = codes.first().ok_or("no code")?;
    let mut owned = Owned::new(alloc, 1, NoShelf)?;
    expect_one_module(&rt, alloc, &mut owned, code)?;
    let shared = Shared::new(alloc, 1, NoShelf)?;
    expect_one_module(&rt, alloc, &mut shared.user(&rt), code)
}

#[test]
fn a_module_of_a_file_is_kept_too(rt: HostRuntime) -> Result<(), Fail> {
    let alloc = rt.alloc();
    let codes = codes(alloc, 2)?;
    let code = codes.first().ok_or("no code")?;
    let before = [(0, Served::Decoded), (1, Served::Decoded)];
    let mut shelf = MemShelf::new(Vec::new(alloc), Vec::new(alloc));
    shelf.place("cache")?;
    let shared = Shared::new(alloc, 1, shelf)?;
    let mut user = shared.user(&rt);
    expect_served(&rt, alloc, &mut user, &codes, &before)?;
    expect_one_module(&rt, alloc, &mut user, code)
}

/// Whatever the shelf does, these fetches of a cache that keeps one recent code are served.
fn expect_all_decoded<R: Abort, M: Modules>(
    rt: &R,
    alloc: Global,
    cache: &mut M,
) -> Result<(), Fail> {
    let script = [
        (0, Served::Decoded),
        (1, Served::Decoded),
        (1, Served::Recent),
        (0, Served::Decoded),
    ];
    expect_served(rt, alloc, cache, &codes(alloc, 2)?, &script)
}

/// A shelf in memory, each of whose calls fails.
fn failing_shelf(alloc: Global) -> Result<MemShelf, Fail> {
    let mut failing = Vec::new(alloc);
    for call in 0..9u64 {
        failing.push(call)?;
    }
    let mut shelf = MemShelf::new(Vec::new(alloc), failing);
    let _ = shelf.place("cache");
    Ok(shelf)
}

#[test]
fn a_shelf_that_always_fails_ends_no_fetch(rt: HostRuntime) -> Result<(), Fail> {
    let alloc = rt.alloc();
    let mut owned = Owned::new(alloc, 1, failing_shelf(alloc)?)?;
    expect_all_decoded(&rt, alloc, &mut owned)?;
    let shared = Shared::new(alloc, 1, failing_shelf(alloc)?)?;
    expect_all_decoded(&rt, alloc, &mut shared.user(&rt))
}

#[test]
fn a_shelf_without_memory_ends_no_fetch(rt: HostRuntime) -> Result<(), Fail> {
    let alloc = rt.alloc();
    let mut owned = Owned::new(alloc, 1, FullShelf)?;
    expect_all_decoded(&rt, alloc, &mut owned)?;
    let shared = Shared::new(alloc, 1, FullShelf)?;
    expect_all_decoded(&rt, alloc, &mut shared.user(&rt))
}

/// Whether codes that were fetched once are served as recent ones from then on, by a cache that another
/// thread uses too.
fn are_kept<M: Modules + Drop>(
    alloc: Global,
    mut cache: M,
    codes: &[ValidCode],
) -> Result<bool, AllocError> {
    for code in codes {
        cache.fetch(alloc, code)?;
    }
    let mut kept = true;
    for _ in 0..20 {
        for code in codes {
            let (_, served) = cache.fetch(alloc, code)?;
            kept = kept && served == Served::Recent;
        }
    }
    Ok(kept)
}

#[test]
fn two_threads_share_what_either_found(rt: HostRuntime) -> Result<(), Fail> {
    let alloc = rt.alloc();
    let codes = codes(alloc, 2)?;
    let calls = AtomicU64::new(0);
    let shared = Shared::new(alloc, 2, CountingShelf::new(&calls))?;
    let (one, other) = join(
        &rt,
        || are_kept(alloc, shared.user(&rt), &codes),
        || are_kept(alloc, shared.user(&rt), &codes),
    );
    assert_eq!(rt; (one, other), (Ok(true), Ok(true)));
    let made = calls.load(Ordering::SeqCst);
    assert!(rt; 4 <= made && made <= 8);
    let after = [(0, Served::Recent), (1, Served::Recent)];
    expect_served(&rt, alloc, &mut shared.user(&rt), &codes, &after)?;
    assert_eq!(rt; calls.load(Ordering::SeqCst), made);
    Ok(())
}
