use crate::counting::{CountingShelf, codes};
use crate::served::expect_served;
use gatekeeper::{Modules, Served, ValidCode};
use module_cache::{CacheState, Counts, Owned, Shared};
use module_shelves::MemShelf;
use outside_io::{NoShelf, Shelf};
use std::alloc::{AllocError, Global};
use std::process::Abort;
use std::sync::atomic::{AtomicU64, Ordering};
use std::test::Fail;

/// Which code is fetched next, in no order that a cache could follow.
fn next(number: usize) -> usize {
    (number.wrapping_mul(29).wrapping_add(17)) % 61
}

/// How a list serves the code that takes the newest first and keeps this many.
fn list_serves(list: &mut Vec<usize>, size: usize, code: usize) -> Result<Served, AllocError> {
    let held = list.contains(&code);
    list.retain(|other| *other != code);
    list.insert(0, code)?;
    list.truncate(size);
    if held {
        Ok(Served::Recent)
    } else {
        Ok(Served::Decoded)
    }
}

fn fetches_as_a_list<R: Abort>(
    rt: &R,
    alloc: Global,
    codes: &[ValidCode],
    size: u32,
) -> Result<(), Fail> {
    let mut cache = Owned::new(alloc, size.clamp(1, 128), NoShelf)?;
    let mut list = Vec::new(alloc);
    let mut number = 0usize;
    for _ in 0..40 {
        number = next(number);
        let at = number % 5;
        if let Some(code) = codes.get(at) {
            let (_, served) = cache.fetch(alloc, code)?;
            assert_eq!(rt; served, list_serves(&mut list, size as usize, at)?);
        }
    }
    Ok(())
}

#[test]
fn fetches_are_served_as_by_a_plain_list(rt: HostRuntime) -> Result<(), Fail> {
    let alloc = rt.alloc();
    let codes = codes(alloc, 5)?;
    for size in [1, 2, 128] {
        fetches_as_a_list(&rt, alloc, &codes, size)?;
    }
    Ok(())
}

#[test]
fn pins_stand_beside_the_recent_ones(rt: HostRuntime) -> Result<(), Fail> {
    let alloc = rt.alloc();
    let codes = codes(alloc, 3)?;
    let mut cache = Owned::new(alloc, 1, NoShelf)?;
    let before = [(0, Served::Decoded), (1, Served::Decoded)];
    expect_served(&rt, alloc, &mut cache, &codes, &before)?;
    let first = codes.get(..2).ok_or("too few codes")?;
    cache.warm(alloc, first)?;
    let after = [
        (0, Served::Pinned),
        (1, Served::Pinned),
        (2, Served::Decoded),
        (0, Served::Pinned),
        (2, Served::Recent),
    ];
    expect_served(&rt, alloc, &mut cache, &codes, &after)?;
    cache.warm(alloc, first)?;
    cache.warm(alloc, &[])?;
    let dropped = [(1, Served::Decoded), (1, Served::Recent)];
    expect_served(&rt, alloc, &mut cache, &codes, &dropped)?;
    let counts = Counts {
        pinned: 3,
        recent: 2,
        file: 0,
        decoded: 6,
    };
    assert_eq!(rt; cache.counts(), counts);
    Ok(())
}

#[test]
fn a_pinned_hit_leaves_the_recent_ones(rt: HostRuntime) -> Result<(), Fail> {
    let alloc = rt.alloc();
    let codes = codes(alloc, 3)?;
    let mut cache = Owned::new(alloc, 2, NoShelf)?;
    let before = [(0, Served::Decoded), (1, Served::Decoded)];
    expect_served(&rt, alloc, &mut cache, &codes, &before)?;
    cache.warm(alloc, codes.get(..1).ok_or("no code")?)?;
    let after = [
        (1, Served::Recent),
        (0, Served::Pinned),
        (2, Served::Decoded),
        (1, Served::Recent),
    ];
    expect_served(&rt, alloc, &mut cache, &codes, &after)
}

#[test]
fn the_one_recent_code_may_be_pinned_too(rt: HostRuntime) -> Result<(), Fail> {
    let alloc = rt.alloc();
    let codes = codes(alloc, 2)?;
    let pins = codes.get(..1).ok_or("no code")?;
    let mut cache = Owned::new(alloc, 1, NoShelf)?;
    expect_served(&rt, alloc, &mut cache, &codes, &[(0, Served::Decoded)])?;
    cache.warm(alloc, pins)?;
    expect_served(&rt, alloc, &mut cache, &codes, &[(0, Served::Pinned)])?;
    cache.warm(alloc, &[])?;
    expect_served(&rt, alloc, &mut cache, &codes, &[(0, Served::Recent)])?;
    cache.warm(alloc, pins)?;
    let after = [
        (1, Served::Decoded),
        (0, Served::Pinned),
        (1, Served::Recent),
    ];
    expect_served(&rt, alloc, &mut cache, &codes, &after)
}

/// A shelf in memory, whose calls of these numbers fail.
fn placed_shelf(alloc: Global, failing: Vec<u64>) -> Result<MemShelf, Fail> {
    let mut shelf = MemShelf::new(Vec::new(alloc), failing);
    shelf.place("cache")?;
    Ok(shelf)
}

/// A cache that keeps one recent module, over a shelf in memory.
fn cache_over(alloc: Global, failing: Vec<u64>) -> Result<Owned<MemShelf>, Fail> {
    Ok(Owned::new(alloc, 1, placed_shelf(alloc, failing)?)?)
}

#[test]
fn a_decoded_module_is_kept_as_a_file(rt: HostRuntime) -> Result<(), Fail> {
    let alloc = rt.alloc();
    let codes = codes(alloc, 2)?;
    let mut cache = cache_over(alloc, Vec::new(alloc))?;
    let script = [
        (0, Served::Decoded),
        (1, Served::Decoded),
        (0, Served::File),
        (0, Served::Recent),
        (1, Served::File),
    ];
    expect_served(&rt, alloc, &mut cache, &codes, &script)?;
    let shared = Shared::new(alloc, 1, placed_shelf(alloc, Vec::new(alloc))?)?;
    expect_served(&rt, alloc, &mut shared.user(&rt), &codes, &script)
}

#[test]
fn a_fault_of_the_shelf_ends_no_fetch(rt: HostRuntime) -> Result<(), Fail> {
    let alloc = rt.alloc();
    let codes = codes(alloc, 2)?;
    for failing in 1..9u64 {
        let mut cache = cache_over(alloc, vec![in alloc; failing]?)?;
        for at in [0, 1, 0, 1] {
            let code = codes.get(at).ok_or("no such code")?;
            let _ = cache.fetch(alloc, code)?;
        }
        let counts = cache.counts();
        assert_eq!(rt; counts.file.wrapping_add(counts.decoded), 4);
    }
    Ok(())
}

#[test]
fn a_hit_makes_no_call_of_the_shelf(rt: HostRuntime) -> Result<(), Fail> {
    let alloc = rt.alloc();
    let codes = codes(alloc, 1)?;
    let calls = AtomicU64::new(0);
    let mut cache = Owned::new(alloc, 1, CountingShelf::new(&calls))?;
    expect_served(&rt, alloc, &mut cache, &codes, &[(0, Served::Decoded)])?;
    assert_eq!(rt; calls.load(Ordering::SeqCst), 2);
    expect_served(&rt, alloc, &mut cache, &codes, &[(0, Served::Recent)])?;
    cache.warm(alloc, &codes)?;
    expect_served(&rt, alloc, &mut cache, &codes, &[(0, Served::Pinned)])?;
    assert_eq!(rt; calls.load(Ordering::SeqCst), 2);
    Ok(())
}

#[test]
fn a_shared_cache_keeps_what_it_found(rt: HostRuntime) -> Result<(), Fail> {
    let alloc = rt.alloc();
    let codes = codes(alloc, 2)?;
    let first = codes.first().ok_or("no code")?;
    let last = codes.last().ok_or("no code")?;
    let calls = AtomicU64::new(0);
    let shared = Shared::new(alloc, 1, CountingShelf::new(&calls))?;
    let mut user = shared.user(&rt);
    assert_eq!(rt; user.fetch(alloc, first)?.1, Served::Decoded);
    assert_eq!(rt; calls.load(Ordering::SeqCst), 2);
    assert_eq!(rt; user.fetch(alloc, first)?.1, Served::Recent);
    assert_eq!(rt; calls.load(Ordering::SeqCst), 2);
    let pins = codes.get(..1).ok_or("no code")?;
    user.warm(alloc, pins)?;
    assert_eq!(rt; user.fetch(alloc, last)?.1, Served::Decoded);
    assert_eq!(rt; calls.load(Ordering::SeqCst), 4);
    assert_eq!(rt; user.fetch(alloc, first)?.1, Served::Pinned);
    assert_eq!(rt; calls.load(Ordering::SeqCst), 4);
    Ok(())
}

#[test]
fn a_held_module_is_shared(rt: HostRuntime) -> Result<(), Fail> {
    let alloc = rt.alloc();
    let codes = codes(alloc, 2)?;
    let mut state = CacheState::new(alloc, 2)?;
    let mut source = gatekeeper::Decoding::new();
    for code in &codes {
        assert_eq!(rt; state.look(code), None);
        let (made, _) = source.fetch(alloc, code)?;
        state.stow(alloc, code, &made)?;
        assert_eq!(rt; state.look(code), Some(Served::Recent));
        let found = state.share(code)?.ok_or("nothing held")?;
        assert!(rt; *found == *made);
    }
    Ok(())
}
