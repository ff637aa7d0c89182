use node_core::{Core, CoreAnswer, CoreEvent};
use std::alloc::Global;
use std::process::Abort;
use std::test::Fail;

/// The answers to these events, one after the other.
fn expect_answers<R: Abort>(
    rt: &R,
    alloc: Global,
    core: &mut Core,
    run: &[(CoreEvent, CoreAnswer)],
) -> Result<(), Fail> {
    for (event, answer) in run {
        assert_eq!(rt; core.step(alloc, event)?, *answer);
    }
    Ok(())
}

fn asks(height: Option<u64>) -> CoreEvent {
    CoreEvent::Enter { reader: 0, height }
}

fn looks(code: u32) -> CoreEvent {
    CoreEvent::Look { actor: 0, code }
}

fn stows(code: u32) -> CoreEvent {
    CoreEvent::Stow { actor: 0, code }
}

#[test]
fn heights_come_in_order_and_old_ones_are_pruned(rt: HostRuntime) -> Result<(), Fail> {
    let alloc = rt.alloc();
    let mut core = Core::new(alloc, 2, 1, 1)?;
    let pruned = CoreAnswer::Pruned {
        oldest: 1,
        newest: 2,
    };
    let entered = CoreAnswer::Entered {
        newest: 2,
        height: 2,
    };
    let run = [
        (CoreEvent::Publish { height: 2 }, CoreAnswer::Refused),
        (CoreEvent::Publish { height: 1 }, CoreAnswer::Nothing),
        (CoreEvent::Publish { height: 2 }, CoreAnswer::Nothing),
        (CoreEvent::Tell { reader: 0 }, CoreAnswer::Nothing),
        (CoreEvent::Tell { reader: 1 }, CoreAnswer::Refused),
        (asks(Some(0)), pruned),
        (asks(Some(3)), CoreAnswer::NotYet { newest: 2 }),
        (asks(None), entered),
    ];
    expect_answers(&rt, alloc, &mut core, &run)
}

#[test]
fn codes_are_found_while_they_are_held(rt: HostRuntime) -> Result<(), Fail> {
    let alloc = rt.alloc();
    let mut core = Core::new(alloc, 2, 1, 1)?;
    let found = CoreAnswer::Found { module: 5 };
    let answered = CoreEvent::ShelfAnswer {
        actor: 1,
        code: 7,
        good: true,
    };
    let pins = CoreEvent::Pins {
        codes: vec![in alloc; 5]?,
    };
    let run = [
        (looks(5), CoreAnswer::Missing),
        (stows(5), CoreAnswer::Nothing),
        (looks(5), found),
        (stows(6), CoreAnswer::Nothing),
        (looks(5), CoreAnswer::Missing),
        (pins, CoreAnswer::Nothing),
        (looks(5), found),
        (answered, CoreAnswer::Found { module: 7 }),
    ];
    expect_answers(&rt, alloc, &mut core, &run)
}

/// How many codes the core keeps below.
const KEPT: u32 = 128;

/// A look at a code, which is then stowed if it's missing, beside a list of the codes that were used last.
fn look_or_stow<R: Abort>(
    rt: &R,
    alloc: Global,
    core: &mut Core,
    list: &mut Vec<u32>,
    code: u32,
) -> Result<(), Fail> {
    let answer = core.step(alloc, &looks(code))?;
    if list.contains(&code) {
        assert_eq!(rt; answer, CoreAnswer::Found { module: code });
    } else {
        assert_eq!(rt; answer, CoreAnswer::Missing);
        assert_eq!(rt; core.step(alloc, &stows(code))?, CoreAnswer::Nothing);
    }
    list.retain(|other| *other != code);
    list.insert(0, code)?;
    list.truncate(KEPT as usize);
    Ok(())
}

#[test]
fn a_full_core_drops_the_code_whose_use_is_longest_ago(rt: HostRuntime) -> Result<(), Fail> {
    let alloc = rt.alloc();
    let mut core = Core::new(alloc, 2, KEPT, 1)?;
    let mut list = Vec::new(alloc);
    let mut number = 0u32;
    for _ in 0..500 {
        number = number.wrapping_mul(29).wrapping_add(17) % 1021;
        look_or_stow(&rt, alloc, &mut core, &mut list, number % 140)?;
    }
    for code in 200..=200u32.saturating_add(KEPT) {
        look_or_stow(&rt, alloc, &mut core, &mut list, code)?;
    }
    assert_eq!(rt; core.step(alloc, &looks(200))?, CoreAnswer::Missing);
    assert_eq!(rt;
        core.step(alloc, &looks(201))?,
        CoreAnswer::Found { module: 201 }
    );
    Ok(())
}
