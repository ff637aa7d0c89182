//! What each instruction costs, by a field of the schedule.

ghost use Rattle.std.specs.Prelude.{◌≡◌, true};
ghost use Rattle.gas_meter.specs.Ranges.{IsInRange};
ghost use Rattle.wasm_machine.specs.Exec.{price};
ghost use Rattle.wasm_machine.specs.Kinds.{plain_kind, index_kind};
ghost use Rattle.wasm_machine.specs.Prices.{is_cheap, is_cheap_index};
ghost use Rattle.wasm_machine.specs.declared.kind.PlainKind.TheVariants as plain;
ghost use Rattle.wasm_machine.specs.declared.kind.IndexKind.TheVariants as indexed;

use gas_meter::Schedule;

/// An instruction without an operand in the code, but those of the next two functions.
#[inline(always)]
pub(crate) fn cheap(costs: &Schedule, op: u8) -> u64
    requires costs { IsInRange costs.now }
    requires kind { is_cheap (plain_kind op) ≡ true }
    ensures { result ≡ price costs.now op }
{
    match op {
        0x01 | 0x0F | 0x1A..=0x1B | 0x3F => costs.plain,
        0x45 | 0x50 | 0x67..=0x69 | 0x79..=0x7B | 0xA7 | 0xAC..=0xAD | 0xC0..=0xC4 => costs.plain,
        _ => unreachable!(),
    }
}

/// A numeric instruction on two operands.
#[inline(always)]
pub(crate) fn on_two(costs: &Schedule, op: u8) -> u64
    requires costs { IsInRange costs.now }
    requires kind { plain_kind op ≡ plain.OnTwo }
    ensures { result ≡ price costs.now op }
{
    match op {
        0x6D..=0x70 | 0x7F..=0x82 => costs.divide,
        0x46..=0x4F | 0x51..=0x5A | 0x6A..=0x6C | 0x71..=0x78 | 0x7C..=0x7E | 0x83..=0x8A =>
            costs.plain,
        _ => unreachable!(),
    }
}

/// `memory.grow`, without its pages.
#[inline(always)]
pub(crate) fn growth(costs: &Schedule, op: u8) -> u64
    requires costs { IsInRange costs.now }
    requires kind { plain_kind op ≡ plain.MemoryGrow }
    ensures { result ≡ price costs.now op }
{
    match op {
        0x40 => costs.grow,
        _ => unreachable!(),
    }
}

/// An instruction with an index in the code, but calls.
#[inline(always)]
pub(crate) fn cheap_index(costs: &Schedule, op: u8) -> u64
    requires costs { IsInRange costs.now }
    requires kind { is_cheap_index (index_kind op) ≡ true }
    ensures { result ≡ price costs.now op }
{
    match op {
        0x0C..=0x0D | 0x20..=0x24 => costs.plain,
        _ => unreachable!(),
    }
}

/// A call, without the locals.
#[inline(always)]
pub(crate) fn call(costs: &Schedule, op: u8) -> u64
    requires costs { IsInRange costs.now }
    requires kind { index_kind op ≡ indexed.Call }
    ensures { result ≡ price costs.now op }
{
    match op {
        0x10 => costs.call,
        _ => unreachable!(),
    }
}

/// A load or a store.
#[inline(always)]
pub(crate) fn access(costs: &Schedule, op: u8) -> u64
    requires costs { IsInRange costs.now }
    ensures { result ≡ price costs.now op }
{
    match op {
        0x28..=0x3E => costs.memory,
        _ => other(costs, op),
    }
}

/// What stands where no valid module has it.
pub(crate) fn other(costs: &Schedule, op: u8) -> u64
    ensures { result ≡ price costs.now op }
{
    1u64.max(costs.cost(op))
}
