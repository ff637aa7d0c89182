ghost use Rattle.std.specs.Prelude.{◌≡◌, ◌+◌, ◌*◌, ◌<◌, ◌^◌, length, nat_le, slice_get};
ghost use Rattle.wasm_types.specs.Plain.{PlainElem, PlainSeg, plain_elem, plain_seg, plain_module, element_range, data_range};
ghost use Rattle.wasm_types.specs.Laws.{IsShaped};
ghost use Rattle.wasm_types.specs.Gate.{unless, offset_of, least_size, page, first_some, element_range_rule, data_range_rule};
ghost use Rattle.gatekeeper.specs.Judging.{Judges};
ghost use Rattle.gatekeeper.specs.Rules.{segment_rules};

use crate::judging::{Judge, judge_all};
use crate::stop::GateStop;
use wasm_types::{Elem, GateRefusal, Init, Limits, Module, Seg, Value};

/// In bytes.
const PAGE: u64 = 65_536;

/// An offset, read without sign.
fn offset_of(init: Init) -> u64
    ensures { result ≡ offset_of init }
{
    match init {
        Init::Const(Value::I32(n)) => u64::from(n),
        Init::Const(Value::I64(n)) => n,
        Init::Global(_) => 0,
    }
}

/// The least size of the table or memory of this number.
fn least_size(list: &[Limits], i: u32) -> u32
    ensures { result ≡ least_size (slice_get list.now i) }
{
    match list.get(i as usize) {
        Some(size) => size.min,
        None => 0,
    }
}

/// Whether so much lies within the limit from an offset on.
fn is_within(offset: u64, count: usize, limit: u64) -> bool
    ensures { result ≡ nat_le (offset + count) limit }
{
    if offset > limit {
        return false;
    }
    count as u64 <= limit - offset
}

/// An element segment lies within its table.
#[derive(Drop)]
struct ElementsFit<'a> {
    m: &'a Module,
}

impl<'a> Judge<Elem> for ElementsFit<'a> {
    ghost Shown = { PlainElem };

    ghost shown = { plain_elem };

    ghost refused = { λ self at e. unless (nat_le (offset_of e.offset + length e.funcs)
        (least_size (slice_get (plain_module self.m.now).tables e.table))) (element_range at) };

    fn judge(&self, at: u32, elem: &Elem) -> Result<(), GateStop> {
        let least = u64::from(least_size(&self.m.tables, elem.table));
        if is_within(offset_of(elem.offset), elem.funcs.len(), least) {
            Ok(())
        } else {
            Err(GateStop::Refused(GateRefusal::ElementRange(at)))
        }
    }
}

/// A data segment lies within its memory.
#[derive(Drop)]
struct DataFits<'a> {
    m: &'a Module,
}

impl<'a> Judge<Seg> for DataFits<'a> {
    ghost Shown = { PlainSeg };

    ghost shown = { plain_seg };

    ghost refused = { λ self at s. unless (nat_le (offset_of s.offset + length s.bytes)
        (page * least_size (slice_get (plain_module self.m.now).memories s.memory))) (data_range at) };

    fn judge(&self, at: u32, seg: &Seg) -> Result<(), GateStop> {
        let least = PAGE * u64::from(least_size(&self.m.memories, seg.memory));
        if is_within(offset_of(seg.offset), seg.bytes.len(), least) {
            Ok(())
        } else {
            Err(GateStop::Refused(GateRefusal::DataRange(at)))
        }
    }
}

fn check_elements(m: &Module) -> Result<(), GateStop>
    requires { IsShaped (plain_module m.now) }
    ensures { Judges result (element_range_rule (plain_module m.now)) }
{
    let rule = ElementsFit { m };
    judge_all(&rule, &m.elems)
}

fn check_data(m: &Module) -> Result<(), GateStop>
    requires { IsShaped (plain_module m.now) }
    ensures { Judges result (data_range_rule (plain_module m.now)) }
{
    let rule = DataFits { m };
    judge_all(&rule, &m.segs)
}

pub fn check_segments(m: &Module) -> Result<(), GateStop>
    requires { IsShaped (plain_module m.now) }
    ensures { Judges result (first_some (segment_rules (plain_module m.now))) }
{
    check_elements(m)?;
    check_data(m)
}
