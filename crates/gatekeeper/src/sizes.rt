ghost use Rattle.std.specs.Prelude.{◌≡◌};
ghost use Rattle.wasm_types.specs.Plain.{plain_module};
ghost use Rattle.wasm_types.specs.Gate.{first_some};
ghost use Rattle.gatekeeper.specs.Judging.{Judges};
ghost use Rattle.gatekeeper.specs.Rules.{memory_rules, table_rules};

use crate::stop::GateStop;
use wasm_types::{GateRefusal, Module};

/// In pages.
const MOST_INITIAL_PAGES: u32 = 512;

const MOST_TABLE_ELEMENTS: u32 = 2500;

pub fn check_memory(m: &Module) -> Result<(), GateStop>
    ensures { Judges result (first_some (memory_rules (plain_module m.now))) }
{
    match m.memories.as_slice() {
        [] => Err(GateStop::Refused(GateRefusal::MemoryMissing)),
        [size, ..] => {
            if size.max.is_some() {
                return Err(GateStop::Refused(GateRefusal::MemoryMax));
            }
            if size.min > MOST_INITIAL_PAGES {
                return Err(GateStop::Refused(GateRefusal::MemoryInitial(size.min)));
            }
            Ok(())
        }
    }
}

pub fn check_table(m: &Module) -> Result<(), GateStop>
    ensures { Judges result (first_some (table_rules (plain_module m.now))) }
{
    match m.tables.as_slice() {
        [] => Ok(()),
        [size, ..] => match size.max {
            None => Err(GateStop::Refused(GateRefusal::TableNoMax)),
            Some(max) => {
                if max > MOST_TABLE_ELEMENTS {
                    return Err(GateStop::Refused(GateRefusal::TableSize(max)));
                }
                Ok(())
            }
        },
    }
}
