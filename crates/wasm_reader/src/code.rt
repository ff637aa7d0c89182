ghost use Rattle.std.specs.Prelude.{◌≡◌, ◌↔◌, IsTrue};
ghost use Rattle.wasm_types.specs.Part.{sized};
ghost use Rattle.wasm_types.specs.Body.{code};
ghost use Rattle.wasm_types.specs.Plain.{PlainCode, plain_code};

use crate::body::body;
use crate::cursor::Cursor;
use crate::element::Element;
use crate::locals::locals;
use crate::nesting::place_blocks;
use crate::stop::ReadStop;
use crate::types::same_types;
use std::alloc::Global;
use wasm_types::{Code, Instr};

fn same_instrs(instrs: &[Instr], others: &[Instr]) -> bool
    ensures { IsTrue result ↔ (instrs.now ≡ others.now) }
{
    instrs == others
}

impl Element for Code {
    ghost Shown = { PlainCode };

    ghost shown = { plain_code };

    ghost reading = { (sized code).read };

    #[tactic(auto, unfolding(wasm_types::specs::Part::sized_read, wasm_types::specs::Body::code))]
    fn read_at(alloc: Global, cursor: &mut Cursor) -> Result<Code, ReadStop> {
        let mut inside = cursor.part()?;
        let locals = locals(alloc, &mut inside)?;
        let (mut body, targets) = body(alloc, &mut inside)?;
        inside.finish()?;
        place_blocks(alloc, &mut body)?;
        Ok(Code {
            locals,
            targets,
            body,
        })
    }

    fn same(&self, other: &Code) -> bool {
        same_types(&self.locals, &other.locals)
            && self.targets.as_slice() == other.targets.as_slice()
            && same_instrs(&self.body, &other.body)
    }
}
