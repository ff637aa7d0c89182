ghost use Rattle.wasm_types.specs.Plain.{PlainCode, plain_code};
ghost use Rattle.wasm_types.specs.Bounds.{IsCode};
ghost use Rattle.module_file.specs.Codes.{code};

use crate::field::{Field, list_at, put_list};
use crate::stop::Stop;
use std::alloc::{AllocError, Global};
use wasm_types::Code;

impl Field for Code {
    ghost Shown = { PlainCode };

    ghost shown = { plain_code };

    ghost written = { code.text };

    ghost holds = { IsCode };

    ghost reading = { code.read };

    #[tactic(auto, unfolding(crate::specs::Codes::code))]
    fn put(&self, bytes: &mut Vec<u8>) -> Result<(), AllocError> {
        put_list(bytes, &self.locals)?;
        put_list(bytes, &self.targets)?;
        put_list(bytes, &self.body)
    }

    #[tactic(auto, unfolding(crate::specs::Codes::code))]
    fn read_at(alloc: Global, bytes: &[u8]) -> Result<(Code, &[u8]), Stop> {
        let (locals, rest) = list_at(alloc, bytes)?;
        let (targets, rest) = list_at(alloc, rest)?;
        let (body, rest) = list_at(alloc, rest)?;
        Ok((
            Code {
                locals,
                targets,
                body,
            },
            rest,
        ))
    }
}
