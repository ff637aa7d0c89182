ghost use Rattle.std.specs.Prelude.{◌≡◌, ◌++◌, ◌∷◌, OnOk};
ghost use Rattle.wasm_types.specs.declared.global.GlobalVar.{GlobalVar};
ghost use Rattle.module_file.specs.Form.{long};
ghost use Rattle.module_file.specs.Parts.{value, init, global};
ghost use Rattle.module_file.specs.Gives.{Gives};

use crate::field::Field;
use crate::imports::put_tagged;
use crate::reading::{index_at, long_at};
use crate::stop::Stop;
use crate::types::{flag_at, put_flag};
use std::alloc::{AllocError, Global};
use wasm_types::{GlobalVar, Init, ValType, Value};

/// A byte, and a number of eight bytes.
#[tactic(auto, unfolding(crate::specs::Form::long))]
pub fn put_long(bytes: &mut Vec<u8>, tag: u8, number: u64) -> Result<(), AllocError>
    ensures { OnOk result (bytes.new.items ≡ bytes.old.items ++ tag ∷ long.text number) }
{
    bytes.push(tag)?;
    bytes.extend_from_slice(&number.to_le_bytes())
}

#[tactic(auto, unfolding(crate::specs::Parts::value))]
fn put_value(bytes: &mut Vec<u8>, constant: Value) -> Result<(), AllocError>
    ensures { OnOk result (bytes.new.items ≡ bytes.old.items ++ value.text constant) }
{
    match constant {
        Value::I32(n) => put_tagged(bytes, 0, n),
        Value::I64(n) => put_long(bytes, 1, n),
    }
}

#[tactic(auto, unfolding(crate::specs::Parts::value))]
fn value_at(bytes: &[u8]) -> Result<(Value, &[u8]), Stop>
    ensures { Gives (λ x. (x.0, x.1.now)) result (value.read bytes.now) }
{
    match bytes {
        [0, rest @ ..] => {
            let (n, rest) = index_at(rest)?;
            Ok((Value::I32(n), rest))
        }
        [1, rest @ ..] => {
            let (n, rest) = long_at(rest)?;
            Ok((Value::I64(n), rest))
        }
        _ => Err(Stop::Unreadable),
    }
}

#[tactic(auto, unfolding(crate::specs::Parts::init))]
pub fn put_init(bytes: &mut Vec<u8>, first: Init) -> Result<(), AllocError>
    ensures { OnOk result (bytes.new.items ≡ bytes.old.items ++ init.text first) }
{
    match first {
        Init::Const(value) => {
            bytes.push(0)?;
            put_value(bytes, value)
        }
        Init::Global(index) => put_tagged(bytes, 1, index),
    }
}

#[tactic(auto, unfolding(crate::specs::Parts::init))]
pub fn init_at(bytes: &[u8]) -> Result<(Init, &[u8]), Stop>
    ensures { Gives (λ x. (x.0, x.1.now)) result (init.read bytes.now) }
{
    match bytes {
        [0, rest @ ..] => {
            let (value, rest) = value_at(rest)?;
            Ok((Init::Const(value), rest))
        }
        [1, rest @ ..] => {
            let (index, rest) = index_at(rest)?;
            Ok((Init::Global(index), rest))
        }
        _ => Err(Stop::Unreadable),
    }
}

impl Field for GlobalVar {
    ghost Shown = { GlobalVar };

    ghost shown = { λ g. g };

    ghost written = { global.text };

    ghost holds = { λ _. Unit {0} };

    ghost reading = { global.read };

    #[tactic(auto, unfolding(crate::specs::Parts::global))]
    fn put(&self, bytes: &mut Vec<u8>) -> Result<(), AllocError> {
        self.ty.put(bytes)?;
        put_flag(bytes, self.mutable)?;
        put_init(bytes, self.init)
    }

    #[tactic(auto, unfolding(crate::specs::Parts::global))]
    fn read_at(alloc: Global, bytes: &[u8]) -> Result<(GlobalVar, &[u8]), Stop> {
        let (ty, rest) = ValType::read_at(alloc, bytes)?;
        let (mutable, rest) = flag_at(rest)?;
        let (init, rest) = init_at(rest)?;
        Ok((GlobalVar { ty, mutable, init }, rest))
    }
}
