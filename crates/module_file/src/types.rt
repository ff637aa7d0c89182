ghost use Rattle.std.specs.Prelude.{◌≡◌, ◌++◌, OnOk};
ghost use Rattle.wasm_types.specs.declared.value.ValType.{ValType};
ghost use Rattle.wasm_types.specs.declared.limits.Limits.{Limits};
ghost use Rattle.wasm_types.specs.Plain.{PlainFuncType, plain_func_type};
ghost use Rattle.wasm_types.specs.Bounds.{IsFuncType};
ghost use Rattle.module_file.specs.Parts.{val_type_byte, val_type, flag, func_type, limits};
ghost use Rattle.module_file.specs.Gives.{Gives};

use crate::field::{Field, list_at, optional_at, put_index, put_list, put_optional};
use crate::reading::index_at;
use crate::stop::Stop;
use std::alloc::{AllocError, Global};
use wasm_types::{FuncType, Limits, ValType};

fn val_type_byte(ty: ValType) -> u8
    ensures { result ≡ val_type_byte ty }
{
    match ty {
        ValType::I32 => 0x7F,
        ValType::I64 => 0x7E,
    }
}

impl Field for ValType {
    ghost Shown = { ValType };

    ghost shown = { λ t. t };

    ghost written = { val_type.text };

    ghost holds = { λ _. Unit {0} };

    ghost reading = { val_type.read };

    #[tactic(auto, unfolding(crate::specs::Parts::val_type))]
    fn put(&self, bytes: &mut Vec<u8>) -> Result<(), AllocError> {
        bytes.push(val_type_byte(*self))?;
        Ok(())
    }

    #[tactic(auto, unfolding(crate::specs::Parts::val_type))]
    fn read_at(_alloc: Global, bytes: &[u8]) -> Result<(ValType, &[u8]), Stop> {
        match bytes {
            [0x7F, rest @ ..] => Ok((ValType::I32, rest)),
            [0x7E, rest @ ..] => Ok((ValType::I64, rest)),
            _ => Err(Stop::Unreadable),
        }
    }
}

#[tactic(auto, unfolding(crate::specs::Parts::flag))]
pub fn put_flag(bytes: &mut Vec<u8>, on: bool) -> Result<(), AllocError>
    ensures { OnOk result (bytes.new.items ≡ bytes.old.items ++ flag.text on) }
{
    bytes.push(if on { 1 } else { 0 })?;
    Ok(())
}

#[tactic(auto, unfolding(crate::specs::Parts::flag))]
pub fn flag_at(bytes: &[u8]) -> Result<(bool, &[u8]), Stop>
    ensures { Gives (λ x. (x.0, x.1.now)) result (flag.read bytes.now) }
{
    match bytes {
        [0, rest @ ..] => Ok((false, rest)),
        [1, rest @ ..] => Ok((true, rest)),
        _ => Err(Stop::Unreadable),
    }
}

impl Field for FuncType {
    ghost Shown = { PlainFuncType };

    ghost shown = { plain_func_type };

    ghost written = { func_type.text };

    ghost holds = { IsFuncType };

    ghost reading = { func_type.read };

    #[tactic(auto, unfolding(crate::specs::Parts::func_type))]
    fn put(&self, bytes: &mut Vec<u8>) -> Result<(), AllocError> {
        put_list(bytes, &self.params)?;
        put_optional(bytes, &self.result)
    }

    #[tactic(auto, unfolding(crate::specs::Parts::func_type))]
    fn read_at(alloc: Global, bytes: &[u8]) -> Result<(FuncType, &[u8]), Stop> {
        let (params, rest) = list_at(alloc, bytes)?;
        let (result, rest) = optional_at(alloc, rest)?;
        Ok((FuncType { params, result }, rest))
    }
}

impl Field for Limits {
    ghost Shown = { Limits };

    ghost shown = { λ l. l };

    ghost written = { limits.text };

    ghost holds = { λ _. Unit {0} };

    ghost reading = { limits.read };

    #[tactic(auto, unfolding(crate::specs::Parts::limits))]
    fn put(&self, bytes: &mut Vec<u8>) -> Result<(), AllocError> {
        put_index(bytes, self.min)?;
        put_optional(bytes, &self.max)
    }

    #[tactic(auto, unfolding(crate::specs::Parts::limits))]
    fn read_at(alloc: Global, bytes: &[u8]) -> Result<(Limits, &[u8]), Stop> {
        let (min, rest) = index_at(bytes)?;
        let (max, rest) = optional_at(alloc, rest)?;
        Ok((Limits { min, max }, rest))
    }
}
