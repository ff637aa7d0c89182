ghost use Rattle.std.specs.Prelude.{◌≡◌, ◌&&◌, ℕ, map, nat_lt, not, Result};
ghost use Rattle.std.specs.List.{list_all};
ghost use Rattle.wasm_types.specs.declared.global.GlobalVar as vars;
ghost use Rattle.wasm_types.specs.declared.kind.ValidKind.{ValidKind};
ghost use Rattle.wasm_types.specs.declared.kind.ValidKind.TheVariants as kinds;
ghost use Rattle.wasm_types.specs.Typing as typing;
ghost use Rattle.wasm_types.specs.Plain.{PlainModule, PlainElem, PlainSeg, plain_elem, plain_seg, plain_module};
ghost use Rattle.wasm_types.specs.Laws.{AreFew};
ghost use Rattle.wasm_types.specs.Typing.{needs};
ghost use Rattle.wasm_types.specs.Validity.{within, init_kept, elem_kept, seg_kept, first_in};
ghost use Rattle.wasm_valid.specs.Stacks.{Ends};
ghost use Rattle.wasm_valid.specs.Spaces.{AreSpaces, Faults};

use crate::context::GlobalType;
use crate::rules::type_of;
use crate::spaces::Spaces;
use crate::stop::ValidStop;
use wasm_types::{Elem, GlobalVar, Init, Module, Seg, ValType, ValidKind};

/// An item of a module that is valid or not by itself.
pub trait Item: Drop {
    /// The plain form of an item.
    ghost Shown: { Type 0 };

    ghost shown: { Self → Shown };

    ghost kept: { PlainModule → Shown → Result (Unit {0}) ValidKind };

    fn check(&self, m: &Module, spaces: &Spaces) -> Result<(), ValidKind>
        requires { AreSpaces spaces.now (plain_module m.now) }
        ensures { Ends result (kept (plain_module m.now) (shown self.now)) };
}

/// The first item that isn't valid.
pub fn check_items<T: Item>(m: &Module, spaces: &Spaces, items: &[T]) -> Result<(), ValidStop>
    requires spaces { AreSpaces spaces.now (plain_module m.now) }
    requires few { AreFew items.now }
    ensures { Faults result (first_in (λ earlier x. T.kept (plain_module m.now) x) (map T.shown items.now)) }
{
    let mut at = 0;
    while at < items.len() {
        match items[at].check(m, spaces) {
            Ok(()) => {}
            Err(kind) => {
                return Err(ValidStop::Invalid {
                    func: None,
                    instr: at as u32,
                    kind,
                });
            }
        }
        at += 1;
    }
    Ok(())
}

/// Whether there is a thing of this number.
pub fn is_there(kind: ValidKind, i: u32, count: usize) -> Result<(), ValidKind>
    ensures { Ends result (needs kind (nat_lt i count)) }
{
    if (i as usize) < count {
        Ok(())
    } else {
        Err(kind)
    }
}

/// A function's type.
impl Item for u32 {
    ghost Shown = { ℕ };

    ghost shown = { λ n. n };

    ghost kept = { λ m ty. within kinds.TypeIndex ty m.types };

    fn check(&self, m: &Module, _spaces: &Spaces) -> Result<(), ValidKind> {
        is_there(ValidKind::TypeIndex, *self, m.types.len())
    }
}

/// Whether a global is imported, isn't mutable and is of this type.
fn may_start(i: u32, imported: usize, g: GlobalType, ty: ValType) -> bool
    ensures { result ≡ (nat_lt i imported && not g.mutable && typing.same_type ty g.ty) }
{
    (i as usize) < imported && !g.mutable && ty == g.ty
}

/// Whether an initialiser is one of this type: a constant, or an imported global that isn't mutable.
pub fn check_init(spaces: &Spaces, ty: ValType, init: Init) -> Result<(), ValidKind>
    ensures { (m : PlainModule) → AreSpaces spaces.now m → Ends result (init_kept m ty init) }
{
    match init {
        Init::Const(value) => {
            if ty == type_of(value) {
                Ok(())
            } else {
                Err(ValidKind::Init)
            }
        }
        Init::Global(i) => match spaces.globals.get(i as usize) {
            None => Err(ValidKind::GlobalIndex),
            Some(g) => {
                if may_start(i, spaces.imported_globals, *g, ty) {
                    Ok(())
                } else {
                    Err(ValidKind::Init)
                }
            }
        },
    }
}

impl Item for GlobalVar {
    ghost Shown = { vars.GlobalVar };

    ghost shown = { λ g. g };

    ghost kept = { λ m g. init_kept m g.ty g.init };

    fn check(&self, _m: &Module, spaces: &Spaces) -> Result<(), ValidKind> {
        check_init(spaces, self.ty, self.init)
    }
}

/// Whether all these functions are there.
fn are_there(funcs: &[u32], count: usize) -> bool
    ensures { result ≡ list_all (λ f. nat_lt f count) funcs.now }
{
    funcs.iter().all(|f| (*f as usize) < count)
}

impl Item for Elem {
    ghost Shown = { PlainElem };

    ghost shown = { plain_elem };

    ghost kept = { elem_kept };

    fn check(&self, _m: &Module, spaces: &Spaces) -> Result<(), ValidKind> {
        is_there(ValidKind::TableIndex, self.table, spaces.tables)?;
        check_init(spaces, ValType::I32, self.offset)?;
        if are_there(&self.funcs, spaces.funcs.len()) {
            Ok(())
        } else {
            Err(ValidKind::FuncIndex)
        }
    }
}

impl Item for Seg {
    ghost Shown = { PlainSeg };

    ghost shown = { plain_seg };

    ghost kept = { seg_kept };

    fn check(&self, _m: &Module, spaces: &Spaces) -> Result<(), ValidKind> {
        is_there(ValidKind::MemoryIndex, self.memory, spaces.memories)?;
        check_init(spaces, ValType::I32, self.offset)
    }
}
