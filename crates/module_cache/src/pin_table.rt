ghost use Rattle.std.specs.Prelude.{◌≡◌, ◌≤◌, [], ◌∷◌, ◌++◌, false, map, take, length, is_some, bytes_eq, IfOk, OnOk, IfSome};
ghost use Rattle.std.specs.Bool.{OnTrue};
ghost use Rattle.std.specs.List.{IsDistinct, IsDistinct-prop};
ghost use Rattle.std.specs.Arc.{arc_value};
ghost use Rattle.gatekeeper.specs.CodeBytes.{code_bytes};
ghost use Rattle.gatekeeper.specs.Cache.{is_among};
ghost use Rattle.module_cache.specs.Right.{IsModuleOf, AreRight, AreRight-prop, codes_of};

use gatekeeper::ValidCode;
use std::alloc::{AllocError, Global};
use std::sync::Arc;
use wasm_types::Module;

/// Modules of different codes.
#[derive(Drop)]
pub(crate) struct PinTable {
    list: Vec<(ValidCode, Arc<Module>)>,
    ghost right: { AreRight code_bytes list.items } by { AreRight-prop code_bytes list.items },
    ghost differ: { IsDistinct bytes_eq (codes_of code_bytes list.items) } by { IsDistinct-prop bytes_eq (codes_of code_bytes list.items) },
}

/// A code with the same bytes.
fn copy_of(alloc: Global, code: &ValidCode) -> Result<ValidCode, AllocError>
    ensures { IfOk result (λ c. code_bytes c ≡ code_bytes code.now) }
{
    code.is_accepted();
    ValidCode::of_checked(Vec::from_slice(alloc, code.bytes())?)
}

impl PinTable {
    ghost use Rattle.module_cache.specs.Pinned.{pinned_codes};

    pub(crate) fn new(alloc: Global) -> PinTable
        ensures { pinned_codes result ≡ [] }
    {
        PinTable {
            list: Vec::new(alloc),
        }
    }

    pub(crate) fn of(list: Vec<(ValidCode, Arc<Module>)>) -> PinTable
        requires right { AreRight code_bytes list.items }
        requires differ { IsDistinct bytes_eq (codes_of code_bytes list.items) }
        ensures { pinned_codes result ≡ codes_of code_bytes list.items }
    {
        PinTable { list }
    }

    /// That the codes differ, for proofs.
    pub(crate) fn codes_differ(&self)
        ensures { IsDistinct bytes_eq (pinned_codes self.now) }
    {}

    /// The module of the code, if it is there.
    pub(crate) fn get(&self, code: &ValidCode) -> Option<&Arc<Module>>
        ensures found { is_some result ≡ is_among (code_bytes code.now) (pinned_codes self.now) }
        ensures right { IfSome result (λ m. IsModuleOf (code_bytes code.now) (arc_value m.now)) }
    {
        find(&self.list, code)
    }

    /// Whether these are the codes, in this order.
    pub(crate) fn has_codes(&self, codes: &[ValidCode]) -> bool
        ensures { OnTrue result (pinned_codes self.now ≡ map code_bytes codes.now) }
    {
        if self.list.len() != codes.len() {
            return false;
        }
        begins_with(&self.list, codes)
    }

    /// Puts the module of one more code at the end.
    pub(crate) fn add(
        &mut self,
        alloc: Global,
        code: &ValidCode,
        made: Arc<Module>,
    ) -> Result<(), AllocError>
        requires right { IsModuleOf (code_bytes code.now) (arc_value made) }
        requires other { is_among (code_bytes code.now) (pinned_codes self.old) ≡ false }
        ensures { OnOk result (pinned_codes self.new ≡ pinned_codes self.old ++ code_bytes code.now ∷ []) }
    {
        let key = copy_of(alloc, code)?;
        self.list.push((key, made))?;
        Ok(())
    }
}

ghost use Rattle.std.specs.Prelude.{option_copied};
ghost use Rattle.std.specs.Map.{lookup};

fn same_code(code: &ValidCode, other: &ValidCode) -> bool
    ensures { result ≡ bytes_eq (code_bytes code.now) (code_bytes other.now) }
{
    code.bytes() == other.bytes()
}

/// The first module under the code.
fn find<'p>(list: &'p [(ValidCode, Arc<Module>)], code: &ValidCode) -> Option<&'p Arc<Module>>
    ensures { option_copied result ≡ lookup (λ k. bytes_eq (code_bytes code.now) (code_bytes k)) list.now }
{
    for (known, found) in list {
        if same_code(code, known) {
            return Some(found);
        }
    }
    None
}

/// Whether the list has these codes at its first places.
fn begins_with(list: &[(ValidCode, Arc<Module>)], codes: &[ValidCode]) -> bool
    requires { length codes.now ≤ length list.now }
    ensures { OnTrue result (take (length codes.now) (codes_of code_bytes list.now) ≡ map code_bytes codes.now) }
{
    for (i, code) in codes.iter().enumerate() {
        if !same_code(&list[i].0, code) {
            return false;
        }
    }
    true
}
