ghost use Rattle.std.specs.Prelude.{◌≡◌, is_some, option_map};
ghost use Rattle.wasm_types.specs.Plain.{PlainImport, plain_import, plain_module, import_kind, import_unknown, import_type};
ghost use Rattle.wasm_types.specs.Laws.{IsShaped};
ghost use Rattle.wasm_types.specs.Gate.{unless, is_func, wanted_type, are_same, desc_type, import_count_rule, import_type_rule, first_some};
ghost use Rattle.gatekeeper.specs.Judging.{Judges};
ghost use Rattle.gatekeeper.specs.Signatures.{plain_signature};
ghost use Rattle.gatekeeper.specs.Rules.{import_rules};

use crate::interface::host_function;
use crate::judging::{Judge, judge_all};
use crate::signature::Signature;
use crate::stop::GateStop;
use wasm_types::{Desc, GateRefusal, Import, Module};

const MOST_IMPORTS: usize = 100;

/// An import is a function.
#[derive(Drop)]
struct AreFunctions;

impl Judge<Import> for AreFunctions {
    ghost Shown = { PlainImport };

    ghost shown = { plain_import };

    ghost refused = { λ self at i. unless (is_func i.desc) (import_kind at) };

    fn judge(&self, at: u32, import: &Import) -> Result<(), GateStop> {
        match import.desc {
            Desc::Func(_) => Ok(()),
            Desc::Table(_) | Desc::Memory(_) | Desc::Global { .. } => {
                Err(GateStop::Refused(GateRefusal::ImportKind(at)))
            }
        }
    }
}

fn check_count(m: &Module) -> Result<(), GateStop>
    requires { IsShaped (plain_module m.now) }
    ensures { Judges result (import_count_rule (plain_module m.now)) }
{
    let count = m.imports.len();
    if count > MOST_IMPORTS {
        return Err(GateStop::Refused(GateRefusal::ImportCount(count as u32)));
    }
    Ok(())
}

/// The type that an import has to have, if its names are known.
fn wanted(import: &Import) -> Option<Signature>
    ensures { option_map plain_signature result ≡ wanted_type (plain_import import.now) }
{
    if import.module.as_str() == "env" {
        host_function(import.name.as_str())
    } else {
        None
    }
}

/// An import has names that the host knows.
#[derive(Drop)]
struct AreKnown;

impl Judge<Import> for AreKnown {
    ghost Shown = { PlainImport };

    ghost shown = { plain_import };

    ghost refused = { λ self at i. unless (is_some (wanted_type i)) (import_unknown at) };

    fn judge(&self, at: u32, import: &Import) -> Result<(), GateStop> {
        match wanted(import) {
            Some(_) => Ok(()),
            None => Err(GateStop::Refused(GateRefusal::ImportUnknown(at))),
        }
    }
}

/// An import is of the type that its names have.
#[derive(Drop)]
struct AreTyped<'a> {
    m: &'a Module,
}

fn has_type(m: &Module, import: &Import) -> bool
    ensures { result ≡ are_same (desc_type (plain_module m.now) import.now.desc) (wanted_type (plain_import import.now)) }
{
    match import.desc {
        Desc::Func(ty) => match m.types.get(ty as usize) {
            Some(ty) => match wanted(import) {
                Some(signature) => signature.is_of(ty),
                None => false,
            },
            None => false,
        },
        Desc::Table(_) | Desc::Memory(_) | Desc::Global { .. } => false,
    }
}

impl<'a> Judge<Import> for AreTyped<'a> {
    ghost Shown = { PlainImport };

    ghost shown = { plain_import };

    ghost refused = { λ self at i. unless (are_same (desc_type (plain_module self.m.now) i.desc) (wanted_type i)) (import_type at) };

    fn judge(&self, at: u32, import: &Import) -> Result<(), GateStop> {
        if has_type(self.m, import) {
            Ok(())
        } else {
            Err(GateStop::Refused(GateRefusal::ImportType(at)))
        }
    }
}

fn check_types(m: &Module) -> Result<(), GateStop>
    requires { IsShaped (plain_module m.now) }
    ensures { Judges result (import_type_rule (plain_module m.now)) }
{
    let rule = AreTyped { m };
    judge_all(&rule, &m.imports)
}

pub fn check_imports(m: &Module) -> Result<(), GateStop>
    requires { IsShaped (plain_module m.now) }
    ensures { Judges result (first_some (import_rules (plain_module m.now))) }
{
    judge_all(&AreFunctions, &m.imports)?;
    check_count(m)?;
    judge_all(&AreKnown, &m.imports)?;
    check_types(m)
}
