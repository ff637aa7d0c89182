ghost use Rattle.std.specs.Prelude.{◌≡◌, ◌&&◌, map, not, codes, drop, string_bytes, nat_eq, option_map};
ghost use Rattle.std.specs.List.{list_any, starts_with};
ghost use Rattle.std.specs.Str.{bytes_eq};
ghost use Rattle.wasm_types.specs.Plain.{PlainExport, plain_export, plain_module, export_missing};
ghost use Rattle.wasm_types.specs.Laws.{AreFew, IsShaped};
ghost use Rattle.wasm_types.specs.Validity.{funcs_of};
ghost use Rattle.wasm_types.specs.Interface.{entry_points, type_named};
ghost use Rattle.wasm_types.specs.Gate.{unless, first_refused, is_exported, is_other_interface, are_same, ext_type, entry_refused, required, capability_refused, export_missing_rule, interface_twice_rule, export_type_rule, capability_rule, first_some};
ghost use Rattle.gatekeeper.specs.Judging.{Judges};
ghost use Rattle.gatekeeper.specs.Signatures.{plain_signature};
ghost use Rattle.gatekeeper.specs.Rules.{export_rules, shown_text};

use crate::interface::entry_point;
use crate::judging::{Judge, judge_all};
use crate::signature::Signature;
use crate::stop::GateStop;
use std::alloc::Global;
use wasm_types::{Export, Ext, GateRefusal, Module};
use wasm_valid::function_types;

fn is_named(export: &Export, name: &str) -> bool
    ensures { result ≡ bytes_eq (plain_export export.now).name name.now }
{
    export.name.as_str() == name
}

fn any_named(exports: &[Export], name: &str) -> bool
    ensures { result ≡ list_any (λ e. bytes_eq (plain_export e).name name.now) exports.now }
{
    exports.iter().any(|export| is_named(export, name))
}

fn is_exported(m: &Module, name: &str) -> bool
    ensures { result ≡ is_exported (plain_module m.now) name.now }
{
    any_named(&m.exports, name)
}

/// An export of this name is there.
fn check_exported(alloc: Global, m: &Module, name: &str) -> Result<(), GateStop>
    ensures { Judges result (unless (is_exported (plain_module m.now) name.now) (export_missing name.now)) }
{
    if is_exported(m, name) {
        return Ok(());
    }
    let name = String::from_str(alloc, name)?;
    Err(GateStop::Refused(GateRefusal::ExportMissing(name)))
}

#[tactic(auto, unfolding(wasm_types::specs::Gate::first_refused))]
fn check_wanted(alloc: Global, m: &Module) -> Result<(), GateStop>
    ensures { Judges result (export_missing_rule (plain_module m.now)) }
{
    match check_exported(alloc, m, "interface_version_8") {
        Ok(()) => {}
        Err(stop) => return Err(stop),
    }
    match check_exported(alloc, m, "allocate") {
        Ok(()) => {}
        Err(stop) => return Err(stop),
    }
    match check_exported(alloc, m, "deallocate") {
        Ok(()) => {}
        Err(stop) => return Err(stop),
    }
    match check_exported(alloc, m, "instantiate") {
        Ok(()) => Ok(()),
        Err(stop) => Err(stop),
    }
}

fn is_other_interface(export: &Export) -> bool
    ensures { result ≡ is_other_interface (plain_export export.now) }
{
    export.name.as_bytes().starts_with(b"interface_version_")
        && export.name.as_str() != "interface_version_8"
}

fn any_other_interface(exports: &[Export]) -> bool
    ensures { result ≡ list_any (λ e. is_other_interface (plain_export e)) exports.now }
{
    exports.iter().any(|export| is_other_interface(export))
}

fn has_other_interface(m: &Module) -> bool
    ensures { result ≡ list_any is_other_interface (plain_module m.now).exports }
{
    any_other_interface(&m.exports)
}

fn check_interface(m: &Module) -> Result<(), GateStop>
    ensures { Judges result (interface_twice_rule (plain_module m.now)) }
{
    if has_other_interface(m) {
        return Err(GateStop::Refused(GateRefusal::InterfaceTwice));
    }
    Ok(())
}

/// An export that the host calls is a function of its type.
#[derive(Drop)]
struct AreEntries<'a> {
    m: &'a Module,
    funcs: &'a [u32],
    ghost all: { funcs.now ≡ funcs_of (plain_module m.now) },
}

fn has_type(m: &Module, funcs: &[u32], ext: Ext, wanted: Signature) -> bool
    requires { funcs.now ≡ funcs_of (plain_module m.now) }
    ensures { result ≡ are_same (ext_type (plain_module m.now) ext) (Some (plain_signature wanted)) }
{
    match ext {
        Ext::Func(i) => match funcs.get(i as usize) {
            Some(ty) => match m.types.get(*ty as usize) {
                Some(ty) => wanted.is_of(ty),
                None => false,
            },
            None => false,
        },
        Ext::Table(_) | Ext::Memory(_) | Ext::Global(_) => false,
    }
}

impl<'a> Judge<Export> for AreEntries<'a> {
    ghost Shown = { PlainExport };

    ghost shown = { plain_export };

    ghost refused = { λ self at e. entry_refused (plain_module self.m.now) e (type_named entry_points e.name) };

    fn judge(&self, _at: u32, export: &Export) -> Result<(), GateStop> {
        match entry_point(export.name.as_str()) {
            None => Ok(()),
            Some(wanted) => {
                if has_type(self.m, self.funcs, export.ext, wanted) {
                    return Ok(());
                }
                Err(GateStop::Refused(GateRefusal::ExportType(export.name.clone()?)))
            }
        }
    }
}

fn judge_entries(m: &Module, funcs: &[u32], exports: &[Export]) -> Result<(), GateStop>
    requires all { funcs.now ≡ funcs_of (plain_module m.now) }
    requires few { AreFew exports.now }
    ensures { Judges result (first_refused (λ at e. entry_refused (plain_module m.now) e (type_named entry_points e.name)) 0 (map plain_export exports.now)) }
{
    let rule = AreEntries { m, funcs };
    judge_all(&rule, exports)
}

fn check_entries(alloc: Global, m: &Module) -> Result<(), GateStop>
    requires { IsShaped (plain_module m.now) }
    ensures { Judges result (export_type_rule (plain_module m.now)) }
{
    let funcs = function_types(alloc, m)?;
    judge_entries(m, &funcs, &m.exports)
}

/// The capability that an export of this name requires.
fn required(name: &str) -> Option<&str>
    ensures { shown_text result ≡ required name.now }
{
    name.strip_prefix("requires_")
}

fn is_same(cap: &String, wanted: &str) -> bool
    ensures { result ≡ bytes_eq (string_bytes cap.now) wanted.now }
{
    cap.as_str() == wanted
}

fn any_same(caps: &[String], wanted: &str) -> bool
    ensures { result ≡ list_any (λ cap. bytes_eq (string_bytes cap) wanted.now) caps.now }
{
    caps.iter().any(|cap| is_same(cap, wanted))
}

fn is_among(caps: &[String], wanted: &str) -> bool
    ensures { result ≡ list_any (λ cap. bytes_eq cap wanted.now) (map string_bytes caps.now) }
{
    any_same(caps, wanted)
}

/// What an export requires is among the capabilities.
#[derive(Drop)]
struct AreCapable<'a> {
    alloc: Global,
    caps: &'a [String],
}

impl<'a> Judge<Export> for AreCapable<'a> {
    ghost Shown = { PlainExport };

    ghost shown = { plain_export };

    ghost refused = { λ self at e. capability_refused (map string_bytes self.caps.now) (required e.name) };

    fn judge(&self, _at: u32, export: &Export) -> Result<(), GateStop> {
        match required(export.name.as_str()) {
            None => Ok(()),
            Some(name) => {
                if is_among(self.caps, name) {
                    return Ok(());
                }
                let name = String::from_str(self.alloc, name)?;
                Err(GateStop::Refused(GateRefusal::Capability(name)))
            }
        }
    }
}

fn check_capabilities(alloc: Global, m: &Module, caps: &[String]) -> Result<(), GateStop>
    requires { IsShaped (plain_module m.now) }
    ensures { Judges result (capability_rule (map string_bytes caps.now) (plain_module m.now)) }
{
    let rule = AreCapable { alloc, caps };
    judge_all(&rule, &m.exports)
}

pub fn check_exports(alloc: Global, m: &Module, caps: &[String]) -> Result<(), GateStop>
    requires { IsShaped (plain_module m.now) }
    ensures { Judges result (first_some (export_rules (map string_bytes caps.now) (plain_module m.now))) }
{
    check_wanted(alloc, m)?;
    check_interface(m)?;
    check_entries(alloc, m)?;
    check_capabilities(alloc, m, caps)
}
