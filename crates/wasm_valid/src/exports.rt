ghost use Rattle.std.specs.Prelude.{◌≡◌, ℕ, ◌++◌, ◌∷◌, [], List, map, not, cond, true, OnOk, IfOk};
ghost use Rattle.std.specs.Str.{bytes_eq};
ghost use Rattle.wasm_types.specs.Plain.{PlainModule, PlainExport, plain_export, plain_module};
ghost use Rattle.wasm_types.specs.Laws.{AreFew};
ghost use Rattle.wasm_types.specs.Validity.{ext_kept, export_kept, first_in};
ghost use Rattle.wasm_valid.specs.Stacks.{Ends};
ghost use Rattle.wasm_valid.specs.Spaces.{AreSpaces, Faults};
ghost use Rattle.wasm_valid.specs.Names.{has_name, HasNames, Keeps, item_stop};

use crate::items::is_there;
use crate::spaces::Spaces;
use crate::stop::{TypingStop, ValidStop};
use std::alloc::{AllocError, Global};
use std::collections::BTreeSet;
use wasm_types::{Export, Ext, Module, ValidKind};

fn check_ext(spaces: &Spaces, ext: Ext) -> Result<(), ValidKind>
    ensures { (m : PlainModule) → AreSpaces spaces.now m → Ends result (ext_kept m ext) }
{
    match ext {
        Ext::Func(i) => is_there(ValidKind::FuncIndex, i, spaces.funcs.len()),
        Ext::Table(i) => is_there(ValidKind::TableIndex, i, spaces.tables),
        Ext::Memory(i) => is_there(ValidKind::MemoryIndex, i, spaces.memories),
        Ext::Global(i) => is_there(ValidKind::GlobalIndex, i, spaces.globals.len()),
    }
}

/// Adds a name, and tells whether it is new.
fn add_name<'a>(names: &mut BTreeSet<&'a str>, name: &'a str) -> Result<bool, AllocError>
    ensures added { IfOk result (λ new. new ≡ not (has_name names.old name.now)) }
    ensures has { OnOk result ((x : List ℕ) → has_name names.new x
        ≡ cond (bytes_eq name.now x) true (has_name names.old x)) }
{
    let added = names.insert(name)?;
    Ok(added)
}

/// An export, behind others with these names.
fn check_export<'a>(
    spaces: &Spaces,
    names: &mut BTreeSet<&'a str>,
    export: &'a Export,
) -> Result<(), TypingStop>
    ensures kept { (m : PlainModule) (earlier : List PlainExport) → AreSpaces spaces.now m → HasNames names.old earlier →
        Keeps result (export_kept m earlier (plain_export export.now)) }
    ensures names { OnOk result ((earlier : List PlainExport) → HasNames names.old earlier →
        HasNames names.new (earlier ++ plain_export export.now ∷ [])) }
{
    check_ext(spaces, export.ext)?;
    if add_name(names, export.name.as_str())? {
        Ok(())
    } else {
        Err(TypingStop::Wrong(ValidKind::ExportTwice))
    }
}

/// Why the item at this place isn't valid.
fn item_stop(at: u32, stop: TypingStop) -> ValidStop
    ensures { result ≡ item_stop at stop }
{
    match stop {
        TypingStop::Wrong(kind) => ValidStop::Invalid {
            func: None,
            instr: at,
            kind,
        },
        TypingStop::NoMemory => ValidStop::NoMemory,
    }
}

pub fn check_exports(alloc: Global, m: &Module, spaces: &Spaces) -> Result<(), ValidStop>
    requires spaces { AreSpaces spaces.now (plain_module m.now) }
    requires few { AreFew m.now.exports.items }
    ensures { Faults result (first_in (export_kept (plain_module m.now)) (map plain_export m.now.exports.items)) }
{
    let mut names = BTreeSet::new(alloc);
    let mut at = 0;
    while at < m.exports.len() {
        match check_export(spaces, &mut names, &m.exports[at]) {
            Ok(()) => {}
            Err(stop) => return Err(item_stop(at as u32, stop)),
        }
        at += 1;
    }
    Ok(())
}
