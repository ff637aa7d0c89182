//! Functions that a contract exports.

ghost use Rattle.std.specs.Prelude.{◌≡◌, find, option_map};
ghost use Rattle.std.specs.Str.{bytes_eq};
ghost use Rattle.wasm_types.specs.Plain.{plain_export, plain_module};
ghost use Rattle.host_imports.specs.Allocation.{func_of, exported};

use wasm_types::{Export, Ext, Module};

fn func_of(ext: Ext) -> Option<u32>
    ensures { result ≡ func_of ext }
{
    match ext {
        Ext::Func(func) => Some(func),
        Ext::Table(_) | Ext::Memory(_) | Ext::Global(_) => None,
    }
}

fn is_named(export: &Export, name: &str) -> bool
    ensures { result ≡ bytes_eq (plain_export export.now).name name.now }
{
    export.name.as_str() == name
}

fn export_named<'a>(exports: &'a [Export], name: &str) -> Option<&'a Export>
    ensures { option_map (λ e. e.now) result ≡ find (λ e. bytes_eq (plain_export e).name name.now) exports.now }
{
    exports.iter().find(|export| is_named(*export, name))
}

/// The function that is exported under a name, the imported ones counted first.
pub fn exported_function(m: &Module, name: &str) -> Option<u32>
    ensures { result ≡ exported (plain_module m.now) name.now }
{
    match export_named(&m.exports, name) {
        Some(export) => func_of(export.ext),
        None => None,
    }
}
