ghost use Rattle.std.specs.Prelude.{map};
ghost use Rattle.kv_layers.specs.Rising.{change_view, KeysRise, KeysRise-prop};

use crate::layer::Change;

/// Changes of a map, whose keys rise. A key without a value is removed.
#[derive(Debug, Drop)]
pub struct Delta {
    pub changes: Vec<Change>,
    ghost rising: { KeysRise (map change_view changes.items) } by { KeysRise-prop (map change_view changes.items) },
}
