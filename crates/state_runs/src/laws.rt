ghost use Rattle.std.specs.Prelude.{◌≡◌, List};
ghost use Rattle.kv_layers.specs.Bytes.{Bytes};
ghost use Rattle.state_runs.specs.Runs.{Run, IsMapOf, map_of};

/// Each list of runs has just one map.
pub fn each_has_one_map()
    ensures one { (runs : List Run) → IsMapOf runs (map_of runs) }
    ensures alone { (runs : List Run) (map other : Bytes) →
        IsMapOf runs map → IsMapOf runs other → map ≡ other }
{}
