ghost use Rattle.std.specs.Prelude.{◌≡◌, ℕ, map, Option};
ghost use Rattle.wasm_types.specs.Plain.{PlainRefusal};
ghost use Rattle.wasm_types.specs.Laws.{AreFew};
ghost use Rattle.wasm_types.specs.Gate.{first_refused};
ghost use Rattle.gatekeeper.specs.Judging.{Judges};

use crate::stop::GateStop;

/// A rule that each item of a list has to keep.
pub trait Judge<T> {
    /// The plain form of an item.
    ghost Shown: { Type 0 };

    ghost shown: { T → Shown };

    ghost refused: { Self → ℕ → Shown → Option PlainRefusal };

    fn judge(&self, at: u32, item: &T) -> Result<(), GateStop>
        ensures { Judges result (refused self.now at (shown item.now)) };
}

/// The first item that breaks the rule.
pub fn judge_all<T, R: Judge<T>>(rule: &R, items: &[T]) -> Result<(), GateStop>
    requires { AreFew items.now }
    ensures { Judges result (first_refused (R.refused rule.now) 0 (map R.shown items.now)) }
{
    let mut at = 0;
    while at < items.len() {
        match rule.judge(at as u32, &items[at]) {
            Ok(()) => {}
            Err(stop) => return Err(stop),
        }
        at += 1;
    }
    Ok(())
}
