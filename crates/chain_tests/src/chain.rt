ghost use Rattle.std.specs.Prelude.{◌≡◌, IfOk};
ghost use Rattle.kv_layers.specs.Layers.{HasCurrent, depth};
ghost use Rattle.query_router.specs.Lawful.{HasLawful};

use crate::filled::ONE;
use crate::opening::genesis_of;
use block_runner::genesis;
use kv_layers::{Base, Layers, Plain};
use std::alloc::Global;
use std::test::Fail;

/// The records of the chain in which the first address has 10 utok.
pub fn opened(alloc: Global) -> Result<Plain, Fail>
    ensures { IfOk result (λ plain. HasLawful (⟦<Plain as Base>⟧.stands_for plain)) }
{
    let g = genesis_of(alloc, ONE, &[(ONE, "10")])?;
    let plain = genesis(alloc, &g)?;
    Ok(plain)
}

/// The same chain in one layer.
pub fn chain(alloc: Global) -> Result<Layers<Plain>, Fail>
    ensures lawful { IfOk result (λ layers. HasLawful (HasCurrent ⟦<Plain as Base>⟧.stands_for layers)) }
    ensures layers { IfOk result (λ layers. depth layers ≡ 0) }
{
    let plain = opened(alloc)?;
    Ok(Layers::new(alloc, plain))
}
