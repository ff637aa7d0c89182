ghost use Rattle.gatekeeper.specs.Contract.{TakenIsContract, AcceptedIsContract, DecodedIsSpelled};
ghost use Rattle.gatekeeper.specs.Fetches.{TalliesJoin};

use wasm_types::bytes_spell_or_break;

/// What the gate takes under some capabilities keeps each rule on contracts under them.
pub fn taken_are_contracts()
    ensures { TakenIsContract }
{
    bytes_spell_or_break();
}

/// An accepted code keeps each rule on contracts.
pub fn accepted_are_contracts()
    ensures { AcceptedIsContract }
{
    bytes_spell_or_break();
}

/// The module that bytes spell has a spelling, as a module that was fetched has.
pub fn decoded_are_spelled()
    ensures { DecodedIsSpelled }
{
    bytes_spell_or_break();
}

/// Fetches of some codes and then of others are fetches of them all.
pub fn fetches_join()
    ensures { TalliesJoin }
{}
