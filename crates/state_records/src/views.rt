//! The one kind of record that may be found under a key.

ghost use Rattle.std.specs.Prelude.{◌≡◌, Option, Some, option_map};
ghost use Rattle.chain_records.specs.declared.record.Counters.{Counters};
ghost use Rattle.chain_records.specs.Records.{PlainFacts, PlainCodeInfo, PlainContract, plain_facts, plain_code_info, plain_contract, plain_stored};
ghost use Rattle.chain_records.specs.Records as stored;

use chain_records::{CodeInfo, Contract, Counters, Facts, Stored};

/// The facts that a record is.
pub(crate) fn facts_in(found: Option<Stored>) -> Facts
    requires { (f : PlainFacts) × (option_map plain_stored found ≡ Some (stored.facts f)) }
    ensures { option_map plain_stored found ≡ Some (stored.facts (plain_facts result)) }
{
    match found {
        Some(Stored::Facts(facts)) => facts,
        _ => unreachable!(),
    }
}

/// The counters that a record is.
pub(crate) fn counters_in(found: Option<Stored>) -> Counters
    requires { (c : Counters) × (option_map plain_stored found ≡ Some (stored.counters c)) }
    ensures { option_map plain_stored found ≡ Some (stored.counters result) }
{
    match found {
        Some(Stored::Counters(counters)) => counters,
        _ => unreachable!(),
    }
}

/// The info of a code that a record is, if there is one.
pub(crate) fn code_info_in(found: Option<Stored>) -> Option<CodeInfo>
    requires { (info : Option PlainCodeInfo)
        × (option_map plain_stored found ≡ option_map stored.code_info info) }
    ensures { option_map plain_stored found
        ≡ option_map stored.code_info (option_map plain_code_info result) }
{
    match found {
        Some(Stored::CodeInfo(info)) => Some(info),
        None => None,
        _ => unreachable!(),
    }
}

/// The contract that a record is, if there is one.
pub(crate) fn contract_in(found: Option<Stored>) -> Option<Contract>
    requires { (c : Option PlainContract)
        × (option_map plain_stored found ≡ option_map stored.contract c) }
    ensures { option_map plain_stored found
        ≡ option_map stored.contract (option_map plain_contract result) }
{
    match found {
        Some(Stored::Contract(contract)) => Some(contract),
        None => None,
        _ => unreachable!(),
    }
}
