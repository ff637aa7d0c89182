ghost use Rattle.std.specs.Prelude.{IfOk, OnOk, ◌≡◌, ◌++◌, length};
ghost use Rattle.chain_records.specs.Records.{plain_facts, plain_code_info, plain_contract, plain_stored, facts_bytes, counters_bytes, code_info_bytes, contract_bytes, stored_bytes, AreFacts, AreCounters, IsCodeInfo, IsContract, IsRecord, IsRecordOf};
ghost use Rattle.chain_records.specs.Puts.{Puts};

use crate::field::{Field, put_bytes, put_list, put_number, put_optional};
use crate::record::{CodeInfo, Contract, Counters, Facts, Stored};
use std::alloc::{AllocError, Global};

/// The bytes of a record.
pub fn stored_bytes(alloc: Global, stored: &Stored) -> Result<Vec<u8>, AllocError>
    ensures { IfOk result (λ bytes. IsRecordOf bytes.items (plain_stored stored.now)) }
{
    let mut bytes = Vec::new(alloc);
    put(&mut bytes, stored)?;
    Ok(bytes)
}

#[tactic(auto, unfolding(crate::specs::Records::stored_bytes))]
fn put(bytes: &mut Vec<u8>, stored: &Stored) -> Result<(), AllocError>
    ensures { OnOk result (Puts stored_bytes IsRecord (plain_stored stored.now)
        bytes.old.items bytes.new.items) }
{
    match stored {
        Stored::Facts(facts) => put_facts(bytes, facts)?,
        Stored::Counters(counters) => put_counters(bytes, counters)?,
        Stored::Amount(amount) => bytes.extend_from_slice(&amount.to_be_bytes())?,
        Stored::CodeBytes(code) => bytes.extend_from_slice(code)?,
        Stored::CodeInfo(info) => put_code_info(bytes, info)?,
        Stored::Mark => bytes.push(1)?,
        Stored::Contract(contract) => put_contract(bytes, contract)?,
        Stored::Value(value) => bytes.extend_from_slice(value)?,
    }
    Ok(())
}

fn put_facts(bytes: &mut Vec<u8>, facts: &Facts) -> Result<(), AllocError>
    ensures { OnOk result (Puts facts_bytes AreFacts (plain_facts facts.now)
        bytes.old.items bytes.new.items) }
{
    facts.chain_id.put(bytes)?;
    facts.prefix.put(bytes)?;
    put_optional(bytes, &facts.authority)?;
    put_list(bytes, &facts.caps)?;
    put_number(bytes, facts.query_gas)?;
    put_number(bytes, facts.height)?;
    put_number(bytes, facts.time)?;
    Ok(())
}

fn put_counters(bytes: &mut Vec<u8>, counters: &Counters) -> Result<(), AllocError>
    ensures { OnOk result (Puts counters_bytes AreCounters counters.now
        bytes.old.items bytes.new.items) }
{
    put_number(bytes, counters.next_code)?;
    put_number(bytes, counters.next_instance)
}

fn put_code_info(bytes: &mut Vec<u8>, info: &CodeInfo) -> Result<(), AllocError>
    ensures { OnOk result (Puts code_info_bytes IsCodeInfo (plain_code_info info.now)
        bytes.old.items bytes.new.items) }
{
    put_bytes(bytes, &info.creator)?;
    bytes.extend_from_slice(&info.checksum)?;
    put_optional(bytes, &info.allow)
}

fn put_contract(bytes: &mut Vec<u8>, contract: &Contract) -> Result<(), AllocError>
    ensures { OnOk result (Puts contract_bytes IsContract (plain_contract contract.now)
        bytes.old.items bytes.new.items) }
{
    put_number(bytes, contract.code_id)?;
    put_bytes(bytes, &contract.creator)?;
    put_optional(bytes, &contract.admin)?;
    contract.label.put(bytes)?;
    Ok(())
}
