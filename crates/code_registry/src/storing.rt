//! Codes that are stored.

ghost use Rattle.std.specs.Prelude.{◌≡◌, ◌+◌, ◌<◌, ◌^◌, map, string_bytes, None, All, IfOk, OnOk, IfErr, IfSome, option_map};
ghost use Rattle.wasm_types.specs.Gate.{gate};
ghost use Rattle.gatekeeper.specs.CodeBytes.{code_bytes};
ghost use Rattle.chain_records.specs.Keys.{IsAddress};
ghost use Rattle.chain_records.specs.Records.{list_view, plain_code_info};
ghost use Rattle.chain_records.specs.Spelled.{OfEach};
ghost use Rattle.chain_records.specs.State.{Spells};
ghost use Rattle.kv_layers.specs.Layers.{depth, HasCurrent};
ghost use Rattle.kv_layers.specs.Spelling.{Becomes};
ghost use Rattle.code_registry.specs.Codes.{refused, store_refusal};
ghost use Rattle.code_registry.specs.Effects.{IsStored};
ghost use Rattle.code_registry.specs.Lawful.{HasLawful, HasLawfulCodes};
ghost use Rattle.code_registry.specs.Refusals.{IsStop, Leaves, UnlessNoMemory};
ghost use Rattle.code_registry.specs.Steps.{PutsCode};

use crate::stop::CodeStop;
use chain_records::{
    CodeInfo, Counters, Key, Stored, codes_are_stored_whole, key_bytes, stored_bytes,
};
use gatekeeper::{GateStop, ValidCode, check};
use kv_layers::{Base, Layers};
use state_records::{counters, facts};
use std::alloc::{AllocError, Global};

/// The greatest id that a code can have.
const MOST_CODES: u64 = 0xFFFF_FFFF;

/// Stores a code under the next id, which is the answer. Where there is no list of who may instantiate it,
/// everybody may.
pub fn store<B: Base>(
    alloc: Global,
    layers: &mut Layers<B>,
    creator: &[u8],
    code: Vec<u8>,
    allow: Option<Vec<Vec<u8>>>,
) -> Result<u64, CodeStop>
    requires creator { IsAddress creator.now }
    requires allow { IfSome (option_map list_view allow) (All IsAddress) }
    requires lawful { HasLawful (HasCurrent B.stands_for layers.old) }
    ensures stored { IfOk result (λ id. Becomes Spells HasLawfulCodes B.stands_for layers.old layers.new
        (λ s t. IsStored s creator.now code.items (option_map list_view allow) id t)) }
    ensures stop { IfErr result (λ stop. OfEach (HasCurrent B.stands_for layers.old)
        (λ s. IsStop stop (store_refusal s code.items))) }
    ensures lawful { OnOk result (HasLawful (HasCurrent B.stands_for layers.new)) }
    ensures still_lawful { IfErr result (λ stop. UnlessNoMemory stop
        (HasLawful (HasCurrent B.stands_for layers.new))) }
    ensures unchanged { IfErr result (Leaves B.stands_for layers.old layers.new) }
    ensures depth { depth layers.new ≡ depth layers.old }
{
    let chain = facts(alloc, &*layers)?;
    let code = let_through(alloc, code, &chain.caps)?;
    let given = counters(alloc, &*layers)?;
    if given.next_code > MOST_CODES {
        return Err(CodeStop::TooManyCodes);
    }
    let owner = Vec::from_slice(alloc, creator)?;
    let info = CodeInfo {
        creator: owner,
        checksum: code.checksum(),
        allow,
    };
    put_code(alloc, layers, given, code.bytes(), info)?;
    Ok(given.next_code)
}

/// The code, where the gate takes it.
fn let_through(alloc: Global, code: Vec<u8>, caps: &[String]) -> Result<ValidCode, CodeStop>
    ensures taken { IfOk result (λ c. gate code.items (map string_bytes caps.now) ≡ None) }
    ensures bytes { IfOk result (λ c. code_bytes c ≡ code.items) }
    ensures stop { IfErr result (λ stop. IsStop stop
        (option_map refused (gate code.items (map string_bytes caps.now)))) }
{
    match check(alloc, code, caps) {
        Ok(code) => Ok(code),
        Err(GateStop::Refused(refusal)) => Err(CodeStop::Refused(refusal)),
        Err(GateStop::NoMemory) => Err(CodeStop::NoMemory),
    }
}

/// Writes a code under the next id, and that this id is given.
fn put_code<B: Base>(
    alloc: Global,
    layers: &mut Layers<B>,
    given: Counters,
    code: &[u8],
    info: CodeInfo,
) -> Result<(), AllocError>
    requires { given.next_code + 1 < 2 ^ 64 }
    ensures ok { OnOk result (PutsCode B.stands_for layers.old layers.new given
        (record { bytes = code.now; info = plain_code_info info })) }
    ensures depth { depth layers.new ≡ depth layers.old }
{
    codes_are_stored_whole();
    let next = Counters {
        next_code: given.next_code + 1,
        ..given
    };
    let bytes_key = key_bytes(alloc, &Key::Code(given.next_code))?;
    layers.set(alloc, &bytes_key, code)?;
    let info_key = key_bytes(alloc, &Key::CodeInfo(given.next_code))?;
    let info_bytes = stored_bytes(alloc, &Stored::CodeInfo(info))?;
    layers.set(alloc, &info_key, &info_bytes)?;
    let counters_key = key_bytes(alloc, &Key::Counters)?;
    let counters_bytes = stored_bytes(alloc, &Stored::Counters(next))?;
    layers.set(alloc, &counters_key, &counters_bytes)?;
    Ok(())
}
