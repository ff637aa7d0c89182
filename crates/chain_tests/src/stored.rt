//! A chain on which contracts are stored.

ghost use Rattle.std.specs.Prelude.{◌≡◌, IfOk, OnOk, IfSome};
ghost use Rattle.std.specs.Option.{option_map};
ghost use Rattle.chain_records.specs.Keys.{IsAddress};
ghost use Rattle.chain_records.specs.Records.{bytes_view};
ghost use Rattle.kv_layers.specs.Layers.{HasCurrent, depth};
ghost use Rattle.query_router.specs.Lawful.{HasLawful};

use crate::chain::chain;
use chain_addr::classic;
use chain_records::{Contract, bytes_tell_keys};
use code_registry::{pin, store};
use contract_admin::{contracts_stay_lawful, create, take_instance};
use gas_meter::{Meter, Schedule};
use gas_store::{Scoped, storages_change_alone};
use kv_layers::{Base, Layers, Plain};
use std::alloc::{AllocError, Global};
use std::test::Fail;
use wasm_writer::{echo, write};

/// The bytes of the first address, which is the chain's authority.
pub const OWNER: [u8; 20] = [
    0x00, 0x44, 0x32, 0x14, 0xC7, 0x42, 0x54, 0xB6, 0x35, 0xCF, 0x84, 0x65, 0x3A, 0x56, 0xD7, 0xC6,
    0x75, 0xBE, 0x77, 0xDF,
];

/// Six types, the imports `query_chain`, `abort` and `db_write`, six functions, a page, and the place at
/// which `allocate` gives the next Region.
const HEAD: &[u8] = b"\0asm\x01\0\0\0\
\x01\x1F\x06\x60\x01\x7F\x01\x7F\x60\x01\x7F\0\x60\x02\x7F\x7F\0\x60\0\0\x60\x03\x7F\x7F\x7F\x01\x7F\x60\x02\x7F\x7F\x01\x7F\
\x02\x2E\x03\x03env\x0Bquery_chain\0\0\x03env\x05abort\0\x01\x03env\x08db_write\0\x02\
\x03\x07\x06\x03\0\x01\x04\x04\x05\
\x05\x03\x01\0\x01\
\x06\x07\x01\x7F\x01\x41\x80\x08\x0B\
\x07\x4F\x06\x13interface_version_8\0\x03\x08allocate\0\x04\x0Adeallocate\0\x05\x0Binstantiate\0\x06\x07execute\0\x07\x05";

/// Five bodies: `allocate` as that of the samples, `instantiate` gives its message, and `execute` writes `v` at the key
/// `k`, asks what its message is, and aborts with the answer.
const BODIES: &[u8] = b"\x02\0\x0B\
\x26\0\x23\0\x23\0\x23\0\x41\x0C\x6A\x36\x02\0\x23\0\x20\0\x36\x02\x04\x23\0\x41\0\x36\x02\x08\x23\0\x20\0\x6A\x41\x0C\x6A\x24\0\x0B\
\x02\0\x0B\
\x04\0\x20\x02\x0B\
\x13\0\x41\x80\x01\x41\x90\x01\x10\x02\x20\x02\x10\0\x10\x01\x41\xC0\0\x0B";

/// At 64 a Region of an answer, at 128 one of the key, and at 144 one of its value.
const DATA: &[u8] = b"\x0B\x4C\x02\
\0\x41\xC0\0\x0B\x1D\x50\0\0\0\x0D\0\0\0\x0D\0\0\0\0\0\0\0{\"ok\":\"aGk=\"}\
\0\x41\x80\x01\x0B\x22\xA0\0\0\0\x01\0\0\0\x01\0\0\0\0\0\0\0\xA1\0\0\0\x01\0\0\0\x01\0\0\0\0\0\0\0kv";

/// The contracts from the second on: the name of the last function, which is five bytes, and its body.
const CONTRACTS: [(&str, &[u8]); 6] = [
    // asks what its message is, and says something else
    ("query", b"\x20\x01\x10\0\x1A\x41\xC0\0"),
    // asks what its message is, and aborts with the answer
    ("query", b"\x20\x01\x10\0\x10\x01\x41\xC0\0"),
    // writes
    ("query", b"\x41\x80\x01\x41\x90\x01\x10\x02\x20\x01"),
    // has no query
    ("other", b"\x20\x01"),
    // traps
    ("query", b"\0"),
    // aborts with what it is told of the chain
    ("query", b"\x20\0\x10\x01\x41\xC0\0"),
];

/// The code of a contract.
fn code_with(alloc: Global, name: &str, body: &[u8]) -> Result<Vec<u8>, AllocError> {
    let size = u8::try_from(body.len()).unwrap_or(0);
    let mut code = Vec::from_slice(alloc, HEAD)?;
    code.extend_from_slice(name.as_bytes())?;
    // the last export is function 8, and in the section of codes stand six
    code.extend_from_slice(&[0, 8, 0x0A, size.wrapping_add(74), 6])?;
    code.extend_from_slice(BODIES)?;
    code.extend_from_slice(&[size.wrapping_add(2), 0])?;
    code.extend_from_slice(body)?;
    code.push(0x0B)?;
    code.extend_from_slice(DATA)?;
    Ok(code)
}

/// Stores a code.
fn put_code(alloc: Global, layers: &mut Layers<Plain>, code: Vec<u8>) -> Result<u64, Fail>
    requires lawful { HasLawful (HasCurrent ⟦<Plain as Base>⟧.stands_for layers.old) }
    ensures lawful { OnOk result (HasLawful (HasCurrent ⟦<Plain as Base>⟧.stands_for layers.new)) }
    ensures layers { depth layers.new ≡ depth layers.old }
{
    contracts_stay_lawful();
    let id = store(alloc, layers, &OWNER, code, None)?;
    Ok(id)
}

/// The number of the next instance.
fn take(alloc: Global, layers: &mut Layers<Plain>) -> Result<u64, AllocError>
    requires lawful { HasLawful (HasCurrent ⟦<Plain as Base>⟧.stands_for layers.old) }
    ensures lawful { OnOk result (HasLawful (HasCurrent ⟦<Plain as Base>⟧.stands_for layers.new)) }
    ensures layers { depth layers.new ≡ depth layers.old }
{
    let id = take_instance(alloc, layers)?;
    Ok(id)
}

/// The admin of a contract of this code: the first address of the second code's, and else nobody.
fn admin_of(alloc: Global, code_id: u64) -> Result<Option<Vec<u8>>, AllocError>
    ensures { IfOk result (λ admin. IfSome (option_map bytes_view admin) IsAddress) }
{
    if code_id == 2 {
        Ok(Some(OWNER.to_vec(alloc)?))
    } else {
        Ok(None)
    }
}

/// A contract of the first address.
fn contract_of(alloc: Global, code_id: u64) -> Result<Contract, AllocError>
    ensures creator { IfOk result (λ c. IsAddress c.creator.items) }
    ensures admin { IfOk result (λ c. IfSome (option_map bytes_view c.admin) IsAddress) }
{
    Ok(Contract {
        code_id,
        creator: OWNER.to_vec(alloc)?,
        admin: admin_of(alloc, code_id)?,
        label: String::from_str(alloc, "l")?,
    })
}

/// Makes a contract with this address.
fn put_contract(
    alloc: Global,
    layers: &mut Layers<Plain>,
    addr: &[u8],
    code_id: u64,
) -> Result<(), Fail>
    requires address { IsAddress addr.now }
    requires lawful { HasLawful (HasCurrent ⟦<Plain as Base>⟧.stands_for layers.old) }
    ensures lawful { OnOk result (HasLawful (HasCurrent ⟦<Plain as Base>⟧.stands_for layers.new)) }
    ensures layers { depth layers.new ≡ depth layers.old }
{
    let contract = contract_of(alloc, code_id)?;
    create(alloc, layers, addr, &contract)?;
    Ok(())
}

/// Stores a code and makes its contract.
fn put(alloc: Global, layers: &mut Layers<Plain>, code: Vec<u8>) -> Result<(), Fail>
    requires lawful { HasLawful (HasCurrent ⟦<Plain as Base>⟧.stands_for layers.old) }
    ensures lawful { OnOk result (HasLawful (HasCurrent ⟦<Plain as Base>⟧.stands_for layers.new)) }
    ensures layers { depth layers.new ≡ depth layers.old }
{
    let id = put_code(alloc, layers, code)?;
    let instance = take(alloc, layers)?;
    put_contract(alloc, layers, &classic(id, instance), id)
}

/// Pins codes.
fn pin_all(alloc: Global, layers: &mut Layers<Plain>, ids: &[u64]) -> Result<(), Fail>
    requires lawful { HasLawful (HasCurrent ⟦<Plain as Base>⟧.stands_for layers.old) }
    ensures lawful { OnOk result (HasLawful (HasCurrent ⟦<Plain as Base>⟧.stands_for layers.new)) }
    ensures layers { depth layers.new ≡ depth layers.old }
{
    pin(alloc, layers, &OWNER, ids)?;
    Ok(())
}

/// Gives a key of the contract with this address a value.
fn keep(
    alloc: Global,
    layers: &mut Layers<Plain>,
    addr: &[u8],
    key: &[u8],
    value: &[u8],
) -> Result<(), Fail>
    requires address { IsAddress addr.now }
    requires lawful { HasLawful (HasCurrent ⟦<Plain as Base>⟧.stands_for layers.old) }
    ensures lawful { OnOk result (HasLawful (HasCurrent ⟦<Plain as Base>⟧.stands_for layers.new)) }
    ensures layers { depth layers.new ≡ depth layers.old }
{
    bytes_tell_keys();
    storages_change_alone();
    let mut scoped = Scoped::new(alloc, addr, false)?;
    let mut meter = Meter::new(1_000_000);
    let costs = Schedule::standard();
    scoped.set(alloc, layers, key, value, &mut meter, &costs)?;
    Ok(())
}

/// A chain with the sample `echo` and these codes, each of which has a contract.
fn with_codes(alloc: Global, codes: &[(&str, &[u8])]) -> Result<Layers<Plain>, Fail>
    ensures lawful { IfOk result (λ layers. HasLawful (HasCurrent ⟦<Plain as Base>⟧.stands_for layers)) }
    ensures layers { IfOk result (λ layers. depth layers ≡ 0) }
{
    let mut layers = chain(alloc)?;
    put(alloc, &mut layers, write(alloc, &echo(alloc)?)?)?;
    for (name, body) in codes {
        put(alloc, &mut layers, code_with(alloc, name, body)?)?;
    }
    Ok(layers)
}

/// A chain with seven codes, each of which has a contract. The first is the sample `echo`, whose contract keeps `v` at
/// the key `k` and ten bytes at `many`. These ids are pinned.
pub fn stored(alloc: Global, pins: &[u64]) -> Result<Layers<Plain>, Fail>
    ensures lawful { IfOk result (λ layers. HasLawful (HasCurrent ⟦<Plain as Base>⟧.stands_for layers)) }
    ensures layers { IfOk result (λ layers. depth layers ≡ 0) }
{
    let mut layers = with_codes(alloc, &CONTRACTS)?;
    keep(alloc, &mut layers, &classic(1, 1), b"k", b"v")?;
    keep(alloc, &mut layers, &classic(1, 1), b"many", b"mmmmmmmmmm")?;
    pin_all(alloc, &mut layers, pins)?;
    Ok(layers)
}
