ghost use Rattle.std.specs.Prelude.{◌≡◌, ◌+◌, ◌<◌, ◌^◌, OnOk, IfOk, IfErr, IfSome};
ghost use Rattle.std.specs.Option.{option_map, option_copied};
ghost use Rattle.chain_records.specs.Keys.{IsAddress};
ghost use Rattle.chain_records.specs.Records.{bytes_view};
ghost use Rattle.chain_records.specs.Spelled.{OfSome};
ghost use Rattle.contract_admin.specs.Lawful.{HasLawful, HasLawfulContracts};
ghost use Rattle.contract_admin.specs.declared.stop.AdminStop.TheVariants.{NoMemory};
ghost use Rattle.kv_layers.specs.Layers.{HasCurrent};

use chain_records::{
    CodeInfo, Contract, Counters, Facts, Key, Stored, codes_are_stored_whole,
    facts_and_counters_begin_a_chain, key_bytes, stored_bytes,
};
use contract_admin::{
    AdminStop, contracts_stay_lawful, create, find, is_label, may_make, set_admin, set_code,
    take_instance,
};
use kv_layers::{Base, Layers, Plain};
use std::alloc::{AllocError, Global};
use std::process::Abort;
use std::test::Fail;

const ONE: [u8; 2] = [0xAA, 0xBB];

const OTHER: [u8; 2] = [0xAA, 0xBC];

/// Where a contract is made.
const PLACE: [u8; 2] = [0xCC, 0xCC];

/// A chain without codes, of which these are the counters.
fn begun(alloc: Global, given: Counters) -> Result<Plain, AllocError>
    ensures { IfOk result (λ plain. OfSome (⟦<Plain as Base>⟧.stands_for plain)
        (λ s. HasLawfulContracts s × (s.counters ≡ given))) }
{
    facts_and_counters_begin_a_chain();
    let facts = Facts {
        chain_id: String::from_str(alloc, "t-1")?,
        prefix: String::from_str(alloc, "abcdef")?,
        authority: None,
        caps: Vec::new(alloc),
        query_gas: 1_000_000,
        height: 0,
        time: 0,
    };
    let mut plain = Plain::new(alloc);
    let key = key_bytes(alloc, &Key::Facts)?;
    plain.insert(key, stored_bytes(alloc, &Stored::Facts(facts))?)?;
    let key = key_bytes(alloc, &Key::Counters)?;
    plain.insert(key, stored_bytes(alloc, &Stored::Counters(given))?)?;
    Ok(plain)
}

/// Stores a code without bytes, with a list of who may instantiate it. Gives the counters after it.
fn put_code(
    alloc: Global,
    plain: &mut Plain,
    given: Counters,
    allow: Option<Vec<Vec<u8>>>,
) -> Result<Counters, AllocError>
    requires few { given.next_code < 1000 }
    requires lawful { OfSome (⟦<Plain as Base>⟧.stands_for plain.old)
        (λ s. HasLawfulContracts s × (s.counters ≡ given)) }
    ensures next { IfOk result (λ next. next.next_code ≡ given.next_code + 1) }
    ensures lawful { IfOk result (λ next. OfSome (⟦<Plain as Base>⟧.stands_for plain.new)
        (λ s. HasLawfulContracts s × (s.counters ≡ next))) }
{
    codes_are_stored_whole();
    contracts_stay_lawful();
    let next = Counters {
        next_code: given.next_code + 1,
        ..given
    };
    let info = CodeInfo {
        creator: ONE.to_vec(alloc)?,
        checksum: [0; 32],
        allow,
    };
    let key = key_bytes(alloc, &Key::Code(given.next_code))?;
    plain.insert(
        key,
        stored_bytes(alloc, &Stored::CodeBytes(Vec::new(alloc)))?,
    )?;
    let key = key_bytes(alloc, &Key::CodeInfo(given.next_code))?;
    plain.insert(key, stored_bytes(alloc, &Stored::CodeInfo(info))?)?;
    let key = key_bytes(alloc, &Key::Counters)?;
    plain.insert(key, stored_bytes(alloc, &Stored::Counters(next))?)?;
    Ok(next)
}

/// One layer over three codes: everybody may instantiate the first, nobody the second, and one address
/// the third. The next instance gets this number.
fn chain(alloc: Global, next_instance: u64) -> Result<Layers<Plain>, AllocError>
    ensures { IfOk result (λ layers. HasLawful
        (HasCurrent ⟦<Plain as Base>⟧.stands_for layers)) }
{
    let counters = Counters {
        next_code: 1,
        next_instance,
    };
    let mut one = Vec::new(alloc);
    one.push(ONE.to_vec(alloc)?)?;
    let mut plain = begun(alloc, counters)?;
    let counters = put_code(alloc, &mut plain, counters, None)?;
    let counters = put_code(alloc, &mut plain, counters, Some(Vec::new(alloc)))?;
    put_code(alloc, &mut plain, counters, Some(one))?;
    Ok(Layers::new(alloc, plain))
}

/// What is done with contracts, or looked at.
#[derive(Clone, Copy, Drop)]
enum Act {
    /// Whether the sender may instantiate this code.
    May(&'static [u8; 2], u64),
    /// A contract with this code and this label, whose admin is the first address.
    Create(u64, &'static str),
    SetAdmin(&'static [u8; 2], &'static [u8; 2]),
    ClearAdmin(&'static [u8; 2]),
    SetCode(&'static [u8; 2], u64),
    /// The number of the next instance.
    Take,
    Find(&'static [u8; 2]),
}

/// What came of a call.
fn text_of(alloc: Global, done: Result<(), AdminStop>) -> Result<String, AllocError>
    ensures { OnOk result (IfErr done (λ stop. stop ≡ NoMemory → ⊥)) }
{
    match done {
        Ok(()) => String::from_str(alloc, "done"),
        Err(AdminStop::NoMemory) => Err(AllocError),
        Err(stop) => format!(in alloc; "{stop}"),
    }
}

fn admin_name(contract: &Contract) -> &'static str {
    match &contract.admin {
        Some(admin) if admin.as_slice() == ONE.as_slice() => "one",
        Some(_) => "other",
        None => "nobody",
    }
}

/// What an address has.
fn found_text(alloc: Global, found: Option<Contract>) -> Result<String, AllocError> {
    match found {
        Some(contract) => {
            let admin = admin_name(&contract);
            format!(in alloc; "{} {admin} {}", contract.code_id, contract.label)
        }
        None => String::from_str(alloc, "nothing"),
    }
}

fn contract_of(alloc: Global, code_id: u64, label: &str) -> Result<Contract, AllocError>
    ensures creator { IfOk result (λ c. IsAddress c.creator.items) }
    ensures admin { IfOk result (λ c. IfSome (option_map bytes_view c.admin) IsAddress) }
{
    Ok(Contract {
        code_id,
        creator: OTHER.to_vec(alloc)?,
        admin: Some(ONE.to_vec(alloc)?),
        label: String::from_str(alloc, label)?,
    })
}

/// Makes a contract, or tells why not.
fn try_create(
    alloc: Global,
    layers: &mut Layers<Plain>,
    code_id: u64,
    label: &str,
) -> Result<String, AllocError>
    requires lawful { HasLawful (HasCurrent ⟦<Plain as Base>⟧.stands_for layers.old) }
    ensures { OnOk result (HasLawful (HasCurrent ⟦<Plain as Base>⟧.stands_for layers.new)) }
{
    let contract = contract_of(alloc, code_id, label)?;
    let done = create(alloc, layers, &PLACE, &contract);
    let text = text_of(alloc, done)?;
    Ok(text)
}

/// Gives the contract an admin or none, or tells why not.
fn try_set_admin(
    alloc: Global,
    layers: &mut Layers<Plain>,
    sender: &[u8],
    admin: Option<&[u8]>,
) -> Result<String, AllocError>
    requires admin { IfSome (option_copied admin) IsAddress }
    requires lawful { HasLawful (HasCurrent ⟦<Plain as Base>⟧.stands_for layers.old) }
    ensures { OnOk result (HasLawful (HasCurrent ⟦<Plain as Base>⟧.stands_for layers.new)) }
{
    let done = set_admin(alloc, layers, sender, &PLACE, admin);
    let text = text_of(alloc, done)?;
    Ok(text)
}

/// Gives the contract a code, or tells why not.
fn try_set_code(
    alloc: Global,
    layers: &mut Layers<Plain>,
    sender: &[u8],
    code_id: u64,
) -> Result<String, AllocError>
    requires lawful { HasLawful (HasCurrent ⟦<Plain as Base>⟧.stands_for layers.old) }
    ensures { OnOk result (HasLawful (HasCurrent ⟦<Plain as Base>⟧.stands_for layers.new)) }
{
    let done = set_code(alloc, layers, sender, &PLACE, code_id);
    let text = text_of(alloc, done)?;
    Ok(text)
}

/// Who may instantiate a code, or what an address has.
fn seen(alloc: Global, layers: &Layers<Plain>, act: Act) -> Result<String, AllocError>
    requires { HasLawful (HasCurrent ⟦<Plain as Base>⟧.stands_for layers.now) }
{
    match act {
        Act::May(sender, id) => text_of(alloc, may_make(alloc, layers, sender, id)),
        Act::Find(addr) => found_text(alloc, find(alloc, layers, addr)?),
        _ => Ok(String::new(alloc)),
    }
}

/// Does this, or looks at it, and tells what came of it.
fn told(alloc: Global, layers: &mut Layers<Plain>, act: Act) -> Result<String, AllocError>
    requires lawful { HasLawful (HasCurrent ⟦<Plain as Base>⟧.stands_for layers.old) }
    ensures { OnOk result (HasLawful (HasCurrent ⟦<Plain as Base>⟧.stands_for layers.new)) }
{
    match act {
        Act::Create(id, label) => try_create(alloc, layers, id, label),
        Act::SetAdmin(sender, admin) => try_set_admin(alloc, layers, sender, Some(admin)),
        Act::ClearAdmin(sender) => try_set_admin(alloc, layers, sender, None),
        Act::SetCode(sender, id) => try_set_code(alloc, layers, sender, id),
        Act::Take => {
            let id = take_instance(alloc, layers)?;
            format!(in alloc; "{id}")
        }
        _ => seen(alloc, layers, act),
    }
}

/// Does these one after another, and compares what comes of each.
fn expect_all(
    rt: &impl Abort,
    alloc: Global,
    next_instance: u64,
    acts: &[(Act, &str)],
) -> Result<(), Fail> {
    let mut layers = chain(alloc, next_instance)?;
    for (act, want) in acts {
        let text = told(alloc, &mut layers, *act)?;
        assert_eq!(rt; text.as_str(), *want, "after {want}");
    }
    Ok(())
}

#[test]
fn a_list_says_who_may_instantiate_a_code_and_an_empty_one_nobody(
    rt: HostRuntime,
) -> Result<(), Fail> {
    let acts: &[(Act, &str)] = &[
        (Act::May(&ONE, 1), "done"),
        (Act::May(&OTHER, 1), "done"),
        (Act::May(&ONE, 2), "the sender may not instantiate the code"),
        (Act::May(&ONE, 3), "done"),
        (
            Act::May(&OTHER, 3),
            "the sender may not instantiate the code",
        ),
        (Act::May(&ONE, 4), "there is no code 4"),
        (Act::May(&ONE, 0), "there is no code 0"),
    ];
    expect_all(&rt, rt.alloc(), 1, acts)
}

#[test]
fn a_contract_is_made_once_and_its_label_is_looked_at_first(rt: HostRuntime) -> Result<(), Fail> {
    let acts: &[(Act, &str)] = &[
        (Act::Create(4, ""), "the label is empty or too long"),
        (Act::Create(4, "l"), "there is no code 4"),
        (Act::Find(&PLACE), "nothing"),
        (Act::Create(2, "l"), "done"),
        (Act::Find(&PLACE), "2 one l"),
        (Act::Find(&ONE), "nothing"),
        (Act::Create(4, "m"), "there is no code 4"),
        (Act::Create(1, "m"), "there is a contract with this address"),
        (Act::Find(&PLACE), "2 one l"),
    ];
    expect_all(&rt, rt.alloc(), 1, acts)
}

#[test]
fn its_admin_alone_changes_a_contract(rt: HostRuntime) -> Result<(), Fail> {
    let not_admin = "the sender isn't the contract's admin";
    let acts: &[(Act, &str)] = &[
        (Act::ClearAdmin(&ONE), "there is no such contract"),
        (Act::SetCode(&ONE, 9), "there is no such contract"),
        (Act::Create(1, "l"), "done"),
        (Act::SetAdmin(&OTHER, &OTHER), not_admin),
        (Act::SetCode(&OTHER, 9), not_admin),
        (Act::SetCode(&ONE, 9), "there is no code 9"),
        (Act::SetCode(&ONE, 3), "done"),
        (Act::Find(&PLACE), "3 one l"),
        (Act::SetAdmin(&ONE, &OTHER), "done"),
        (Act::Find(&PLACE), "3 other l"),
        (Act::SetAdmin(&ONE, &ONE), not_admin),
        (Act::ClearAdmin(&OTHER), "done"),
        (Act::Find(&PLACE), "3 nobody l"),
        (Act::SetAdmin(&OTHER, &OTHER), not_admin),
        (Act::SetCode(&OTHER, 1), not_admin),
        (Act::Find(&PLACE), "3 nobody l"),
    ];
    expect_all(&rt, rt.alloc(), 1, acts)
}

#[test]
fn after_the_last_number_of_an_instance_comes_0(rt: HostRuntime) -> Result<(), Fail> {
    let acts: &[(Act, &str)] = &[
        (Act::Take, "18446744073709551614"),
        (Act::Take, "18446744073709551615"),
        (Act::Take, "0"),
        (Act::Take, "1"),
    ];
    expect_all(&rt, rt.alloc(), u64::MAX - 1, acts)
}

#[test]
fn a_label_has_1_to_128_bytes(rt: HostRuntime) -> Result<(), Fail> {
    let alloc = rt.alloc();
    // what the label is made of, how often, and whether it may be one
    for (piece, times, fits) in [
        ("a", 0, false),
        ("a", 1, true),
        ("a", 128, true),
        ("a", 129, false),
        ("é", 64, true),
        ("é", 65, false),
    ] {
        let mut label = String::new(alloc);
        for _ in 0..times {
            label.push_str(piece)?;
        }
        assert_eq!(rt; is_label(label.as_str()), fits, "{piece} {times}");
    }
    Ok(())
}
