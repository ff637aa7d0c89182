ghost use Rattle.std.specs.Prelude.{◌≡◌, ◌≤◌, map, IfOk};
ghost use Rattle.wasm_types.specs.Plain.{plain_module, plain_export, plain_seg, plain_code};
ghost use Rattle.wasm_writer.specs.Samples.{exported, entries, bodies, code_of, data_at, region, answer, echo_with, keeper_with, common_with, echo_module, spin_module, keeper_module, common_module, sign_module};
ghost use Rattle.wasm_types.specs.ModuleText.{HasSpelling};

use crate::parts::{codes, data_at, env_import, env_imports, exports, mutable_i32, signatures};
use std::alloc::{AllocError, Global};
use wasm_types::{Code, Elem, Export, Init, Instr, Limits, Module, Seg, ValType, Value};

/// The functions that each sample exports, in order.
const ENTRIES: [&str; 9] = [
    "interface_version_8",
    "allocate",
    "deallocate",
    "instantiate",
    "execute",
    "migrate",
    "sudo",
    "query",
    "reply",
];

const LOCAL_GET_0: Instr = Instr::Index { op: 0x20, index: 0 };

const LOCAL_GET_1: Instr = Instr::Index { op: 0x20, index: 1 };

const LOCAL_GET_2: Instr = Instr::Index { op: 0x20, index: 2 };

const GLOBAL_GET_0: Instr = Instr::Index { op: 0x23, index: 0 };

const GLOBAL_SET_0: Instr = Instr::Index { op: 0x24, index: 0 };

const I32_CONST_0: Instr = Instr::Const(Value::I32(0));

const I32_CONST_12: Instr = Instr::Const(Value::I32(12));

const I32_CONST_16: Instr = Instr::Const(Value::I32(16));

const I32_CONST_64: Instr = Instr::Const(Value::I32(64));

const I32_CONST_80: Instr = Instr::Const(Value::I32(80));

const I32_ADD: Instr = Instr::Op(0x6A);

const I32_STORE_0: Instr = Instr::Mem {
    op: 0x36,
    align: 2,
    offset: 0,
};

const I32_STORE_4: Instr = Instr::Mem {
    op: 0x36,
    align: 2,
    offset: 4,
};

const I32_STORE_8: Instr = Instr::Mem {
    op: 0x36,
    align: 2,
    offset: 8,
};

const CALL_0: Instr = Instr::Index { op: 0x10, index: 0 };

const CALL_12: Instr = Instr::Index {
    op: 0x10,
    index: 12,
};

const DROP: Instr = Instr::Op(0x1A);

const BR_0: Instr = Instr::Index { op: 0x0C, index: 0 };

/// A Region where global 0 points, and global 0 moved behind it and its bytes.
const ALLOCATE: [Instr; 18] = [
    GLOBAL_GET_0,
    GLOBAL_GET_0,
    GLOBAL_GET_0,
    I32_CONST_12,
    I32_ADD,
    I32_STORE_0,
    GLOBAL_GET_0,
    LOCAL_GET_0,
    I32_STORE_4,
    GLOBAL_GET_0,
    I32_CONST_0,
    I32_STORE_8,
    GLOBAL_GET_0,
    LOCAL_GET_0,
    I32_ADD,
    I32_CONST_12,
    I32_ADD,
    GLOBAL_SET_0,
];

const LOOP_OF_3: Instr = Instr::Loop {
    result: Some(ValType::I32),
    end: 2,
};

const SPIN_EXECUTE: [Instr; 3] = [LOOP_OF_3, BR_0, Instr::End];

const KEEPER_EXECUTE: [Instr; 4] = [I32_CONST_64, I32_CONST_80, CALL_0, LOCAL_GET_2];

const SIGN_EXECUTE: [Instr; 6] = [
    I32_CONST_0,
    I32_CONST_0,
    I32_CONST_0,
    CALL_12,
    DROP,
    LOCAL_GET_2,
];

const ECHO_TYPES: [(usize, Option<ValType>); 5] = [
    (0, None),
    (1, Some(ValType::I32)),
    (1, None),
    (3, Some(ValType::I32)),
    (2, Some(ValType::I32)),
];

const KEEPER_TYPES: [(usize, Option<ValType>); 6] = [
    (2, None),
    (0, None),
    (1, Some(ValType::I32)),
    (1, None),
    (3, Some(ValType::I32)),
    (2, Some(ValType::I32)),
];

const HOST_TYPES: [(usize, Option<ValType>); 7] = [
    (1, Some(ValType::I32)),
    (2, None),
    (1, None),
    (3, Some(ValType::I32)),
    (2, Some(ValType::I32)),
    (3, Some(ValType::I64)),
    (0, None),
];

/// All imports of a host, with their types.
const HOST_IMPORTS: [(&str, u32); 15] = [
    ("db_read", 0),
    ("db_write", 1),
    ("db_remove", 2),
    ("db_scan", 3),
    ("db_next", 0),
    ("addr_validate", 0),
    ("addr_canonicalize", 4),
    ("addr_humanize", 4),
    ("debug", 2),
    ("query_chain", 0),
    ("abort", 2),
    ("secp256k1_verify", 3),
    ("ed25519_verify", 3),
    ("ed25519_batch_verify", 3),
    ("secp256k1_recover_pubkey", 5),
];

/// The codes of all functions, of which `execute` has this body.
fn codes_with(alloc: Global, execute: &[Instr]) -> Result<Vec<Code>, AllocError>
    ensures { IfOk result (λ v. map plain_code v.items ≡ map code_of (bodies execute.now)) }
{
    codes(
        alloc,
        &[
            &[],
            &ALLOCATE,
            &[],
            &[LOCAL_GET_2],
            execute,
            &[LOCAL_GET_1],
            &[LOCAL_GET_1],
            &[LOCAL_GET_1],
            &[I32_CONST_16],
        ],
    )
}

/// The functions from this one on, under the names of the entries.
fn entries_from(alloc: Global, first: u32) -> Result<Vec<Export>, AllocError>
    requires { first ≤ 15 }
    ensures { IfOk result (λ v. map plain_export v.items ≡ exported first entries) }
{
    exports(alloc, first, &ENTRIES)
}

/// A Region of so many bytes at an offset, and four bytes 0.
fn region(offset: u8, len: u8) -> [u8; 16]
    ensures { result ≡ region offset len }
{
    [offset, 0, 0, 0, len, 0, 0, 0, len, 0, 0, 0, 0, 0, 0, 0]
}

/// What `reply` answers.
fn answer(alloc: Global) -> Result<Seg, AllocError>
    ensures { IfOk result (λ s. plain_seg s ≡ data_at answer) }
{
    let mut bytes = Vec::from_slice(alloc, &region(32, 22))?;
    bytes.extend_from_slice(br#"{"ok":{"data":"cg=="}}"#)?;
    data_at(alloc, 16, &bytes)
}

fn echo_with(alloc: Global, execute: &[Instr]) -> Result<Module, AllocError>
    ensures { IfOk result (λ m. plain_module m ≡ echo_with execute.now) }
{
    Ok(Module {
        types: signatures(alloc, &ECHO_TYPES)?,
        imports: Vec::new(alloc),
        funcs: Vec::from_slice(alloc, &[0, 1, 2, 3, 3, 4, 4, 4, 4])?,
        tables: Vec::new(alloc),
        memories: vec![in alloc; Limits { min: 1, max: None }]?,
        globals: vec![in alloc; mutable_i32(1024)]?,
        exports: entries_from(alloc, 0)?,
        elems: Vec::new(alloc),
        codes: codes_with(alloc, execute)?,
        segs: vec![in alloc; answer(alloc)?]?,
    })
}

/// A contract that answers each message with itself.
pub fn echo(alloc: Global) -> Result<Module, AllocError>
    ensures module { IfOk result (λ m. plain_module m ≡ echo_module) }
    ensures spelled { IfOk result (λ m. HasSpelling (plain_module m)) }
{
    let sample = echo_with(alloc, &[LOCAL_GET_2])?;
    Ok(sample)
}

/// As `echo`, with an `execute` that never ends.
pub fn spin(alloc: Global) -> Result<Module, AllocError>
    ensures module { IfOk result (λ m. plain_module m ≡ spin_module) }
    ensures spelled { IfOk result (λ m. HasSpelling (plain_module m)) }
{
    let sample = echo_with(alloc, &SPIN_EXECUTE)?;
    Ok(sample)
}

fn keeper_with(alloc: Global, execute: &[Instr]) -> Result<Module, AllocError>
    ensures { IfOk result (λ m. plain_module m ≡ keeper_with execute.now) }
{
    let mut sample = echo_with(alloc, execute)?;
    sample.types = signatures(alloc, &KEEPER_TYPES)?;
    sample.imports = vec![in alloc; env_import(alloc, "db_write", 0)?]?;
    sample.funcs = Vec::from_slice(alloc, &[1, 2, 3, 4, 4, 5, 5, 5, 5])?;
    sample.exports = entries_from(alloc, 1)?;
    sample.segs.push(data_at(alloc, 64, &region(96, 1))?)?;
    sample.segs.push(data_at(alloc, 80, &region(97, 1))?)?;
    sample.segs.push(data_at(alloc, 96, b"kv")?)?;
    Ok(sample)
}

/// As `echo`, with an `execute` that writes `v` at the key `k`.
pub fn keeper(alloc: Global) -> Result<Module, AllocError>
    ensures module { IfOk result (λ m. plain_module m ≡ keeper_module) }
    ensures spelled { IfOk result (λ m. HasSpelling (plain_module m)) }
{
    let sample = keeper_with(alloc, &KEEPER_EXECUTE)?;
    Ok(sample)
}

fn common_with(alloc: Global, execute: &[Instr]) -> Result<Module, AllocError>
    ensures { IfOk result (λ m. plain_module m ≡ common_with execute.now) }
{
    let mut sample = echo_with(alloc, execute)?;
    sample.types = signatures(alloc, &HOST_TYPES)?;
    sample.imports = env_imports(alloc, &HOST_IMPORTS)?;
    sample.funcs = Vec::from_slice(alloc, &[6, 0, 2, 3, 3, 4, 4, 4, 4])?;
    sample.tables.push(Limits {
        min: 1,
        max: Some(1),
    })?;
    sample.memories = vec![in alloc; Limits { min: 17, max: None }]?;
    sample.globals.push(mutable_i32(1048576))?;
    sample.exports = entries_from(alloc, 15)?;
    sample.elems.push(Elem {
        table: 0,
        offset: Init::Const(Value::I32(0)),
        funcs: Vec::from_slice(alloc, &[15])?,
    })?;
    Ok(sample)
}

/// As `echo`, with all imports of a host, a table, 17 pages and a second global.
pub fn common(alloc: Global) -> Result<Module, AllocError>
    ensures module { IfOk result (λ m. plain_module m ≡ common_module) }
    ensures spelled { IfOk result (λ m. HasSpelling (plain_module m)) }
{
    let sample = common_with(alloc, &[LOCAL_GET_2])?;
    Ok(sample)
}

/// As `common`, with an `execute` that asks for a signature to be verified.
pub fn sign(alloc: Global) -> Result<Module, AllocError>
    ensures module { IfOk result (λ m. plain_module m ≡ sign_module) }
    ensures spelled { IfOk result (λ m. HasSpelling (plain_module m)) }
{
    let sample = common_with(alloc, &SIGN_EXECUTE)?;
    Ok(sample)
}
