use std::alloc::{AllocError, Global};
use std::process::Abort;
use std::test::Fail;
use wasm_reader::{ReadStop, read, spells};
use wasm_types::Module;
use wasm_writer::{common, echo, keeper, sign, spin, write};

/// The module and the code of each sample contract.
fn samples(alloc: Global) -> Result<Vec<(Module, Vec<u8>)>, AllocError> {
    let mut samples = Vec::new(alloc);
    let module = echo(alloc)?;
    let code = write(alloc, &module)?;
    samples.push((module, code))?;
    let module = spin(alloc)?;
    let code = write(alloc, &module)?;
    samples.push((module, code))?;
    let module = common(alloc)?;
    let code = write(alloc, &module)?;
    samples.push((module, code))?;
    let module = sign(alloc)?;
    let code = write(alloc, &module)?;
    samples.push((module, code))?;
    samples.push(keeper_sample(alloc)?)?;
    Ok(samples)
}

fn keeper_sample(alloc: Global) -> Result<(Module, Vec<u8>), AllocError> {
    let module = keeper(alloc)?;
    let code = write(alloc, &module)?;
    Ok((module, code))
}

#[test]
fn each_code_is_read_as_the_module_that_it_spells(rt: HostRuntime) -> Result<(), Fail> {
    let alloc = rt.alloc();
    for (module, code) in samples(alloc)? {
        assert!(rt; read(alloc, &code)? == module);
        assert!(rt; spells(alloc, &module, &code)?);
    }
    Ok(())
}

/// Changes the lowest bit of a byte.
fn flip(code: &mut [u8], place: usize) {
    if let Some(byte) = code.get_mut(place) {
        *byte ^= 1;
    }
}

#[test]
fn a_code_with_another_byte_spells_another_module(rt: HostRuntime) -> Result<(), Fail> {
    let alloc = rt.alloc();
    for (module, mut code) in samples(alloc)? {
        for place in 0..code.len() {
            flip(&mut code, place);
            assert!(rt; !spells(alloc, &module, &code)?, "at {place}");
            flip(&mut code, place);
        }
    }
    Ok(())
}

/// The bytes spell a module other than this one, or none.
fn expect_another(
    rt: &impl Abort,
    alloc: Global,
    module: &Module,
    bytes: &[u8],
) -> Result<(), Fail> {
    match read(alloc, bytes) {
        Ok(found) => {
            assert!(rt; found != *module, "at {}", bytes.len());
            assert!(rt; spells(alloc, &found, bytes)?, "at {}", bytes.len());
        }
        Err(stop) => assert!(rt; stop != ReadStop::NoMemory),
    }
    assert!(rt; !spells(alloc, module, bytes)?, "at {}", bytes.len());
    Ok(())
}

#[test]
fn a_front_of_a_code_spells_another_module_or_none(rt: HostRuntime) -> Result<(), Fail> {
    let alloc = rt.alloc();
    let (module, code) = keeper_sample(alloc)?;
    for len in 0..code.len() {
        expect_another(&rt, alloc, &module, &code[..len])?;
    }
    Ok(())
}
