ghost use Rattle.std.specs.Prelude.{ℕ, ◌≡◌, ◌++◌, List, Ok};
ghost use Rattle.sha2.specs.Hashers.{Holds256};
ghost use Rattle.chain_addr.specs.Contract.{classic_address, predictable_address, after_length};

use sha2::{Digest, Sha256};
use std::alloc::AllocError;

/// The address of the instance with this number, made of the code with this number.
pub fn classic(code: u64, instance: u64) -> [u8; 32]
    ensures { result ≡ classic_address code instance }
{
    let mut hasher = Sha256::new();
    hasher.update(Sha256::digest(b"module"));
    hasher.update(b"wasm\0");
    hasher.update(code.to_be_bytes());
    hasher.update(instance.to_be_bytes());
    hasher.finalize()
}

/// The address of an instance that its creator makes of a code under a salt. It takes no memory.
pub fn predictable(checksum: &[u8; 32], creator: &[u8], salt: &[u8]) -> Result<[u8; 32], AllocError>
    ensures { result ≡ Ok (predictable_address checksum.now creator.now salt.now) }
{
    let mut hasher = Sha256::new();
    hasher.update(Sha256::digest(b"module"));
    hasher.update(b"wasm\0");
    update_after_length(&mut hasher, checksum.as_slice());
    update_after_length(&mut hasher, creator);
    update_after_length(&mut hasher, salt);
    update_after_length(&mut hasher, b"");
    Ok(hasher.finalize())
}

fn update_after_length(hasher: &mut Sha256, bytes: &[u8])
    ensures { (m : List ℕ) → Holds256 hasher.old m →
        Holds256 hasher.new (m ++ after_length bytes.now) }
{
    hasher.update((bytes.len() as u64).to_be_bytes());
    hasher.update(bytes);
}
