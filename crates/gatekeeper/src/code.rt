ghost use Rattle.wasm_types.specs.ModuleText.{AreBytes};
ghost use Rattle.gatekeeper.specs.Accepted.{IsAccepted};

use sha2::{Digest, Sha256};
use std::alloc::AllocError;

/// A code that the gate takes where the chain has the capabilities that it requires.
#[derive(Debug, Drop)]
pub struct ValidCode {
    bytes: Vec<u8>,
    pub ghost accepted: { IsAccepted bytes.items },
}

fn are_bytes(bytes: &[u8])
    ensures { AreBytes bytes.now }
{}

impl ValidCode {
    ghost use Rattle.std.specs.Prelude.{◌≡◌, IfOk};
    ghost use Rattle.sha2.specs.Sha256.{sha256};
    ghost use Rattle.gatekeeper.specs.CodeBytes.{code_bytes};

    /// A code that was found acceptable before. It takes no memory.
    pub fn of_checked(code: Vec<u8>) -> Result<ValidCode, AllocError>
        requires { IsAccepted code.items }
        ensures { IfOk result (λ c. code_bytes c ≡ code.items) }
    {
        Ok(ValidCode { bytes: code })
    }

    /// That the code was accepted, and that its bytes are bytes, for proofs.
    pub fn is_accepted(&self)
        ensures accepted { IsAccepted (code_bytes self.now) }
        ensures bytes { AreBytes (code_bytes self.now) }
    {
        are_bytes(&self.bytes);
    }

    pub fn bytes(&self) -> &[u8]
        ensures { result.now ≡ code_bytes self.now }
    {
        &self.bytes
    }

    /// The SHA-256 of the bytes, computed at each call.
    pub fn checksum(&self) -> [u8; 32]
        ensures { result ≡ sha256 (code_bytes self.now) }
    {
        Sha256::digest(self.bytes.as_slice())
    }
}
