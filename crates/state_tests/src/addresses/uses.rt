//! What callers make of the laws.

ghost use Rattle.std.specs.Prelude.{◌≡◌, ◌≤◌, length, IfOk};
ghost use Rattle.chain_addr.specs.Letters.{IsPrefix};

use chain_addr::{AddrFault, decode, encode, texts_are_read_back};
use std::alloc::Global;

/// The bytes of an address that is written and then read.
pub(super) fn written_and_read(
    alloc: Global,
    prefix: &str,
    bytes: &[u8],
) -> Result<Vec<u8>, AddrFault>
    requires prefix { IsPrefix prefix.now }
    requires some { 1 ≤ length bytes.now }
    requires few { length bytes.now ≤ 64 }
    ensures { IfOk result (λ read. read.items ≡ bytes.now) }
{
    texts_are_read_back();
    match encode(alloc, prefix, bytes) {
        Ok(text) => decode(alloc, prefix, text.as_str()),
        Err(_) => Err(AddrFault::NoMemory),
    }
}
