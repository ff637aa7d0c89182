ghost use Rattle.std.specs.Prelude.{◌≡◌, ◌<◌, ◌↔◌, All, IfOk, IfErr, IsTrue, Ok, string_bytes};
ghost use Rattle.chain_addr.specs.Address.{address_of, Decodes};
ghost use Rattle.chain_addr.specs.Bech32.{IsBech32};
ghost use Rattle.chain_addr.specs.Letters.{IsPrefix};
ghost use Rattle.chain_addr.specs.Reading.{ReadsAs, IsReported, IsNormal, lower};
ghost use Rattle.chain_addr.specs.Text.{text_of};

use crate::characters::lower;
use crate::checksum::{after_values, closing_values, of_prefix};
use crate::fault::{AddrFault, Misread};
use crate::groups::grouped;
use crate::letters::push_letters;
use crate::read::{MOST_BYTES, read};
use std::alloc::{AllocError, Global};

/// The text of the bytes of an address.
pub fn encode(alloc: Global, prefix: &str, bytes: &[u8]) -> Result<String, AllocError>
    requires { IsPrefix prefix.now }
    ensures bech32 { IfOk result (λ text. IsBech32 prefix.now bytes.now (string_bytes text)) }
    ensures text { IfOk result (λ text. string_bytes text ≡ text_of prefix.now bytes.now) }
{
    let groups = grouped(alloc, bytes)?;
    let check = closing_values(after_values(of_prefix(prefix.as_bytes()), &groups));
    let mut text = String::from_str(alloc, prefix)?;
    text.push('1')?;
    push_letters(&mut text, &groups)?;
    push_letters(&mut text, &check)?;
    Ok(text)
}

/// The bytes of an address, of its text in lower or in upper case.
pub fn decode(alloc: Global, prefix: &str, text: &str) -> Result<Vec<u8>, AddrFault>
    requires { IsPrefix prefix.now }
    ensures ok { IfOk result (λ bytes. ReadsAs prefix.now text.now (Ok bytes.items)) }
    ensures bad { IfErr result (λ fault. IsReported prefix.now text.now fault) }
    ensures address { Decodes result (address_of prefix.now text.now) }
{
    let mut buffer = [0; MOST_BYTES];
    match read(prefix.as_bytes(), text.as_bytes(), &mut buffer) {
        Ok(count) => owned(alloc, &buffer[..count]),
        Err(Misread { kind, at }) => Err(AddrFault::Bad { kind, at }),
    }
}

fn owned(alloc: Global, bytes: &[u8]) -> Result<Vec<u8>, AddrFault>
    ensures ok { IfOk result (λ copy. copy.items ≡ bytes.now) }
    ensures bytes { All (λ b. b < 256) bytes.now }
    ensures err { IfErr result (λ fault. fault ≡ AddrFault.NoMemory) }
{
    bytes.to_vec(alloc).map_err(|_| AddrFault::NoMemory)
}

/// Whether a text is that of an address in lower case. It takes no memory.
pub fn is_normal(prefix: &str, text: &str) -> bool
    requires { IsPrefix prefix.now }
    ensures { IsTrue result ↔ IsNormal prefix.now text.now }
{
    let mut buffer = [0; MOST_BYTES];
    read(prefix.as_bytes(), text.as_bytes(), &mut buffer).is_ok() && has_no_upper(text.as_bytes())
}

fn has_no_upper(text: &[u8]) -> bool
    ensures { IsTrue result ↔ All (λ c. lower c ≡ c) text.now }
{
    text.iter().all(|c| lower(*c) == *c)
}
