ghost use Rattle.std.specs.Prelude.{◌≡◌, All, map, option_map, string_bytes, IfOk, IfSome};
ghost use Rattle.chain_addr.specs.Address.{address_of};
ghost use Rattle.chain_addr.specs.Letters.{IsPrefix};
ghost use Rattle.chain_msgs.specs.Plain.{holding_view};
ghost use Rattle.chain_records.specs.Keys.{IsAddress};
ghost use Rattle.chain_records.specs.Records.{bytes_view};
ghost use Rattle.block_runner.specs.Opening.{bad_address, all_read, optional_address, are_unlike};
ghost use Rattle.block_runner.specs.Reads.{Reads};

use crate::stop::GenesisStop;
use chain_addr::{AddrFault, decode};
use coin_amounts::RawCoin;
use std::alloc::{AllocError, Global};
use std::collections::BTreeSet;

/// The bytes of the address that a text is, in lower or in upper case.
fn read_address(alloc: Global, prefix: &str, text: &str) -> Result<Vec<u8>, GenesisStop>
    requires { IsPrefix prefix.now }
    ensures reads { Reads bad_address bytes_view result (address_of prefix.now text.now) }
    ensures sized { IfOk result (λ address. IsAddress address.items) }
{
    match decode(alloc, prefix, text) {
        Ok(bytes) => Ok(bytes),
        Err(AddrFault::Bad { .. }) => Err(GenesisStop::Address),
        Err(AddrFault::NoMemory) => Err(GenesisStop::NoMemory),
    }
}

/// An address that may be left out.
pub(crate) fn optional_address(
    alloc: Global,
    prefix: &str,
    text: &Option<String>,
) -> Result<Option<Vec<u8>>, GenesisStop>
    requires { IsPrefix prefix.now }
    ensures reads { Reads bad_address (option_map bytes_view) result
        (optional_address prefix.now (option_map string_bytes text.now)) }
    ensures sized { IfOk result (λ address. IfSome (option_map bytes_view address) IsAddress) }
{
    match text {
        Some(text) => Ok(Some(read_address(alloc, prefix, text.as_str())?)),
        None => Ok(None),
    }
}

/// The addresses of all accounts, in order.
pub(crate) fn addresses_of(
    alloc: Global,
    prefix: &str,
    holdings: &[(String, Vec<RawCoin>)],
) -> Result<Vec<Vec<u8>>, GenesisStop>
    requires { IsPrefix prefix.now }
    ensures reads { Reads bad_address (λ addresses. map bytes_view addresses.items) result
        (all_read (λ h. address_of prefix.now h.0) (map holding_view holdings.now)) }
    ensures sized { IfOk result (λ addresses. All (λ a. IsAddress a.items) addresses.items) }
{
    let mut addresses = Vec::with_capacity(alloc, holdings.len())?;
    for holding in holdings {
        addresses.push(read_address(alloc, prefix, holding.0.as_str())?)?;
    }
    Ok(addresses)
}

fn copied(alloc: Global, address: &[u8]) -> Result<Vec<u8>, AllocError>
    ensures { IfOk result (λ copy. copy.items ≡ address.now) }
{
    let copy = address.to_vec(alloc)?;
    Ok(copy)
}

/// Whether no address stands twice among these.
pub(crate) fn are_unlike(alloc: Global, addresses: &[Vec<u8>]) -> Result<bool, AllocError>
    ensures { IfOk result (λ unlike. unlike ≡ are_unlike (map bytes_view addresses.now)) }
{
    let mut before = BTreeSet::new(alloc);
    for address in addresses {
        if !before.insert(copied(alloc, address)?)? {
            return Ok(false);
        }
    }
    Ok(true)
}
