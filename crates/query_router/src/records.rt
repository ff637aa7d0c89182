//! What is read of the chain's records.

ghost use Rattle.std.specs.Prelude.{◌≡◌, IfOk, IfSome, string_bytes};
ghost use Rattle.chain_addr.specs.Address.{address_of};
ghost use Rattle.chain_addr.specs.Letters.{IsPrefix};
ghost use Rattle.chain_records.specs.Keys.{IsAddress};
ghost use Rattle.chain_records.specs.Spelled.{OfEach};
ghost use Rattle.kv_layers.specs.Plain.{value_view};
ghost use Rattle.query_router.specs.Lawful.{HasLawful};

use chain_addr::{AddrFault, decode};
use kv_layers::Base;
use state_records::facts;
use std::alloc::{AllocError, Global};

/// The prefix of the chain's addresses.
pub(crate) fn prefix_of<B: Base>(alloc: Global, view: &B) -> Result<String, AllocError>
    requires { HasLawful (B.stands_for view.now) }
    ensures prefix { IfOk result (λ prefix. OfEach (B.stands_for view.now)
        (λ s. string_bytes prefix ≡ s.facts.prefix)) }
    ensures letters { IfOk result (λ prefix. IsPrefix (string_bytes prefix)) }
{
    let chain = facts(alloc, view)?;
    Ok(chain.prefix)
}

/// The address that a text is under a prefix, if it is one.
pub(crate) fn address_under(
    alloc: Global,
    prefix: &str,
    text: &str,
) -> Result<Option<Vec<u8>>, AllocError>
    requires { IsPrefix prefix.now }
    ensures found { IfOk result (λ found. address_of prefix.now text.now ≡ value_view found) }
    ensures address { IfOk result (λ found. IfSome (value_view found) IsAddress) }
{
    match decode(alloc, prefix, text) {
        Ok(address) => Ok(Some(address)),
        Err(AddrFault::Bad { .. }) => Ok(None),
        Err(AddrFault::NoMemory) => Err(AllocError),
    }
}

/// The address that a text is on this chain, if it is one.
pub(crate) fn address_in<B: Base>(
    alloc: Global,
    view: &B,
    text: &str,
) -> Result<Option<Vec<u8>>, AllocError>
    requires { HasLawful (B.stands_for view.now) }
    ensures found { IfOk result (λ found. OfEach (B.stands_for view.now)
        (λ s. address_of s.facts.prefix text.now ≡ value_view found)) }
    ensures address { IfOk result (λ found. IfSome (value_view found) IsAddress) }
{
    let prefix = prefix_of(alloc, view)?;
    address_under(alloc, &prefix, text)
}
