ghost use Rattle.std.specs.Prelude.{◌≡◌, map, option_map, string_bytes, IfOk};
ghost use Rattle.chain_addr.specs.Letters.{IsPrefix};
ghost use Rattle.chain_msgs.specs.Plain.{genesis_view};
ghost use Rattle.chain_records.specs.Records.{bytes_view, plain_facts};
ghost use Rattle.block_runner.specs.Answers.{Opens};
ghost use Rattle.block_runner.specs.Opening.{facts_of, opened};

use crate::addresses::{addresses_of, are_unlike, optional_address};
use crate::crediting::records_of;
use crate::holdings::all_coins;
use crate::stop::GenesisStop;
use chain_msgs::Genesis;
use chain_records::Facts;
use kv_layers::Plain;
use std::alloc::{AllocError, Global};

fn copied_texts(alloc: Global, texts: &[String]) -> Result<Vec<String>, AllocError>
    ensures { IfOk result (λ copies. map string_bytes copies.items ≡ map string_bytes texts.now) }
{
    let mut copies = Vec::with_capacity(alloc, texts.len())?;
    for text in texts {
        copies.push(text.clone()?)?;
    }
    Ok(copies)
}

/// What the chain's state keeps of a genesis.
fn facts_of(alloc: Global, g: &Genesis, authority: Option<Vec<u8>>) -> Result<Facts, AllocError>
    ensures { IfOk result (λ facts. plain_facts facts
        ≡ facts_of (genesis_view g.now) (option_map bytes_view authority)) }
{
    let chain_id = g.chain_id.clone()?;
    let prefix = g.prefix.clone()?;
    let caps = copied_texts(alloc, &g.capabilities)?;
    Ok(Facts {
        chain_id,
        prefix,
        authority,
        caps,
        query_gas: g.query_gas,
        height: 0,
        time: g.time,
    })
}

/// The records that a chain with this genesis begins with.
pub fn genesis(alloc: Global, g: &Genesis) -> Result<Plain, GenesisStop>
    requires prefix { IsPrefix (string_bytes g.now.prefix) }
    ensures { Opens (genesis_view g.now) result (opened (genesis_view g.now)) }
{
    let authority = optional_address(alloc, g.prefix.as_str(), &g.authority)?;
    let addresses = addresses_of(alloc, g.prefix.as_str(), &g.balances)?;
    if !are_unlike(alloc, &addresses)? {
        return Err(GenesisStop::Address);
    }
    let coins = all_coins(alloc, &g.balances)?;
    let facts = facts_of(alloc, g, authority)?;
    records_of(alloc, facts, &addresses, &coins)
}
