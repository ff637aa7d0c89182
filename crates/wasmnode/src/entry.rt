ghost use Rattle.std.specs.Prelude.{◌≡◌, ◌+◌, ◌<◌, ◌≤◌, ◌^◌, string_bytes, IfOk, OnOk};
ghost use Rattle.chain_addr.specs.Letters.{IsPrefix};
ghost use Rattle.block_runner.specs.Opening.{opened};
ghost use Rattle.chain_msgs.specs.Plain.{genesis_view};
ghost use Rattle.line_protocol.specs.Forms.{line_of};
ghost use Rattle.wasmnode.specs.History.{entry_text, entry_next};
ghost use Rattle.wasmnode.specs.Reading.{opened_by, opening_in, entry_in, read_as};
ghost use Rattle.wasmnode.specs.Said.{entry_view, SaysEntry, SaysStart, OpensStart, kind_of};
ghost use Rattle.wasmnode.specs.Standing.{StandsFor, IsChain, OfChain};

use crate::chain::Chain;
use block_runner::GenesisStop;
use chain_msgs::{Block, Genesis};
use line_protocol::{BadKind, Line, ParseStop, Question, RawLine, genesis_text, parse};
use std::alloc::{AllocError, Global};

/// What a line after the genesis asks of the chain.
#[derive(Drop)]
pub(crate) enum Entry {
    Block(Block),
    Query(Question),
}

/// A chain at height 0, and the line that answers its genesis.
#[derive(Drop)]
pub(crate) struct Start {
    pub(crate) chain: Chain,
    pub(crate) text: Vec<u8>,
}

/// What a genesis that opens no chain is to its line.
fn stop_of_genesis(stop: GenesisStop) -> ParseStop
    ensures { result ≡ kind_of stop }
{
    match stop {
        GenesisStop::Address => ParseStop::Bad(BadKind::Address),
        GenesisStop::Coins => ParseStop::Bad(BadKind::Coins),
        GenesisStop::Supply => ParseStop::Bad(BadKind::Supply),
        GenesisStop::NoMemory => ParseStop::NoMemory,
    }
}

/// The start that a genesis gives.
fn start_with(alloc: Global, keep: usize, genesis: &Genesis) -> Result<Start, ParseStop>
    requires prefix { IsPrefix (string_bytes genesis.now.prefix) }
    requires keep { 1 ≤ keep }
    ensures { OpensStart keep result
        (opened_by (genesis_view genesis.now) (opened (genesis_view genesis.now))) }
{
    match Chain::open(alloc, genesis, keep) {
        Ok(chain) => Ok(Start {
            chain,
            text: genesis_text(alloc, genesis)?,
        }),
        Err(stop) => Err(stop_of_genesis(stop)),
    }
}

/// The start that a line before the genesis gives, or `None` where it is empty.
pub(crate) fn start_of(
    alloc: Global,
    keep: usize,
    line: &RawLine,
) -> Result<Option<Start>, ParseStop>
    requires keep { 1 ≤ keep }
    ensures { SaysStart keep result
        (read_as opening_in (line_of line.now.number line.now.bytes.items)) }
{
    match parse(alloc, line.number, &line.bytes)? {
        Line::Empty => Ok(None),
        Line::Genesis(genesis) => Ok(Some(start_with(alloc, keep, &genesis)?)),
        Line::Block(_) | Line::Query(_) => Err(ParseStop::Bad(BadKind::Order)),
    }
}

/// The entry that a line after the genesis is, or `None` where it is empty.
pub(crate) fn entry_of(alloc: Global, line: &RawLine) -> Result<Option<Entry>, ParseStop>
    ensures { SaysEntry result (read_as entry_in (line_of line.now.number line.now.bytes.items)) }
{
    match parse(alloc, line.number, &line.bytes)? {
        Line::Empty => Ok(None),
        Line::Genesis(_) => Err(ParseStop::Bad(BadKind::Order)),
        Line::Block(block) => Ok(Some(Entry::Block(block))),
        Line::Query(question) => Ok(Some(Entry::Query(question))),
    }
}

/// Delivers a block or answers a query, and gives its line.
pub(crate) fn process(
    chain: &mut Chain,
    alloc: Global,
    entry: &Entry,
) -> Result<Vec<u8>, AllocError>
    requires low { chain.old.height + 1 < 2 ^ 64 }
    requires stands { IsChain chain.old }
    ensures text { IfOk result (λ text. OfChain chain.old (λ keep h. text.items
        ≡ entry_text keep h (entry_view entry.now))) }
    ensures next { OnOk result (OfChain chain.old (λ keep h. StandsFor keep chain.new
        (entry_next h (entry_view entry.now)))) }
    ensures low { OnOk result (chain.new.height ≤ chain.old.height + 1) }
{
    match entry {
        Entry::Block(block) => chain.deliver(alloc, block),
        Entry::Query(question) => chain.answer(alloc, question),
    }
}
