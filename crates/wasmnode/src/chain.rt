ghost use Rattle.std.specs.Prelude.{ℕ, ◌≡◌, ◌+◌, ◌<◌, ◌≤◌, ◌^◌, Option, length, string_bytes, OnOk, OnErr, IfOk};
ghost use Rattle.chain_addr.specs.Letters.{IsPrefix};
ghost use Rattle.chain_msgs.specs.Plain.{genesis_view, block_view};
ghost use Rattle.chain_records.specs.State.{State};
ghost use Rattle.gatekeeper.specs.Cache.{Tally};
ghost use Rattle.line_protocol.specs.Parts as parts;
ghost use Rattle.line_protocol.specs.Plain.{question_view, query_result_view, reply_view};
ghost use Rattle.query_router.specs.Answering.{Gives};
ghost use Rattle.query_router.specs.Queries.{Queried};
ghost use Rattle.state_runs.specs.Runs.{map_of};
ghost use Rattle.block_runner.specs.Opening.{opened};
ghost use Rattle.wasmnode.specs.Asking.{IsAnswered, IsReplied, Finds};
ghost use Rattle.wasmnode.specs.Chain.{result_of, block_answer, reply_of, query_answer};
ghost use Rattle.wasmnode.specs.History.{newest, chain_of, state_of, with_block};
ghost use Rattle.wasmnode.specs.Merging.{most_runs, IsBase, IsNewestBase, HasAdded};
ghost use Rattle.wasmnode.specs.Standing.{Shows, StandsFor, IsChain, OfChain, OpensAs};

use block_runner::{GenesisStop, genesis, run_block};
use chain_msgs::{Answer, Block, Genesis};
use circular_buffer::HeapCircularBuffer;
use gas_meter::{Meter, Schedule};
use gatekeeper::Decoding;
use kv_layers::Layers;
use line_protocol::{QueryReply, QueryResult, Question, block_text, query_text};
use query_router::{QueryStop, query};
use state_runs::Snapshot;
use std::alloc::{AllocError, Global};

/// A snapshot of more runs is merged into one before the next block.
const MOST_RUNS: u32 = 16;

/// The chain at its newest height, and those before it that can still be asked.
#[derive(Drop)]
pub struct Chain {
    /// The states of the newest heights, oldest first.
    heights: HeapCircularBuffer<Snapshot>,
    height: u64,
    /// The gas that a query has.
    query_gas: u64,
    /// The digest of the newest block.
    digest: [u8; 32],
}

/// What a query with so much gas is answered on a state, and the gas that it uses.
fn answer_on(
    alloc: Global,
    snapshot: &Snapshot,
    request: &[u8],
    query_gas: u64,
) -> Result<(u64, QueryResult), AllocError>
    requires { (s : State) × Shows snapshot.now s }
    ensures { IfOk result (λ answer. (s : State) → Shows snapshot.now s
        → IsAnswered s request.now query_gas answer.0 (query_result_view answer.1)) }
{
    let costs = Schedule::standard();
    let mut meter = Meter::new(query_gas);
    let mut layers = Layers::new(alloc, snapshot);
    let mut modules = Decoding::new();
    let answer = query(
        alloc,
        &mut layers,
        &mut modules,
        request,
        &mut meter,
        &costs,
        0,
    );
    let result = result_of(answer)?;
    Ok((meter.used(), result))
}

/// What a query line is answered, by what the query gave.
fn result_of(answer: Result<Answer, QueryStop>) -> Result<QueryResult, AllocError>
    ensures { IfOk result (λ found. (q : Queried) (left : ℕ) (before after : Option Tally)
        → Gives answer left before after q
        → (query_result_view found ≡ result_of q.answer) × (q.left ≡ left)) }
{
    match answer {
        Ok(answer) => Ok(QueryResult::Answer(answer)),
        Err(QueryStop::OutOfGas) => Ok(QueryResult::OutOfGas),
        Err(QueryStop::NoMemory) => Err(AllocError),
    }
}

/// What a block is added to: the same state, merged exactly where it has too many runs.
fn base_of(alloc: Global, snapshot: &Snapshot) -> Result<Snapshot, AllocError>
    ensures map { IfOk result (λ base. map_of base ≡ map_of snapshot.now) }
    ensures few { IfOk result (λ base. length base ≤ most_runs) }
    ensures merged { IfOk result (λ base. IsBase snapshot.now base) }
{
    if snapshot.runs() > MOST_RUNS {
        snapshot.merge(alloc)
    } else {
        snapshot.share(alloc)
    }
}

impl Chain {
    /// The chain that a genesis opens, which keeps so many heights.
    pub fn open(alloc: Global, g: &Genesis, keep: usize) -> Result<Chain, GenesisStop>
        requires prefix { IsPrefix (string_bytes g.now.prefix) }
        requires keep { 1 ≤ keep }
        ensures opens { OpensAs keep (genesis_view g.now) result (opened (genesis_view g.now)) }
        ensures low { IfOk result (λ chain. chain.height ≡ 0) }
    {
        let records = match genesis(alloc, g) {
            Ok(records) => records,
            Err(stop) => return Err(stop),
        };
        let mut heights = HeapCircularBuffer::with_capacity(alloc, keep)?;
        heights.push_back(Snapshot::from_plain(alloc, records)?);
        Ok(Chain {
            heights,
            height: 0,
            query_gas: g.query_gas,
            digest: [0; 32],
        })
    }

    /// The newest state, to which a block can be added.
    fn base(&self, alloc: Global) -> Result<Snapshot, AllocError>
        requires { IsChain self.now }
        ensures shows { IfOk result (λ base. OfChain self.now (λ keep h. Shows base
            (state_of h (newest h)))) }
        ensures few { IfOk result (λ base. length base ≤ most_runs) }
        ensures merged { IfOk result (λ base. IsNewestBase self.now.heights base) }
    {
        match self.heights.back() {
            Some(snapshot) => Ok(base_of(alloc, snapshot)?),
            None => unreachable!(),
        }
    }

    /// Delivers a block, and gives the line that answers it. A number of transactions that has no place
    /// in 32 bits, which no line has, is answered like want of memory. After an `Err` the chain is as it was.
    /// The newest snapshot is merged first exactly where it has more than 16 runs.
    pub fn deliver(&mut self, alloc: Global, block: &Block) -> Result<Vec<u8>, AllocError>
        requires low { self.old.height + 1 < 2 ^ 64 }
        requires stands { IsChain self.old }
        ensures text { IfOk result (λ text. OfChain self.old (λ keep h. text.items
            ≡ block_answer (chain_of h (newest h)) (block_view block.now))) }
        ensures next { OnOk result (OfChain self.old (λ keep h. StandsFor keep self.new
            (with_block h (block_view block.now)))) }
        ensures height { OnOk result (self.new.height ≡ self.old.height + 1) }
        ensures runs { OnOk result (HasAdded self.old.heights self.new.heights) }
        ensures err { OnErr result (self.new ≡ self.old) }
    {
        if block.txs.len() > u32::MAX as usize {
            return Err(AllocError);
        }
        let costs = Schedule::standard();
        let base = self.base(alloc)?;
        let done = run_block(alloc, &base, &mut Decoding::new(), block, &costs)?;
        let height = self.height + 1;
        let (text, digest) = block_text(alloc, height, &done.results, &self.digest)?;
        self.heights.push_back(base.with_delta(alloc, done.delta)?);
        self.height = height;
        self.digest = digest;
        Ok(text)
    }

    /// The state at a height, or the result of a query at it where it isn't kept.
    fn state_at(&self, height: u64) -> Result<&Snapshot, QueryResult>
        requires { IsChain self.now }
        ensures { OfChain self.now (λ keep h. Finds keep h height result) }
    {
        let newest = self.height;
        if height > newest {
            return Err(QueryResult::NotYet { newest });
        }
        match self.heights.nth_back((newest - height) as usize) {
            Some(snapshot) => Ok(snapshot),
            None => Err(QueryResult::Pruned {
                oldest: newest - (self.heights.len() as u64 - 1),
                newest,
            }),
        }
    }

    /// What a query at a height is answered, and the gas that it uses.
    fn result_at(
        &self,
        alloc: Global,
        request: &[u8],
        height: u64,
    ) -> Result<(u64, QueryResult), AllocError>
        requires { IsChain self.now }
        ensures { IfOk result (λ answer. OfChain self.now (λ keep h. (q : parts.Question)
            → q.request ≡ request.now
            → IsReplied keep h q height answer.0 (query_result_view answer.1))) }
    {
        match self.state_at(height) {
            Ok(snapshot) => Ok(answer_on(alloc, snapshot, request, self.query_gas)?),
            Err(missing) => Ok((0, missing)),
        }
    }

    /// The reply to a query at the newest height.
    fn reply(&self, alloc: Global, question: &Question) -> Result<QueryReply, AllocError>
        requires { IsChain self.now }
        ensures { IfOk result (λ reply. OfChain self.now (λ keep h. reply_view reply
            ≡ reply_of (state_of h) keep (question_view question.now) (newest h))) }
    {
        let height = question.height.unwrap_or(self.height);
        let (gas, result) = self.result_at(alloc, &question.request, height)?;
        Ok(QueryReply {
            line: question.line,
            client: question.client,
            n: self.height,
            height,
            gas,
            result,
        })
    }

    /// The line that answers a query at the newest height.
    pub fn answer(&self, alloc: Global, question: &Question) -> Result<Vec<u8>, AllocError>
        requires { IsChain self.now }
        ensures { IfOk result (λ text. OfChain self.now (λ keep h. text.items
            ≡ query_answer (state_of h) keep (question_view question.now) (newest h))) }
    {
        query_text(alloc, &self.reply(alloc, question)?)
    }
}
