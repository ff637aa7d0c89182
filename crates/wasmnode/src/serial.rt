ghost use Rattle.std.specs.Prelude.{◌≡◌, ◌≢◌, ◌+◌, ◌<◌, ◌≤◌, ◌^◌, ℕ, List, [], Option, None, OnOk, IfOk, IfErr};
ghost use Rattle.std.specs.Io.KnownBytes.{Appends, IsAtEnd};
ghost use Rattle.outside_io.specs.Cause.{Rose};
ghost use Rattle.outside_io.specs.Pieces.{AppendsFront};
ghost use Rattle.line_protocol.specs.Forms.{line_of};
ghost use Rattle.line_protocol.specs.Progress.{number, size, kept, is_ended, KnowsEnd};
ghost use Rattle.line_protocol.specs.Texts.{line_text, bad_data};
ghost use Rattle.wasmnode.specs.Halts.{Answered, Halts, Ends, Refuses};
ghost use Rattle.wasmnode.specs.Playing.{IsCounted, Passes, Goes, Follows, Breaks};
ghost use Rattle.wasmnode.specs.Reading.{Opening, opens, rest_of, read_as, entry_in};
ghost use Rattle.wasmnode.specs.Said.{IsStart};
ghost use Rattle.wasmnode.specs.Standing.{IsChain, OfChain};
ghost use Rattle.wasmnode.specs.Statuses.{Writes, WritesSome, WritesFinished, WritesFront, IsComplete};

use crate::chain::Chain;
use crate::entry::{Start, entry_of, process, start_of};
use crate::options::Options;
use crate::status::Status;
use crate::stop::{Stop, stop_of_parse};
use line_protocol::{BadKind, Lines, RawLine, bad_text};
use outside_io::{Shelf, Sink, Source, write_all};
use std::alloc::Global;

/// Writes a line.
fn write_line<K: Sink>(sink: &mut K, text: &[u8]) -> Result<(), Stop>
    ensures ok { OnOk result (Appends (K.written sink.old) (K.written sink.new) text.now) }
    ensures err { IfErr result (λ stop. stop ≡ Stop.WriteFault) }
    ensures front { AppendsFront (K.written sink.old) (K.written sink.new) text.now }
    ensures cause { IfErr result (λ _. Rose (K.faults sink.old) (K.faults sink.new)) }
    ensures writes { K.faults sink.old ≤ K.faults sink.new }
{
    match write_all(sink, text) {
        Ok(()) => Ok(()),
        Err(_) => Err(Stop::WriteFault),
    }
}

/// Reads up to the genesis, which opens the chain.
fn open_chain<S: Source>(
    alloc: Global,
    keep: usize,
    lines: &mut Lines,
    source: &mut S,
) -> Result<Start, Stop>
    requires keep { 1 ≤ keep }
    requires end { KnowsEnd lines.old (S.left source.old) }
    requires fresh { (number lines.old ≡ 0) × (size lines.old ≡ 0) × (kept lines.old ≡ []) }
    ensures opens { IfOk result (λ start. (o : Opening) × IsStart keep start o
        × Passes rest_of (opens o) (S.left source.old) (S.left source.new) lines.new) }
    ensures low { IfOk result (λ start. start.chain.height ≡ 0) }
    ensures end { OnOk result (KnowsEnd lines.new (S.left source.new)) }
    ensures counted { OnOk result (IsCounted lines.new) }
    ensures halts { IfErr result (λ stop. (w : Option (List ℕ))
        → Halts keep (S.left source.old) (S.left source.new) w w stop) }
    ensures cause { result ≡ Err Stop.ReadFault → Rose (S.faults source.old) (S.faults source.new) }
    ensures unwritten { result ≢ Err Stop.WriteFault }
    ensures reads { S.faults source.old ≤ S.faults source.new }
{
    let mut number = 1;
    while let Some(line) = lines.next(alloc, source)? {
        match start_of(alloc, keep, &line) {
            Ok(Some(start)) => return Ok(start),
            Ok(None) => number = line.number + 1,
            Err(stop) => return Err(stop_of_parse(line.number, stop)),
        }
    }
    Err(Stop::Bad {
        number,
        kind: BadKind::Missing,
    })
}

/// Answers a line after the genesis.
fn answer_line<K: Sink>(
    alloc: Global,
    chain: &mut Chain,
    line: &RawLine,
    sink: &mut K,
) -> Result<(), Stop>
    requires low { chain.old.height + 1 < 2 ^ 64 }
    requires stands { IsChain chain.old }
    ensures answered { OnOk result (OfChain chain.old (λ keep h.
        Follows keep h (read_as entry_in (line_of line.now.number line.now.bytes.items))
        chain.new (K.written sink.old) (K.written sink.new))) }
    ensures low { OnOk result (chain.new.height ≤ chain.old.height + 1) }
    ensures breaks { IfErr result (λ stop. OfChain chain.old (λ keep h.
        Breaks keep h line.now.number (read_as entry_in (line_of line.now.number line.now.bytes.items))
        (K.written sink.old) (K.written sink.new) stop)) }
    ensures cause { result ≡ Err Stop.WriteFault → Rose (K.faults sink.old) (K.faults sink.new) }
    ensures writes { K.faults sink.old ≤ K.faults sink.new }
{
    match entry_of(alloc, line) {
        Ok(Some(entry)) => write_line(sink, &process(chain, alloc, &entry)?),
        Ok(None) => Ok(()),
        Err(stop) => Err(stop_of_parse(line.number, stop)),
    }
}

/// Answers the lines after the genesis.
fn answer_lines<S: Source, K: Sink>(
    alloc: Global,
    chain: &mut Chain,
    lines: &mut Lines,
    source: &mut S,
    sink: &mut K,
) -> Result<(), Stop>
    requires end { KnowsEnd lines.old (S.left source.old) }
    requires counted { IsCounted lines.old }
    requires low { chain.old.height ≤ number lines.old }
    requires stands { IsChain chain.old }
    ensures answered { OnOk result ((keep : ℕ) (input written : Option (List ℕ)) (o : Opening)
        → Goes keep chain.old lines.old input (S.left source.old) written (K.written sink.old) o []
        → Answered keep input written (K.written sink.new)) }
    ensures read { OnOk result (IsAtEnd (S.left source.new)) }
    ensures halts { IfErr result (λ stop. (keep : ℕ) (input written : Option (List ℕ)) (o : Opening)
        → Goes keep chain.old lines.old input (S.left source.old) written (K.written sink.old) o []
        → Halts keep input (S.left source.new) written (K.written sink.new) stop) }
    ensures read_cause { result ≡ Err Stop.ReadFault → Rose (S.faults source.old) (S.faults source.new) }
    ensures write_cause { result ≡ Err Stop.WriteFault → Rose (K.faults sink.old) (K.faults sink.new) }
    ensures reads { S.faults source.old ≤ S.faults source.new }
    ensures writes { K.faults sink.old ≤ K.faults sink.new }
{
    while let Some(line) = lines.next(alloc, source)? {
        answer_line(alloc, chain, &line, sink)?;
    }
    Ok(())
}

/// Answers the lines of the source up to a bad one.
fn run<S: Source, K: Sink>(
    alloc: Global,
    keep: usize,
    source: &mut S,
    sink: &mut K,
) -> Result<(), Stop>
    requires keep { 1 ≤ keep }
    ensures answered { OnOk result
        (Answered keep (S.left source.old) (K.written sink.old) (K.written sink.new)) }
    ensures read { OnOk result (IsAtEnd (S.left source.new)) }
    ensures halts { IfErr result (Halts keep (S.left source.old) (S.left source.new)
        (K.written sink.old) (K.written sink.new)) }
    ensures read_cause { result ≡ Err Stop.ReadFault → Rose (S.faults source.old) (S.faults source.new) }
    ensures write_cause { result ≡ Err Stop.WriteFault → Rose (K.faults sink.old) (K.faults sink.new) }
    ensures reads { S.faults source.old ≤ S.faults source.new }
    ensures writes { K.faults sink.old ≤ K.faults sink.new }
{
    let mut lines = Lines::new(alloc)?;
    let mut start = open_chain(alloc, keep, &mut lines, source)?;
    write_line(sink, &start.text)?;
    answer_lines(alloc, &mut start.chain, &mut lines, source, sink)
}

/// Answers the bad line of this number.
fn refuse<K: Sink>(alloc: Global, number: u64, kind: BadKind, sink: &mut K) -> Status
    ensures refuses { Refuses (line_text (bad_data kind number)) (K.written sink.old) (K.written sink.new) result }
    ensures cause { result ≡ Status.WriteFault → Rose (K.faults sink.old) (K.faults sink.new) }
    ensures writes { K.faults sink.old ≤ K.faults sink.new }
{
    let Ok(text) = bad_text(alloc, &kind, number) else {
        return Status::NoMemory;
    };
    match write_all(sink, &text) {
        Ok(()) => Status::BadLine,
        Err(_) => Status::WriteFault,
    }
}

/// Answers the lines of the source, and then the bad one, if there is one.
fn serve<S: Source, K: Sink>(alloc: Global, keep: usize, source: &mut S, sink: &mut K) -> Status
    requires keep { 1 ≤ keep }
    ensures ends { Ends keep (S.left source.old) (S.left source.new)
        (K.written sink.old) (K.written sink.new) result }
    ensures read { result ≡ Status.Done → IsAtEnd (S.left source.new) }
    ensures read_cause { result ≡ Status.ReadFault → Rose (S.faults source.old) (S.faults source.new) }
    ensures write_cause { result ≡ Status.WriteFault → Rose (K.faults sink.old) (K.faults sink.new) }
    ensures reads { S.faults source.old ≤ S.faults source.new }
    ensures writes { K.faults sink.old ≤ K.faults sink.new }
{
    match run(alloc, keep, source, sink) {
        Ok(()) => Status::Done,
        Err(Stop::Bad { number, kind }) => refuse(alloc, number, kind, sink),
        Err(Stop::NoMemory) => Status::NoMemory,
        Err(Stop::ReadFault) => Status::ReadFault,
        Err(Stop::WriteFault) => Status::WriteFault,
    }
}

/// Answers the lines of the source, one after the other, up to a bad one and with it. There is no cache
/// yet: of the options `keep` alone counts, and the shelf makes no difference.
pub fn serial<S: Source, K: Sink, F: Shelf + Drop>(
    alloc: Global,
    options: &Options,
    source: &mut S,
    sink: &mut K,
    _shelf: F,
) -> Status
    requires keep { (1 ≤ options.now.keep) × (options.now.keep ≤ 1024) }
    requires recent { (1 ≤ options.now.recent) × (options.now.recent ≤ 128) }
    ensures done { result ≡ Status.Done → Writes options.now.keep (S.left source.old)
        (K.written sink.old) (K.written sink.new) (λ bad. bad ≡ None) }
    ensures bad_line { result ≡ Status.BadLine → Writes options.now.keep (S.left source.old)
        (K.written sink.old) (K.written sink.new) (λ bad. bad ≢ None) }
    ensures no_memory { result ≡ Status.NoMemory → WritesSome options.now.keep (S.left source.old)
        (K.written sink.old) (K.written sink.new) }
    ensures read_fault { result ≡ Status.ReadFault → WritesFinished options.now.keep (S.left source.old)
        (S.left source.new) (K.written sink.old) (K.written sink.new) }
    ensures write_fault { result ≡ Status.WriteFault → WritesFront options.now.keep (S.left source.old)
        (S.left source.new) (K.written sink.old) (K.written sink.new) }
    ensures usage { result ≢ Status.Usage }
    ensures read { result ≡ Status.Done → IsAtEnd (S.left source.new) }
    ensures read_cause { result ≡ Status.ReadFault → Rose (S.faults source.old) (S.faults source.new) }
    ensures write_cause { result ≡ Status.WriteFault → Rose (K.faults sink.old) (K.faults sink.new) }
    ensures complete { IsComplete (S.left source.old) (S.faults source.old) (S.faults source.new)
        (K.faults sink.old) (K.faults sink.new) result }
    ensures reads { S.faults source.old ≤ S.faults source.new }
    ensures writes { K.faults sink.old ≤ K.faults sink.new }
{
    serve(alloc, options.keep as usize, source, sink)
}
