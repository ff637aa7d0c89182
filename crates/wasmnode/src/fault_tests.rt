//! What `serial` leaves where a read or a write fails.

use crate::options::Options;
use crate::serial::serial;
use crate::status::Status;
use outside_io::{Failed, MemSink, MemSource, NoShelf, Sink, Source};
use std::alloc::{AllocError, Global};
use std::process::Abort;
use std::test::Fail;

/// Lines, each with the text that answers it.
type Lines = &'static [(&'static str, &'static str)];

const GENESIS: (&str, &str) = (
    "{\"genesis\":{\"authority\":null,\"balances\":[],\"capabilities\":[],\"chain_id\":\"t-1\",\"prefix\":\"abcdef\",\"query_gas\":1000000,\"time\":\"0\"}}\n",
    "{\"genesis\":{\"chain_id\":\"t-1\",\"height\":0}}\n",
);

const BLOCK: (&str, &str) = (
    "{\"block\":{\"time\":\"1\",\"txs\":[{\"gas\":9,\"msgs\":[],\"sender\":\"zz\"}]}}\n",
    "{\"block\":{\"body\":{\"height\":1,\"results\":[{\"code\":7,\"codespace\":\"sdk\",\"data\":[],\"detail\":\"AddressBad\",\"events\":[],\"gas\":0}]},\"digest\":\"96f35944db060fffc9859bb6912c67745a6cda4d9cdfadfafb40dd81cfe7136c\"}}\n",
);

/// A line without a line feed.
const QUERY: (&str, &str) = (
    "{\"query\":{\"client\":1,\"request\":{\"bank\":{\"supply\":{\"denom\":\"utok\"}}}}}",
    "{\"query\":{\"client\":1,\"gas\":1000,\"height\":1,\"n\":1,\"result\":{\"ok\":{\"ok\":\"eyJhbW91bnQiOnsiYW1vdW50IjoiMCIsImRlbm9tIjoidXRvayJ9fQ==\"}}}}\n",
);

const BAD: (&str, &str) = (
    "{\"block\":{}}\n",
    "{\"bad_line\":{\"kind\":\"shape\",\"line\":3}}\n",
);

/// No bytes behind an empty line.
const MISSING: (&str, &str) = ("", "{\"bad_line\":{\"kind\":\"missing\",\"line\":2}}\n");

/// Inputs, whether the source is asked for their end, and how a run ends where nothing fails.
const INPUTS: [(Lines, bool, Status); 3] = [
    (&[GENESIS, ("\n", ""), BLOCK, QUERY], true, Status::Done),
    (&[GENESIS, BLOCK, BAD], false, Status::BadLine),
    (&[("\n", ""), MISSING], true, Status::BadLine),
];

/// A source that gives one byte a call.
#[derive(Drop)]
struct OneByteSource(MemSource);

impl Source for OneByteSource {
    ghost use Rattle.std.specs.Prelude.{Some};

    ghost left = { λ s. Some s.0.left };

    ghost faults = { λ s. s.0.calls.faults };

    fn take(&mut self, buf: &mut [u8]) -> Result<usize, Failed> {
        self.0.take(&mut buf[..1])
    }
}

/// A sink that takes one byte a call.
#[derive(Drop)]
struct OneByteSink(MemSink);

impl Sink for OneByteSink {
    ghost use Rattle.std.specs.Prelude.{Some};

    ghost written = { λ s. Some s.0.written };

    ghost faults = { λ s. s.0.calls.faults };

    fn put(&mut self, piece: &[u8]) -> Result<usize, Failed> {
        self.0.put(&piece[..1])
    }
}

fn input_of(alloc: Global, lines: Lines) -> Result<Vec<u8>, AllocError> {
    let mut input = Vec::new(alloc);
    for (line, _) in lines {
        input.extend_from_slice(line.as_bytes())?;
    }
    Ok(input)
}

/// The answers to the first so many lines.
fn answers_of(alloc: Global, lines: Lines, count: usize) -> Result<Vec<u8>, AllocError> {
    let mut answers = Vec::new(alloc);
    for (_, text) in lines.iter().take(count) {
        answers.extend_from_slice(text.as_bytes())?;
    }
    Ok(answers)
}

/// How many lines a line feed ends among the first so many bytes.
fn finished(input: &[u8], taken: usize) -> usize {
    input
        .iter()
        .take(taken)
        .filter(|byte| **byte == b'\n')
        .count()
}

/// How a run ends, and what it wrote, where the read of this number fails.
fn read_failing(
    alloc: Global,
    input: &[u8],
    number: usize,
) -> Result<(Status, Vec<u8>), AllocError> {
    let failing = [number as u64].to_vec(alloc)?;
    let mut source = OneByteSource(MemSource::new(input.to_vec(alloc)?, failing));
    let mut sink = MemSink::new(alloc, 4096, Vec::new(alloc))?;
    let options = Options::standard(alloc);
    let status = serial(alloc, &options, &mut source, &mut sink, NoShelf);
    Ok((status, sink.bytes().to_vec(alloc)?))
}

/// How a run into a sink ends.
fn run_into<K: Sink>(alloc: Global, input: &[u8], sink: &mut K) -> Result<Status, AllocError> {
    let mut source = MemSource::new(input.to_vec(alloc)?, Vec::new(alloc));
    let options = Options::standard(alloc);
    Ok(serial(alloc, &options, &mut source, sink, NoShelf))
}

#[test]
fn a_read_that_fails_leaves_the_answers_to_the_finished_lines(rt: HostRuntime) -> Result<(), Fail> {
    let alloc = rt.alloc();
    for (lines, asks_end, end) in INPUTS {
        let input = input_of(alloc, lines)?;
        let bytes = input.len();
        for number in 0..=bytes {
            let (status, written) = read_failing(alloc, &input, number)?;
            let fails = number < bytes || asks_end;
            let want = if fails { Status::ReadFault } else { end };
            let count = if fails {
                finished(&input, number)
            } else {
                lines.len()
            };
            assert_eq!(rt; status, want, "read {number}");
            assert_eq!(rt; written, answers_of(alloc, lines, count)?, "read {number}");
        }
        let (status, written) = read_failing(alloc, &input, bytes.saturating_add(1))?;
        assert_eq!(rt; status, end);
        assert_eq!(rt; written, answers_of(alloc, lines, lines.len())?);
    }
    Ok(())
}

/// The write of each text in turn fails.
fn expect_whole_texts(
    rt: &impl Abort,
    alloc: Global,
    input: &[u8],
    lines: Lines,
) -> Result<(), Fail> {
    let mut written = 0u64;
    for (place, (_, text)) in lines.iter().enumerate() {
        if text.is_empty() {
            continue;
        }
        let mut sink = MemSink::new(alloc, 4096, [written].to_vec(alloc)?)?;
        let status = run_into(alloc, input, &mut sink)?;
        assert_eq!(rt; status, Status::WriteFault, "text {place}");
        assert_eq!(rt; sink.bytes(), answers_of(alloc, lines, place)?.as_slice());
        written = written.saturating_add(1);
    }
    Ok(())
}

#[test]
fn a_write_that_fails_leaves_a_front_of_the_answers(rt: HostRuntime) -> Result<(), Fail> {
    let alloc = rt.alloc();
    for (lines, _, end) in INPUTS {
        let input = input_of(alloc, lines)?;
        let answers = answers_of(alloc, lines, lines.len())?;
        expect_whole_texts(&rt, alloc, &input, lines)?;
        for count in 0..=answers.len() {
            let want = if count < answers.len() {
                Status::WriteFault
            } else {
                end
            };
            let failing = [count as u64].to_vec(alloc)?;
            let mut bytes = OneByteSink(MemSink::new(alloc, answers.len(), failing)?);
            assert_eq!(rt; run_into(alloc, &input, &mut bytes)?, want, "byte {count}");
            assert_eq!(rt; bytes.0.bytes(), &answers[..count]);
            let mut full = MemSink::new(alloc, count, Vec::new(alloc))?;
            assert_eq!(rt; run_into(alloc, &input, &mut full)?, want, "room {count}");
            assert_eq!(rt; full.bytes(), &answers[..count]);
        }
    }
    Ok(())
}
