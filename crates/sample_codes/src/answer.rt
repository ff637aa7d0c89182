ghost use Rattle.std.specs.Prelude.{◌≡◌, ◌≢◌, string_bytes, map};
ghost use Rattle.std.specs.Io.KnownBytes.{Appends};
ghost use Rattle.outside_io.specs.Cause.{Rose};
ghost use Rattle.outside_io.specs.Pieces.{AppendsFront};
ghost use Rattle.wasm_writer.specs.Spelling.{spelling_of};
ghost use Rattle.sample_codes.specs.Answers.{usage_line, AppendsFrontOfAnswer};
ghost use Rattle.sample_codes.specs.Samples.{Names, NamesNone, module_of};
ghost use Rattle.sample_codes.specs.declared.sample.Sample.{Sample};

use crate::sample::Sample;
use crate::status::Status;
use outside_io::{Sink, write_all};
use std::alloc::Global;

const USAGE: &str = "usage: sample_codes echo|spin|keeper|common|sign\n";

/// Writes the code of a sample.
fn write_code<K: Sink>(alloc: Global, sample: Sample, sink: &mut K) -> Status
    ensures done { result ≡ Status.Done
        → Appends (K.written sink.old) (K.written sink.new) (spelling_of (module_of sample)) }
    ensures taken { result ≢ Status.Usage }
    ensures memory { result ≡ Status.NoMemory → sink.new ≡ sink.old }
    ensures fault { result ≡ Status.WriteFault → Rose (K.faults sink.old) (K.faults sink.new) }
    ensures front { result ≡ Status.WriteFault
        → AppendsFront (K.written sink.old) (K.written sink.new) (spelling_of (module_of sample)) }
{
    let Ok(code) = sample.code(alloc) else {
        return Status::NoMemory;
    };
    match write_all(sink, &code) {
        Ok(()) => Status::Done,
        Err(_) => Status::WriteFault,
    }
}

/// Writes which words the program takes.
fn explain<K: Sink>(sink: &mut K) -> Status
    ensures usage { result ≡ Status.Usage
        → Appends (K.written sink.old) (K.written sink.new) usage_line }
    ensures done { result ≢ Status.Done }
    ensures memory { result ≢ Status.NoMemory }
    ensures fault { result ≡ Status.WriteFault → Rose (K.faults sink.old) (K.faults sink.new) }
    ensures front { result ≡ Status.WriteFault
        → AppendsFront (K.written sink.old) (K.written sink.new) usage_line }
{
    match write_all(sink, USAGE.as_bytes()) {
        Ok(()) => Status::Usage,
        Err(_) => Status::WriteFault,
    }
}

/// Writes the code of the sample that the words name. Of other words it writes which ones the program
/// takes.
pub fn answer<K: Sink>(alloc: Global, words: &[String], sink: &mut K) -> Status
    ensures done { result ≡ Status.Done → (sample : Sample) × Names (map string_bytes words.now) sample
        × Appends (K.written sink.old) (K.written sink.new) (spelling_of (module_of sample)) }
    ensures usage { result ≡ Status.Usage → NamesNone (map string_bytes words.now)
        × Appends (K.written sink.old) (K.written sink.new) usage_line }
    ensures memory { result ≡ Status.NoMemory
        → ((sample : Sample) × Names (map string_bytes words.now) sample) × (sink.new ≡ sink.old) }
    ensures fault { result ≡ Status.WriteFault → Rose (K.faults sink.old) (K.faults sink.new) }
    ensures front { result ≡ Status.WriteFault → AppendsFrontOfAnswer (map string_bytes words.now)
        (K.written sink.old) (K.written sink.new) }
{
    match Sample::in_words(words) {
        Some(sample) => write_code(alloc, sample, sink),
        None => explain(sink),
    }
}
