ghost use Rattle.std.specs.Prelude.{◌≡◌, ◌≢◌, ◌≤◌, ℕ, List, None, Some, string_bytes, map};
ghost use Rattle.std.specs.Io.KnownBytes.{Appends, IsAtEnd};
ghost use Rattle.outside_io.specs.Cause.{Rose};
ghost use Rattle.outside_io.specs.Pieces.{AppendsFront};
ghost use Rattle.wasmnode.specs.Statuses.{Writes, WritesSome, WritesFinished, WritesFront, IsComplete};
ghost use Rattle.wasmnode.specs.Words.{run_serial, check_code, command_of, usage_line, standard_keep};
ghost use Rattle.wasmnode.specs.Checking.{IsJudged, IsUnread, Checks, ChecksFront};

use crate::checking::check_line;
use crate::serial::serial;
use crate::status::Status;
use crate::words::{Command, WordsFault, read_words};
use outside_io::{Gate, Shelf, Sink, Source, write_all};
use std::alloc::Global;
use std::marker::Send;
use std::sync::Wait;
use std::thread::Threads;

const USAGE: &str = "usage: wasmnode run|serial|check|gen N|soak N [options]\n";

/// Writes which words the program takes.
fn explain<K: Sink>(sink: &mut K) -> Status
    ensures usage { result ≡ Status.Usage → Appends (K.written sink.old) (K.written sink.new) usage_line }
    ensures fault { result ≢ Status.Usage → (result ≡ Status.WriteFault)
        × Rose (K.faults sink.old) (K.faults sink.new) }
    ensures front { AppendsFront (K.written sink.old) (K.written sink.new) usage_line }
    ensures writes { K.faults sink.old ≤ K.faults sink.new }
{
    match write_all(sink, USAGE.as_bytes()) {
        Ok(()) => Status::Usage,
        Err(_) => Status::WriteFault,
    }
}

/// Does what the words after the program's name say.
pub fn node<R: Threads + Wait + Sync, S: Source, K: Sink, F: Shelf + Send + Drop, G: Gate>(
    _rt: &R,
    alloc: Global,
    words: &[String],
    source: &mut S,
    sink: &mut K,
    shelf: F,
    _gate: &G,
) -> Status
    ensures done { command_of (map string_bytes words.now) ≡ Some run_serial → result ≡ Status.Done
        → Writes standard_keep (S.left source.old) (K.written sink.old) (K.written sink.new)
        (λ bad. bad ≡ None) }
    ensures bad_line { command_of (map string_bytes words.now) ≡ Some run_serial → result ≡ Status.BadLine
        → Writes standard_keep (S.left source.old) (K.written sink.old) (K.written sink.new)
        (λ bad. bad ≢ None) }
    ensures no_memory { command_of (map string_bytes words.now) ≡ Some run_serial → result ≡ Status.NoMemory
        → WritesSome standard_keep (S.left source.old) (K.written sink.old) (K.written sink.new) }
    ensures read_fault { command_of (map string_bytes words.now) ≡ Some run_serial → result ≡ Status.ReadFault
        → WritesFinished standard_keep (S.left source.old) (S.left source.new)
        (K.written sink.old) (K.written sink.new) }
    ensures write_fault { command_of (map string_bytes words.now) ≡ Some run_serial → result ≡ Status.WriteFault
        → WritesFront standard_keep (S.left source.old) (S.left source.new)
        (K.written sink.old) (K.written sink.new) }
    ensures read { command_of (map string_bytes words.now) ≡ Some run_serial
        → result ≡ Status.Done → IsAtEnd (S.left source.new) }
    ensures complete { command_of (map string_bytes words.now) ≡ Some run_serial
        → IsComplete (S.left source.old) (S.faults source.old) (S.faults source.new)
        (K.faults sink.old) (K.faults sink.new) result }
    ensures judged { (caps : List (List ℕ)) → command_of (map string_bytes words.now) ≡ Some (check_code caps)
        → result ≡ Status.Done
        → Checks caps (S.left source.old) (K.written sink.old) (K.written sink.new) IsJudged }
    ensures unread_code { (caps : List (List ℕ)) → command_of (map string_bytes words.now) ≡ Some (check_code caps)
        → result ≡ Status.BadLine
        → Checks caps (S.left source.old) (K.written sink.old) (K.written sink.new) IsUnread }
    ensures front { (caps : List (List ℕ)) → command_of (map string_bytes words.now) ≡ Some (check_code caps)
        → ChecksFront caps (S.left source.old) (K.written sink.old) (K.written sink.new) }
    ensures read_cause { result ≡ Status.ReadFault → Rose (S.faults source.old) (S.faults source.new) }
    ensures write_cause { result ≡ Status.WriteFault → Rose (K.faults sink.old) (K.faults sink.new) }
    ensures words { result ≡ Status.Usage → command_of (map string_bytes words.now) ≡ None }
    ensures usage { command_of (map string_bytes words.now) ≡ None → result ≡ Status.Usage
        → Appends (K.written sink.old) (K.written sink.new) usage_line }
    ensures usage_fault { command_of (map string_bytes words.now) ≡ None → result ≢ Status.Usage
        → result ≡ Status.WriteFault }
    ensures usage_front { command_of (map string_bytes words.now) ≡ None
        → AppendsFront (K.written sink.old) (K.written sink.new) usage_line }
    ensures unread { command_of (map string_bytes words.now) ≡ None → source.new ≡ source.old }
    ensures reads { S.faults source.old ≤ S.faults source.new }
    ensures writes { K.faults sink.old ≤ K.faults sink.new }
{
    match read_words(alloc, words) {
        Ok((Command::Serial, options)) => serial(alloc, &options, source, sink, shelf),
        Ok((Command::Check, options)) => check_line(alloc, &options, source, sink),
        Err(WordsFault::Usage) => explain(sink),
        Err(WordsFault::NoMemory) => Status::NoMemory,
    }
}
