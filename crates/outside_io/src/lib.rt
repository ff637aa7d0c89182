//! What lies outside the programs: a source of bytes, a sink for them, a shelf of files, the words that a
//! program was called with, and a gate that tests may hold. Nothing is trusted to succeed: each failure is
//! counted by the object.
#![tactic(auto)]

mod counted_calls;
mod gate;
mod mem_sink;
mod mem_source;
mod shelf;
mod sink;
mod source;
mod std_sink;
mod std_source;
mod sure_source;
mod unread;
mod words;

pub use gate::{Gate, OpenGate, Point};
pub use mem_sink::MemSink;
pub use mem_source::MemSource;
pub use shelf::{NoShelf, Shelf, ShelfFault};
pub use sink::{Sink, write_all};
pub use source::{Failed, Source};
pub use std_sink::StdSink;
pub use std_source::StdSource;
pub use sure_source::SureSource;
pub use words::words_of;
