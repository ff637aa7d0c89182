//! A host for smart contracts on one node: what a genesis opens, what blocks do to it, and what queries are
//! answered, line by line; and whether a chain takes a contract's code.
#![tactic(auto)]

mod chain;
mod checking;
mod entry;
#[cfg(test)]
mod fault_tests;
mod laws;
mod node;
mod options;
mod serial;
mod status;
mod stop;
mod words;

use outside_io::{NoShelf, OpenGate, StdSink, StdSource, words_of};
use status::Status;
use std::process::ExitCode;

fn main(rt: HostRuntime) -> ExitCode {
    let Ok(words) = words_of(&rt) else {
        return Status::NoMemory.code();
    };
    let mut source = StdSource::new(rt.stdin());
    let mut sink = StdSink::new(rt.stdout());
    let status = node::node(
        &rt,
        rt.alloc(),
        &words,
        &mut source,
        &mut sink,
        NoShelf,
        &OpenGate,
    );
    status.code()
}
