//! Writes the code of a sample contract, by its name.
#![tactic(auto)]

mod answer;
mod sample;
mod status;

use outside_io::{StdSink, words_of};
use status::Status;
use std::process::ExitCode;

fn main(rt: HostRuntime) -> ExitCode {
    let Ok(words) = words_of(&rt) else {
        return Status::NoMemory.code();
    };
    let mut sink = StdSink::new(rt.stdout());
    let status = answer::answer(rt.alloc(), &words, &mut sink);
    status.code()
}
