//! Does one piece of the node's work many times, to be timed from outside, and prints a checksum.
#![tactic(auto)]

mod gas;
mod machines;
mod memory;
mod modules;
mod numbers;
mod run;
mod snapshots;
mod state;

use anyhow::Result;
use bench_words::asked;
use std::env::{self, Env};
use std::process::ExitCode;

const USAGE: &str = "usage: bench_kernels KERNEL COUNT";

const USAGE_STATUS: u8 = 2;

/// Does what the words after the program's name say, and prints the checksum or the usage line.
fn answer(rt: &HostRuntime) -> Result<ExitCode> {
    let words = env::args(rt)?.skip(1).collect::<Vec<String>>(rt.alloc())?;
    let Some((kernel, count)) = asked(&words) else {
        println!(rt; "{USAGE}")?;
        return Ok(ExitCode::from(USAGE_STATUS));
    };
    let sum = run::run(rt, kernel, count)?;
    println!(rt; "{sum}")?;
    Ok(ExitCode::SUCCESS)
}

fn main(rt: HostRuntime) -> ExitCode {
    match answer(&rt) {
        Ok(status) => status,
        Err(error) => {
            let _ = eprintln!(rt; "{error}");
            ExitCode::FAILURE
        }
    }
}
