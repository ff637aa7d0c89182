//! What the words of a call of `bench_kernels` ask for.
#![tactic(auto)]

mod kernel;

pub use kernel::{Kernel, asked};
