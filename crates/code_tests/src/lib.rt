//! Tests of what reads, checks and writes the code of a contract.
#![tactic(auto)]

#[cfg(test)]
mod gate;
#[cfg(test)]
mod laws;
#[cfg(test)]
mod numbers;
#[cfg(test)]
mod reading;
#[cfg(test)]
mod samples;
#[cfg(test)]
mod writing;
