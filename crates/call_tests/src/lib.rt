//! Tests of a contract's call: the imports that it calls, Regions that are given and taken back, and the
//! call from its beginning to its end.
#![tactic(auto)]

#[cfg(test)]
mod allocation;
#[cfg(test)]
mod bodies;
#[cfg(test)]
mod calls;
#[cfg(test)]
mod contract;
#[cfg(test)]
mod faults;
#[cfg(test)]
mod orders;
#[cfg(test)]
mod results;
#[cfg(test)]
mod runs;
#[cfg(test)]
mod storage;
#[cfg(test)]
mod talk;
