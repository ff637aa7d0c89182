//! Tests of amounts, gas, addresses, and what stands in the state.
#![tactic(auto)]

#[cfg(test)]
mod addresses;
#[cfg(test)]
mod bank;
#[cfg(test)]
mod coins;
#[cfg(test)]
mod gas;
#[cfg(test)]
mod layers;
#[cfg(test)]
mod records;
#[cfg(test)]
mod snapshots;
#[cfg(test)]
mod storage;
