//! Tests of a chain: what a genesis opens, what transactions, messages, submessages, queries and blocks do,
//! what contracts are asked and ask, and what is pinned.
#![tactic(auto)]

#[cfg(test)]
mod acts;
#[cfg(test)]
mod admins;
#[cfg(test)]
mod blocks;
#[cfg(test)]
mod called;
#[cfg(test)]
mod chain;
#[cfg(test)]
mod codes;
#[cfg(test)]
mod contracts;
#[cfg(test)]
mod depth;
#[cfg(test)]
mod executes;
#[cfg(test)]
mod filled;
#[cfg(test)]
mod instances;
#[cfg(test)]
mod messages;
#[cfg(test)]
mod opening;
#[cfg(test)]
mod pins;
#[cfg(test)]
mod queries;
#[cfg(test)]
mod smart;
#[cfg(test)]
mod stored;
#[cfg(test)]
mod submessages;
#[cfg(test)]
mod transactions;
