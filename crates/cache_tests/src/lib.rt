//! Tests of caches of modules, of shelves, and of the core.
#![tactic(auto)]

#[cfg(test)]
mod caches;
#[cfg(test)]
mod core_run;
#[cfg(test)]
mod counting;
#[cfg(test)]
mod served;
#[cfg(test)]
mod sharing;
#[cfg(test)]
mod shelves;
