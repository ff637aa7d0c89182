//! Tests of files of modules.
#![tactic(auto)]

#[cfg(test)]
mod files;
#[cfg(test)]
mod laws;
