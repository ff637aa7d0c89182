//! Tests of streams, of JSON and its forms, of what contracts say and are told, and of the lines of a run.
#![tactic(auto)]

#[cfg(test)]
mod lines;
#[cfg(test)]
mod messages;
#[cfg(test)]
mod sample;
#[cfg(test)]
mod shapes;
#[cfg(test)]
mod streams;
#[cfg(test)]
mod telling;
#[cfg(test)]
mod writing;
