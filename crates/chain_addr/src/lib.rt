//! Texts of addresses in bech32, and the addresses of contracts.
#![tactic(auto)]

mod bech32;
mod characters;
mod checksum;
mod contract;
mod fault;
mod groups;
mod laws;
mod letters;
mod read;
mod unpack;

pub use bech32::{decode, encode, is_normal};
pub use contract::{classic, predictable};
pub use fault::{AddrFault, AddrKind};
pub use laws::{texts_are_read_back, texts_have_one_form};
