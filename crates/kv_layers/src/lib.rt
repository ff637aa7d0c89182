//! A map of bytes in layers: changes are made in the newest layer, which is then kept or dropped.
#![tactic(auto)]

mod base;
mod bounds;
mod delta;
mod layer;
mod layers;
mod merge;
mod order;
mod plain;
mod sorted;

pub use base::Base;
pub use bounds::{Bounds, is_below};
pub use delta::Delta;
pub use layer::{Change, owned_entry, owned_value};
pub use layers::Layers;
pub use merge::first_change;
pub use order::Order;
pub use plain::Plain;
