//! Modules of codes that were used lately, and of codes that are pinned.
#![tactic(auto)]

mod by_length;
mod counts;
mod files;
mod owned;
mod pin_table;
mod shared;
mod state;
mod user;

pub use counts::Counts;
pub use owned::Owned;
pub use shared::Shared;
pub use state::CacheState;
pub use user::User;
