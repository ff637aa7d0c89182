//! The contracts of the chain's state: who made them, who may change them, and which code they have.
#![tactic(auto)]

mod changes;
mod creation;
mod instantiation;
mod known;
mod laws;
mod stop;

pub use changes::{may_change, set_admin, set_code};
pub use creation::{create, take_instance};
pub use instantiation::{find, is_label, may_make};
pub use laws::contracts_stay_lawful;
pub use stop::AdminStop;
