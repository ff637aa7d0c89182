//! The node as one list of atomic steps: heights that are published, readers that enter them, and one
//! cache of modules.
#![tactic(auto)]

mod answer;
mod core_state;
mod event;
mod laws;
mod numbers;

pub use answer::CoreAnswer;
pub use core_state::Core;
pub use event::CoreEvent;
pub use laws::answers_keep_their_laws;
