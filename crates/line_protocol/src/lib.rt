//! The lines that a run reads and writes: cutting an input into lines, reading each, and the texts of
//! the results.
#![tactic(auto)]

mod block_form;
mod fields;
mod genesis_form;
mod kind;
mod line;
mod line_form;
mod lines;
mod prefix;
mod reply;
mod texts;

pub use kind::BadKind;
pub use line::{Line, ParseStop, Question};
pub use line_form::parse;
pub use lines::{LineStop, Lines, RawLine};
pub use prefix::is_prefix;
pub use reply::{QueryReply, QueryResult};
pub use texts::{bad_text, block_text, check_text, genesis_text, query_text};
