//! What the chain is told and what it answers, as plain data: genesis, blocks, transactions, results, events and failures;
//! the messages that senders and contracts ask for and what contracts answer, read from JSON; and what contracts are told,
//! written as JSON.
#![tactic(auto)]

mod answer;
mod block;
mod cosmos;
mod env;
mod event;
mod failure;
mod genesis;
mod laws;
mod messages;
mod pieces;
mod protobuf;
mod reply;
mod response;
mod results;
mod shown;
mod texts;
mod told;
mod tx_msg;

pub use answer::{Answer, SystemError};
pub use block::{Block, Tx, TxResult};
pub use env::Env;
pub use event::{Attribute, Event};
pub use failure::{FailKind, Failure};
pub use genesis::Genesis;
pub use laws::shown_events_are_read_again;
pub use messages::{CosmosMsg, TxMsg};
pub use pieces::coins_at;
pub use protobuf::reply_bytes;
pub use reply::{Reply, ReplyResult};
pub use response::{ReplyOn, Response, ResponseStop, SubMsg, Told};
pub use shown::{Shown, list_value};
pub use texts::{answer_value, write_answer, write_env, write_info, write_reply};
pub use told::{read_query_result, read_response};
pub use tx_msg::read_tx_msg;
