//! Messages that ask for time-boxed sudo rights, and verdicts that approve, refuse or revoke them.
#![tactic(auto)]

mod canonical_json;
mod fault;
mod kind;
pub mod laws;
mod lists;
mod members;
mod message;
mod name_row;
mod order;
mod read;
mod reader;
mod request;
mod request_name;
mod same;
mod same_text;
mod text_laws;
mod verdict;
mod wire_laws;
mod write;

pub use fault::MessageFault;
pub use kind::VerdictKind;
pub use message::Message;
pub use name_row::NameRow;
pub use reader::{MOST_BYTES, MessageReader, read_message};
pub use request::Request;
pub use request_name::RequestName;
pub use verdict::Verdict;
pub use write::{text, verdict_text};
