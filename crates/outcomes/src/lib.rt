//! What a set of messages comes to, where a roster says who may do what: each name's status, the
//! grants in force at a moment, the verdicts that wait for their request, and each host's lines and
//! file. And the laws of all that.
#![tactic(auto)]

mod about;
mod base;
mod gathering;
mod grant_laws;
mod host_file;
mod index;
pub mod laws;
mod live;
mod name_status;
mod parked;
mod past_laws;
mod summaries;
mod walk;
mod worked;

pub use about::messages_in;
pub use base::Base;
pub use gathering::Gathered;
pub use host_file::host_file_in;
pub use live::{Live, live_in};
pub use messages::RequestName;
pub use name_status::status_in;
pub use parked::parked_in;
pub use summaries::summaries_in;
