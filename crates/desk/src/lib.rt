//! The desk: it answers messages that ask for time-boxed rights, approve, refuse and revoke them,
//! keeps those that it acknowledges, and prints each host's sudoers file.
#![tactic(auto)]

mod ack;
mod answer_laws;
mod counting;
mod delivery;
mod desk;
mod digests;
mod history;
mod holdings;
pub mod laws;
mod loading;
mod opening;
mod queries;
mod rebuilding;
mod rebuilding_laws;
mod refusal;
mod reopening;
mod run_laws;
mod stopping;
mod taking;
mod texts;

pub use ack::Ack;
pub use desk::Desk;
pub use desk_store::{Keeper, MemoryKeeper, SqliteKeeper};
pub use holdings::Holdings;
pub use outcomes::{Live, RequestName};
pub use rebuilding_laws::{rebuild_again, rebuild_twice};
pub use refusal::Refusal;
pub use reopening::{restart, restart_over};
pub use stopping::open_after_stop;
