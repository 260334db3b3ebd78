//! The tables of a desk: what they hold for a set of messages, and the statements that keep it so.
#![tactic(auto)]

mod arrival;
mod commit;
mod fault;
mod refill;
mod roster;
mod statements;

pub use arrival::Arrival;
pub use commit::{arrive, replace};
pub use fault::Fault;
pub use refill::refill_rows;
pub use statements::put_roster;
