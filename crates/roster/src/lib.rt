//! The roster: who holds which duty, which duties conflict, and under which ceilings rights are
//! granted.
#![tactic(auto)]

mod ceiling;
mod commands;
mod conflicts;
mod content;
mod days;
mod draft;
mod fault;
mod keys;
pub mod laws;
mod named;
mod pairs;
mod read;
mod relations;
mod right_laws;
mod roster;
mod rules;
mod text;
mod typed;

pub use ceiling::Ceiling;
pub use days::Days;
pub use fault::RosterFault;
pub use relations::give;
pub use roster::Roster;
