//! What one policy allows beyond another: an exact answer, over finitely many cases that stand for
//! all invocations.
#![tactic(auto)]

mod against;
mod baseline;
mod cases;
mod commands;
mod compare;
mod decided;
mod fault;
pub mod laws;
mod moments;
mod names;
mod other;
mod run;
mod runs;
mod search;
mod size;
mod standing;

pub use against::is_anything_beyond;
pub use baseline::Baseline;
pub use compare::beyond;
pub use fault::BeyondFault;
