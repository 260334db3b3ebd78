//! Cuts a history at a moment: the verdicts on what has ended go to an archive, and the rest grants
//! from then on what the whole would.
#![tactic(auto)]

mod cutting;
mod ends;
pub mod laws;

pub use cutting::{Parts, cut};
