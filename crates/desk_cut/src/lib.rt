//! Begins a desk with what stays of another one's history.
#![tactic(auto)]

mod beginning;
mod filling;
mod refusal;

pub use beginning::{Cut, cut_into};
pub use filling::fill;
pub use refusal::CutRefusal;
