//! What the programs beside the product try a desk with: a roster, messages, stores in memory, the
//! calls that are made, and all that a desk answers then, as text.
#![tactic(auto)]

pub mod asking;
pub mod calls;
pub mod deliveries;
pub mod files;
pub mod seeing;
pub mod states;
pub mod telling;
pub mod texts;
pub mod trouble;
