//! What a cut of a desk's messages takes from its tables.
#![tactic(auto)]

pub mod laws;
