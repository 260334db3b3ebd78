//! Compiled policies: every alias is written out, so that an invocation is compared with names and
//! commands alone.
#![tactic(auto)]

mod aliases;
mod among;
mod compiled;
mod few;
mod kind;
mod known;
pub mod laws;
mod listed;
mod plain;
mod rule;
mod short;
mod used;
mod writing;

pub use among::{bearing_on, decide_among};
pub use compiled::{Compiled, compile, compile_owned};
pub use few::Few;
pub use plain::{Plain, PlainRule};
pub use short::Short;
