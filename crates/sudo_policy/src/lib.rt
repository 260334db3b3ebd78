//! Policies: what they are made of, which texts spell them, and how they grow and are printed.
//! Reading a text is left to `sudo_syntax`.
#![tactic(auto)]

mod alias_kinds;
mod alias_laws;
mod aliases;
mod copying;
mod draft;
mod entry;
mod extending;
mod fault;
pub mod laws;
mod lengths;
mod policy;
mod printing;
mod tags;
mod tree;

pub use copying::{copy_lists, copy_names};
pub use draft::Draft;
pub use entry::{CmndItem, Entry, Item, Rule, Signed};
pub use extending::extend;
pub use fault::{FaultKind, LineFault, ReadFault};
pub use lengths::MOST_TEXT_BYTES;
pub use policy::Policy;
pub use printing::{print_owned, print_policy, push_command, push_moment};
pub use tags::{GivenTags, Tag, Tags};
pub use tree::{CmndSpec, Definition, Line, Part, Settings};
