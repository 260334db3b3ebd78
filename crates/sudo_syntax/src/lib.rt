//! Reads the texts of policies: lines, comments and continuations, and what commands inherit. What
//! policies are, and how they are printed, is in `sudo_policy`; this crate re-exports parts of it.
#![tactic(auto)]

mod commands;
mod definitions;
mod fronts;
mod items;
pub mod laws;
mod line_entries;
mod line_laws;
mod misplaced;
mod pieces;
mod read;
mod spec;
mod token;
mod tree_reading;
mod worked_laws;

pub use read::read_policy;
pub use sudo_policy::{
    CmndItem, Entry, FaultKind, Item, LineFault, Policy, ReadFault, Rule, Signed, extend,
    print_owned, print_policy,
};
pub use sudo_words::{
    AliasName, Arg, ArgRule, Cmnd, CmndFault, DirPath, FilePath, HostName, Items, Moment, Name,
    NoMemory, WordFault, is_lawful, print_cmnd, read_cmnd,
};
