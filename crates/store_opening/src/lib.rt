//! Opening a database: what it keeps of a desk, and whether its rows are those that follow from its
//! messages.
#![tactic(auto)]

mod cells;
mod compare;
mod found_in;
mod in_database;
mod kept;
mod known;
mod listed;
mod names;
mod once;
mod places;
mod reading;
mod rows;
mod shown_set;
mod statements;
mod stored;
mod table;
mod tables;
mod walk;

pub use found_in::look;
pub use in_database::{Contents, InDatabase};
pub use listed::messages_of;
pub use shown_set::{ShownSet, shown_of};
pub use statements::select_of;
pub use stored::Stored;
