//! What keeps a desk: its roster's text, and the set of its messages.
#![tactic(auto)]

mod collected;
mod counting;
mod error;
mod failing;
mod failing_keeper;
mod found;
mod gathering;
mod keeper;
pub mod laws;
mod memory;
mod replacing;
mod settled;
mod sqlite_keeper;

pub use error::KeeperError;
pub use failing_keeper::FailingKeeper;
pub use found::{Found, FoundDesk};
pub use keeper::Keeper;
pub use memory::MemoryKeeper;
pub use sqlite_keeper::SqliteKeeper;
