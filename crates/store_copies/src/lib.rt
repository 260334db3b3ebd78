//! Stores in memory: a copy of one that may be served meanwhile, and a new one, with the bytes that
//! its file is to have.
#![tactic(auto)]

mod copies;
mod fault;
mod fresh;
mod sheet;

pub use copies::{Copied, copy_of, there};
pub use fault::CopyFault;
pub use fresh::{file_of, new_store};
pub use sheet::Sheet;
