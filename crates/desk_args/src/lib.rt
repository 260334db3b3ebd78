//! What a command line says to do, and the exit status of what a job ends with.
#![tactic(auto)]

mod address;
mod command;
mod command_line;
mod fault;
pub mod laws;
mod named;
mod status;
mod task;
mod text;
mod values;

pub use command_line::job;
pub use fault::{JobFault, show};
pub use named::{FilePaths, paths};
pub use status::{ExitStatus, code};
pub use task::{Address, Job, Places, Store, Sync};
pub use text::Text;
