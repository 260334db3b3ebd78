//! The program's commands: they do what a command line says, over files, streams and what a keeper
//! keeps.
#![tactic(auto)]

mod answer;
mod comparing;
mod delivering;
pub mod laws;
mod lines;
mod opening;
mod printing;
mod rebuilding;
mod refusal;
mod reviewing;
mod running;
mod taking;
mod telling;

pub use desk_args::{
    Address, ExitStatus, Job, JobFault, Places, Store, Sync, Text, code, job, paths, show,
};
pub use opening::{open_over, take_file};
pub use refusal::JobRefusal;
pub use running::{finish, run};
pub use telling::refuse;
