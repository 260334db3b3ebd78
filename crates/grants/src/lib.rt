//! What the roster lets a message ask for, and what the messages about one request come to.
#![tactic(auto)]

mod admission;
mod admission_laws;
mod base;
mod denial;
mod firsts;
mod host_fault;
mod host_file;
pub mod laws;
mod lines;
mod marks;
mod moment_laws;
mod outcome;
mod request_status;
mod rules;
mod status_laws;
mod summary;
mod summary_laws;
mod voters;
mod weighing;
mod weight_laws;
mod within;
mod within_laws;

pub use admission::admit;
pub use base::fits_base;
pub use denial::Denial;
pub use host_fault::HostFault;
pub use host_file::{MOST_LINES, host_policy};
pub use lines::push_lines;
pub use marks::Mark;
pub use outcome::{Status, Window};
pub use request_status::{completed_at, status};
pub use rules::{grant_rules, rules_of};
pub use summary::{Summary, apply, ask, ask_again, ask_disputed};
pub use weighing::{Weight, weigh, weight_of};
pub use within::is_inside;
