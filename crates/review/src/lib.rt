//! Reviews: the report of what a set of messages has granted. It re-exports `beyond` of
//! `sudo_beyond`, which says what one policy allows beyond another.
#![tactic(auto)]

mod barred;
mod broad;
mod columns;
mod conflicts;
pub mod laws;
mod live;
mod names;
mod need;
mod of_desk;
mod past_laws;
mod reason;
mod report_laws;
mod reporting;

pub use of_desk::report;
pub use reporting::report_of;
pub use sudo_beyond::{BeyondFault, beyond};
pub use sudo_decide::Scope;
