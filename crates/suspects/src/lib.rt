//! Which names a report has to look at. A grant that has ended costs a report nothing, if all who
//! approved the grant were eligible.
#![tactic(auto)]

mod part;
mod summaries;
mod suspects;

pub use summaries::reviewed_in;
pub use suspects::{suspects_among, with_suspect};
