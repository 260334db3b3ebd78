//! The laws of what the roster lets a message ask for, and of what the messages about a request
//! come to, each the contract of a function that does nothing.

// what commands reach
pub use crate::within_laws::{each_reaches_something, forms_of_inclusion, worked_inclusions};
// admission
pub use crate::admission_laws::{
    least_privilege, more_admits_more, one_answer, worked_requests, worked_windows,
};
// what the messages about a request come to
pub use crate::status_laws::{
    bounds_of_window, completion_is_nth_smallest, one_status, order_is_free, rights_of_the_moment,
    uncounted_changes_nothing, who_does_not_count, worked_days, worked_statuses,
};
// what a verdict weighs
pub use crate::weight_laws::{when_it_weighs_what, worked_weights};
// windows, and past moments
pub use crate::moment_laws::{past_is_not_rewritten, window_is_unbroken};
// summaries
pub use crate::summary_laws::one_summary;
