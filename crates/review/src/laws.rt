//! The laws of reports, each the contract of a function that does nothing.

// reports of a set of messages
pub use crate::report_laws::{
    barred_changes_nothing, each_grant_has_one_word, each_has_a_report, needless_gives_nothing,
    one_report, orders_agree, worked_lines,
};
// reports of what was asked and answered in the past
pub use crate::past_laws::past_reports_stay;
