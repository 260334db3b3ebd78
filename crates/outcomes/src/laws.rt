//! The laws of what a set of messages comes to, each the contract of a function that does nothing.

// what a set of messages grants
pub use crate::grant_laws::{
    disputed_gives_nothing, each_has_one, ended_lines_give_nothing, file_gives_rights, one_of_each,
    order_free, parked_until_asked, refusal_in_time, revocation_ends, who_changes_nothing,
};
// what was granted in the past
pub use crate::past_laws::past_grants_stay;
// a worked set of messages
pub use crate::worked::worked_set;
