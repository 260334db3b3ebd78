//! The laws of what a desk answers and holds, each the contract of a function that does nothing.

// what is answered to a delivery, and what a run leaves
pub use crate::run_laws::{one_answer, run_free};
// what is answered after runs
pub use crate::answer_laws::runs_answer_alike;
// the texts of all messages
pub use crate::texts::one_text_list;
// how many messages there are
pub use crate::counting::{count_of_texts, one_count, one_more_counted};
