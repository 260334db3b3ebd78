//! A desk that is opened again over the file that a stop left.
#![tactic(auto)]

mod crashing;
pub mod laws;
mod reopening;
mod stopped;

pub use crashing::{OpenedOver, RanOver, deliver_and_open_after_crash, open_after_crash};
pub use reopening::{Opened, StoredIn, open_file_after_stop};
pub use stopped::stop;
