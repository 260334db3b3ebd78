//! A name, and what is told about it.

use grants::Status;
use messages::{Request, RequestName, Verdict};

/// The messages about one name.
#[derive(Drop)]
pub struct About {
    /// The requests of the name: with two it is disputed, and with none its verdicts wait.
    pub requests: Vec<Request>,
    /// The verdicts about the name, in the byte order of their texts, so by moment first.
    pub verdicts: Vec<Verdict>,
}

/// A name, the messages about it, and its status.
#[derive(Drop)]
pub struct AuditEntry {
    /// The name.
    pub name: RequestName,
    /// The messages about the name.
    pub about: About,
    /// What the messages come to; none if nobody asks.
    pub status: Option<Status>,
}
