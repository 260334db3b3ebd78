//! The parts that are fixed in the invocations that are looked at.

use sudo_words::{HostName, Name};

/// The parts that are fixed in the invocations that are looked at; a part that is `None` may be
/// anything.
#[derive(Debug, Drop)]
pub struct Scope {
    /// The user who asks.
    pub user: Option<Name>,
    /// The host.
    pub host: Option<HostName>,
    /// The target.
    pub runas: Option<Name>,
}
