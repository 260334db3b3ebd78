//! What is asked of a policy.

use sudo_words::{Arg, FilePath, HostName, Items, Moment, Name};

/// One invocation: who runs which command, where, as whom and when.
#[derive(Debug, Drop)]
pub struct Invocation {
    /// The user who asks.
    pub user: Name,
    /// The host on which the command is to run.
    pub host: HostName,
    /// The target: the user that the command is to run as.
    pub runas: Name,
    /// The path of the command.
    pub path: FilePath,
    /// The arguments, in order.
    pub args: Items<Arg>,
    /// The moment of the invocation.
    pub at: Moment,
}
