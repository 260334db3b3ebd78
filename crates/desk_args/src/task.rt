//! What the program is told to do.

use crate::text::Text;
use sudo_decide::{Invocation, Scope};
use sudo_words::{HostName, Moment};

/// Where a desk keeps its messages.
#[derive(Drop)]
pub enum Store {
    /// In memory alone.
    Memory,
    /// In the database of this path.
    File(Text),
}

/// How often a commit syncs a database in a file.
#[derive(Clone, Copy, Debug, PartialEq, Eq)]
pub enum Sync {
    /// Once: what was committed is kept if, after a crash, each byte is the old or the new one.
    Once,
    /// Twice: what was committed is kept, whatever a write that a crash broke off has left where it
    /// wrote.
    Twice,
}

/// Where a desk listens.
#[derive(Drop)]
pub enum Address {
    /// At a host and a port, as `127.0.0.1:8080`.
    Tcp(Text),
    /// At the Unix socket of this path.
    Unix(Text),
}

/// Where the parts of a desk are.
#[derive(Drop)]
pub struct Places {
    /// The path of the roster's file.
    pub roster: Text,
    /// The path of the base policy's file.
    pub base: Text,
    /// Where the desk's messages are kept.
    pub store: Store,
    /// How often a commit syncs the messages.
    pub sync: Sync,
}

/// What the command line says to do.
#[derive(Drop)]
pub enum Job {
    /// Print the canonical text of a file's policy.
    Check {
        /// The path of the policy's file.
        file: Text,
    },
    /// Decide one run of a command by a file's policy.
    Decide {
        /// The path of the policy's file.
        file: Text,
        /// The run.
        invocation: Invocation,
    },
    /// Find what one file's policy allows beyond another's.
    Beyond {
        /// The path of the file whose policy may allow more.
        a: Text,
        /// The path of the file whose policy it is compared with.
        b: Text,
        /// What is fixed in the invocations that are looked at.
        scope: Scope,
    },
    /// Deliver the lines of the input to a desk, and print the answer to each.
    Deliver {
        /// The desk's files.
        places: Places,
        /// The relay that the lines come from, which the roster may lack.
        relay: Text,
    },
    /// Deliver the lines of the input to a desk, and print a host's file.
    Print {
        /// The desk's files.
        places: Places,
        /// The host.
        host: HostName,
        /// No line that ends before this moment is printed; without it all lines are.
        after: Option<Moment>,
    },
    /// Deliver the lines of the input to a desk, and print its report.
    Review {
        /// The desk's files.
        places: Places,
        /// The moment that is looked at.
        at: Moment,
    },
    /// Give a desk the roster, in place of the one that it has.
    Rebuild {
        /// The desk's files.
        places: Places,
    },
    /// Serve a desk over HTTP.
    Serve {
        /// The desk's files.
        places: Places,
        /// Where to listen.
        addr: Address,
        /// Where to listen for questions alone; without it, nowhere.
        questions: Option<Address>,
        /// How many connections are served; without it, as many as come.
        requests: Option<u64>,
    },
}
