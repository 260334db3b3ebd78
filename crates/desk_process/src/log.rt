//! What the service says on its standard error.

use crate::ready::Ready;
use desk::{Desk, Keeper, Refusal};
use http::StatusCode;
use mio::Interest;
use std::fmt::{self, Display};
use std::os::fd::RawFd;

/// The standard error.
const STANDARD_ERROR: RawFd = 2;

/// Says lines on the standard error, and drops each line that cannot be written at once: the
/// service goes on even if nobody reads the lines.
#[derive(Drop)]
pub(crate) struct Log {
    /// Tells whether the standard error takes a line; none where it always does, as a file.
    ready: Option<Ready>,
    dropped: u64,
}

/// A 503 that was answered, as a line: the refusal that it tells.
#[derive(Clone, Copy)]
pub(crate) struct Answered(Refusal);

impl Answered {
    /// What is said about a response of this status that tells this refusal: nothing, unless it is
    /// a 503.
    pub(crate) fn of(status: StatusCode, refusal: Option<Refusal>) -> Option<Answered> {
        if status.as_u16() != StatusCode::SERVICE_UNAVAILABLE.as_u16() {
            return None;
        }
        refusal.map(Answered)
    }

    /// Whether the refusal is that the storage failed.
    pub(crate) fn is_of_storage(&self) -> bool {
        matches!(self.0, Refusal::Storage)
    }
}

impl fmt::Display for Answered {
    fn fmt<W: fmt::Write>(&self, f: &mut fmt::Formatter<W>) -> fmt::Result {
        write!(f, "answered {}", self.0)
    }
}

/// What is served, as a line.
#[derive(Clone, Copy)]
pub(crate) struct Serving<'a> {
    roster: &'a str,
    messages: Option<usize>,
}

impl<'a> Serving<'a> {
    /// What the desk serves now: how many messages it has, where memory and the storage allow
    /// counting them, and the digest of its roster, which is given.
    pub(crate) fn now<K: Keeper>(desk: &mut Desk<K>, roster: &'a str) -> Serving<'a> {
        Serving {
            roster,
            messages: desk.count().ok(),
        }
    }
}

impl fmt::Display for Serving<'_> {
    fn fmt<W: fmt::Write>(&self, f: &mut fmt::Formatter<W>) -> fmt::Result {
        match self.messages {
            Some(messages) => write!(f, "serving {messages} messages, roster {}", self.roster),
            None => write!(
                f,
                "serving messages that were not counted, roster {}",
                self.roster
            ),
        }
    }
}

/// How many lines were dropped, as a line.
#[derive(Clone, Copy)]
struct Dropped(u64);

impl fmt::Display for Dropped {
    fn fmt<W: fmt::Write>(&self, f: &mut fmt::Formatter<W>) -> fmt::Result {
        write!(f, "{} lines were dropped, which nobody read", self.0)
    }
}

impl Log {
    /// A log in which nothing is said yet.
    pub(crate) fn new(rt: &HostRuntime) -> Log {
        Log {
            ready: Ready::new(rt, STANDARD_ERROR, Interest::WRITABLE).ok(),
            dropped: 0,
        }
    }

    fn is_ready(&mut self) -> bool {
        match &mut self.ready {
            Some(ready) => ready.is_ready().unwrap_or(false),
            None => true,
        }
    }

    /// Says a line, where the standard error takes it.
    fn try_say<T: Display>(&mut self, rt: &HostRuntime, line: &T) -> bool {
        if !self.is_ready() {
            return false;
        }
        let _ = eprintln!(rt; "{line}");
        true
    }

    /// Says a line, and before it how many lines were dropped since the last one.
    pub(crate) fn say<T: Display>(&mut self, rt: &HostRuntime, line: &T) {
        let dropped = self.dropped;
        if dropped > 0 && self.try_say(rt, &Dropped(dropped)) {
            self.dropped = 0;
        }
        if self.dropped > 0 || !self.try_say(rt, line) {
            self.dropped = self.dropped.saturating_add(1);
        }
    }
}
