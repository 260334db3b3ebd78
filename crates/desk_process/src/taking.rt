//! Another roster for a desk that is served.

use crate::files::{MOST_ROSTER, read_file};
use crate::orders::wanted_in;
use crate::serving::digest_of;
use desk::{Desk, Keeper, Refusal};
use desk_commands::{JobRefusal, take_file};
use std::{fmt, io};

/// Why a desk did not take a roster.
#[derive(Drop)]
pub(crate) enum Why {
    /// The line is no order.
    NoOrder,
    /// The file cannot be read.
    Unread(io::Error),
    /// The file has another digest than the one that was ordered.
    Another(String),
    /// The file is no roster, or the desk refuses it.
    Refused(JobRefusal),
}

impl Why {
    /// Whether the desk's storage failed.
    pub(crate) fn is_of_storage(&self) -> bool {
        matches!(self, Why::Refused(JobRefusal::Desk(Refusal::Storage)))
    }
}

impl From<JobRefusal> for Why {
    fn from(refusal: JobRefusal) -> Why {
        Why::Refused(refusal)
    }
}

/// The line which says that the desk's roster stays, and why.
#[derive(Clone, Copy)]
pub(crate) struct Stays<'a> {
    pub(crate) path: &'a str,
    pub(crate) why: &'a Why,
}

impl fmt::Display for Stays<'_> {
    fn fmt<W: fmt::Write>(&self, f: &mut fmt::Formatter<W>) -> fmt::Result {
        match self.why {
            Why::NoOrder => f.write_str("the roster stays: F2 BadWord: no such order"),
            Why::Unread(error) => {
                write!(f, "the roster stays: F1 FileFailed: {}: {error}", self.path)
            }
            Why::Another(digest) => write!(
                f,
                "the roster stays: F1 FileFailed: {} has changed, to {digest}",
                self.path
            ),
            Why::Refused(refusal) => { write!(f, "the roster stays: {refusal}: {}", self.path) }
        }
    }
}

/// Has the desk take the roster of the file, if the file's digest is the one that the order names:
/// whoever ordered it has judged that text, and nobody has judged what was written there since.
/// Answers the digest.
pub(crate) fn take<K: Keeper>(
    rt: &HostRuntime,
    desk: &mut Desk<K>,
    path: &str,
    order: &[u8],
) -> Result<String, Why> {
    let Some(wanted) = wanted_in(order) else {
        return Err(Why::NoOrder);
    };
    let bytes = match read_file(rt, path, MOST_ROSTER) {
        Ok(bytes) => bytes,
        Err(error) => return Err(Why::Unread(error)),
    };
    let digest = digest_of(rt.alloc(), bytes.as_slice())?;
    if digest.as_str() != wanted {
        return Err(Why::Another(digest));
    }
    take_file(rt.alloc(), desk, bytes.as_slice())?;
    Ok(digest)
}
