//! Why there is no store in memory.

use std::alloc::{AllocError, AllocFailed, Global};
use std::{fmt, io};

/// Why there is no store in memory.
#[derive(Drop)]
pub enum CopyFault {
    /// Memory ran out.
    NoMemory,
    /// The storage failed, or holds what no desk writes.
    Storage,
    /// A file could not be read: which, and why.
    Failed(String),
    /// There is no store at this path.
    NoStore(String),
    /// The store at this path changed each time that it was read.
    Busy(String),
}

impl CopyFault {
    /// This failed, for that reason.
    pub(crate) fn at<T: fmt::Display>(alloc: Global, what: &str, why: &T) -> CopyFault {
        match format!(in alloc; "{what}: {why}") {
            Ok(cause) => CopyFault::Failed(cause),
            Err(_) => CopyFault::NoMemory,
        }
    }

    /// What the system says of a file.
    pub(crate) fn of_system(alloc: Global, what: &str, error: io::Error) -> CopyFault {
        if error.kind() == io::ErrorKind::OutOfMemory {
            return CopyFault::NoMemory;
        }
        CopyFault::at(alloc, what, &error)
    }
}

impl From<AllocError> for CopyFault {
    fn from(_e: AllocError) -> CopyFault {
        CopyFault::NoMemory
    }
}

impl<T: Drop> From<AllocFailed<T>> for CopyFault {
    fn from(_e: AllocFailed<T>) -> CopyFault {
        CopyFault::NoMemory
    }
}
