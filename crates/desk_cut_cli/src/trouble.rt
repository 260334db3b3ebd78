//! Why nothing was cut.

use desk_commands::JobRefusal;
use desk_cut::CutRefusal;
use desk_store::KeeperError;
use std::alloc::{AllocError, AllocFailed, Global};
use std::{fmt, io};
use store_copies::CopyFault;
use sudo_words::{Moment, NoMemory};

/// Why nothing was cut.
#[derive(Drop)]
pub(crate) enum Trouble {
    /// The command line does not follow the usage.
    Usage,
    /// A word on the command line does not have the form that its place requires.
    BadWord,
    /// Memory ran out.
    NoMemory,
    /// A file could not be read or written: which, and why.
    FileFailed(String),
    /// There is no store at this path.
    NoStore(String),
    /// The store at this path changed each time that it was read.
    Busy(String),
    /// What `desk` would refuse as well.
    Refused(JobRefusal),
    /// The moment is not a day behind this clock.
    Early(Option<Moment>),
    /// Something is at this path already.
    There(String),
    /// Another cut writes this file.
    Running(String),
}

impl fmt::Display for Trouble {
    fn fmt<W: fmt::Write>(&self, f: &mut fmt::Formatter<W>) -> fmt::Result {
        match self {
            Trouble::Usage => f.write_str("usage: desk-cut OLD NEW T [--archive FILE]"),
            Trouble::BadWord => JobRefusal::BadWord.fmt(f),
            Trouble::NoMemory => JobRefusal::NoMemory.fmt(f),
            Trouble::FileFailed(cause) => write!(f, "{}\ncause: {cause}", JobRefusal::FileFailed),
            Trouble::NoStore(path) => write!(f, "no store here: {path}"),
            Trouble::Busy(path) => write!(
                f,
                "the store is written to: {path}\ntry again, or stop what writes to it (fuser {path})"
            ),
            Trouble::Refused(refusal) => write!(f, "{refusal}"),
            Trouble::Early(Some(now)) => write!(
                f,
                "C1 CutTooLate\ncause: give a moment that lies a day and more behind this machine's clock, which says {now}"
            ),
            Trouble::Early(None) => f.write_str(
                "C1 CutTooLate\ncause: this machine's clock is out of range",
            ),
            Trouble::There(path) => write!(f, "C2 AlreadyThere\ncause: {path}"),
            Trouble::Running(path) => {
                write!(f, "C3 CutRuns\ncause: another desk-cut writes {path}")
            }
        }
    }
}

impl Trouble {
    /// This failed, for that reason.
    pub(crate) fn at<T: fmt::Display>(alloc: Global, what: &str, why: &T) -> Trouble {
        match format!(in alloc; "{what}: {why}") {
            Ok(cause) => Trouble::FileFailed(cause),
            Err(_) => Trouble::NoMemory,
        }
    }

    /// What the system says of a file or a clock.
    pub(crate) fn of_system(alloc: Global, what: &str, error: io::Error) -> Trouble {
        if error.kind() == io::ErrorKind::OutOfMemory {
            return Trouble::NoMemory;
        }
        Trouble::at(alloc, what, &error)
    }
}

impl From<CopyFault> for Trouble {
    fn from(e: CopyFault) -> Trouble {
        match e {
            CopyFault::NoMemory => Trouble::NoMemory,
            CopyFault::Storage => CutRefusal::Storage.into(),
            CopyFault::Failed(cause) => Trouble::FileFailed(cause),
            CopyFault::NoStore(path) => Trouble::NoStore(path),
            CopyFault::Busy(path) => Trouble::Busy(path),
        }
    }
}

impl From<CutRefusal> for Trouble {
    fn from(e: CutRefusal) -> Trouble {
        let refusal = match e {
            CutRefusal::NoMemory => return Trouble::NoMemory,
            CutRefusal::NoDesk => desk::Refusal::NotADesk,
            CutRefusal::OldDesk => desk::Refusal::OldSchema,
            CutRefusal::Storage | CutRefusal::NotEmpty => desk::Refusal::Storage,
        };
        Trouble::Refused(JobRefusal::Desk(refusal))
    }
}

impl From<KeeperError> for Trouble {
    fn from(e: KeeperError) -> Trouble {
        match e {
            KeeperError::NoMemory => Trouble::NoMemory,
            KeeperError::Storage => CutRefusal::Storage.into(),
        }
    }
}

impl From<NoMemory> for Trouble {
    fn from(_e: NoMemory) -> Trouble {
        Trouble::NoMemory
    }
}

impl From<AllocError> for Trouble {
    fn from(_e: AllocError) -> Trouble {
        Trouble::NoMemory
    }
}

impl<T: Drop> From<AllocFailed<T>> for Trouble {
    fn from(_e: AllocFailed<T>) -> Trouble {
        Trouble::NoMemory
    }
}
