//! Why a job is refused, and what failed where a file, a stream or an address did.

use desk_commands::{ExitStatus, JobRefusal, refuse};
use std::alloc::{AllocFailed, Global};
use std::fmt::Display;
use std::io;

/// Why a job is refused.
#[derive(Drop)]
pub(crate) struct Trouble {
    refusal: JobRefusal,
    /// What failed, and why; none where no such thing failed, or memory ran out.
    cause: Option<String>,
}

impl Trouble {
    /// A refusal, since this failed for that reason.
    pub(crate) fn at<T: Display>(
        alloc: Global,
        refusal: JobRefusal,
        what: &str,
        why: &T,
    ) -> Trouble {
        Trouble {
            refusal,
            cause: format!(in alloc; "{what}: {why}").ok(),
        }
    }

    /// What the system says of a file, a stream or an address.
    pub(crate) fn of_system(alloc: Global, what: &str, error: io::Error) -> Trouble {
        if error.kind() == io::ErrorKind::OutOfMemory {
            return Trouble::from(JobRefusal::NoMemory);
        }
        Trouble::at(alloc, JobRefusal::FileFailed, what, &error)
    }

    /// Says the refusal on the standard error, and on a further line what failed.
    pub(crate) fn tell(&self, rt: &HostRuntime) -> ExitStatus {
        let (status, _) = refuse(self.refusal, &mut rt.stderr());
        self.tell_cause(rt);
        status
    }

    /// Says what failed.
    fn tell_cause(&self, rt: &HostRuntime) {
        if let Some(cause) = &self.cause {
            let _ = eprintln!(rt; "cause: {cause}");
        }
    }
}

/// Says why a stream failed, if it did, once the job's refusal is said.
pub(crate) fn tell_failed(rt: &HostRuntime, what: &str, failed: Option<io::Error>) {
    if let Some(error) = failed {
        let _ = eprintln!(rt; "cause: {what}: {error}");
    }
}

impl From<JobRefusal> for Trouble {
    fn from(refusal: JobRefusal) -> Trouble {
        Trouble {
            refusal,
            cause: None,
        }
    }
}

impl<T: Drop> From<AllocFailed<T>> for Trouble {
    fn from(_e: AllocFailed<T>) -> Trouble {
        Trouble::from(JobRefusal::NoMemory)
    }
}
