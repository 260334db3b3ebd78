//! Why the command line says nothing to do.

ghost use Rattle.std.specs.Prelude.{◌≡◌, ◌≢◌};
ghost use Rattle.clap.specs.Words.{kind_of};

use crate::status::ExitStatus;
use clap::error::ErrorKind;
use std::alloc::{AllocError, AllocFailed};
use sudo_words::WordFault;

/// Why the command line says nothing to do.
#[derive(Debug, Drop)]
pub enum JobFault {
    /// A value does not have the form that its place asks for.
    BadWord,
    /// Memory ran out.
    NoMemory,
    /// The line is not a command of the program, or asks for help. The fault has the text for
    /// the user.
    Usage(clap::Error),
}

/// Prints clap's text, help on the standard output and a mistake on the standard error, and says
/// how the program ends after it.
pub fn show(rt: &HostRuntime, error: &clap::Error) -> ExitStatus
    ensures mistake { kind_of error.now ≢ ErrorKind.DisplayHelp
        → kind_of error.now ≢ ErrorKind.DisplayVersion → result ≡ ExitStatus.Refused }
{
    if error.print(rt).is_err() || error.use_stderr() {
        ExitStatus::Refused
    } else {
        ExitStatus::Done
    }
}

impl From<AllocError> for JobFault {
    ghost use Rattle.std.specs.Prelude.{◌≡◌};
    ghost use Rattle.desk_args.specs.declared.fault.JobFault.TheVariants.{NoMemory};

    ghost from_gives = { λ _ e. e ≡ NoMemory };

    fn from(_e: AllocError) -> JobFault {
        JobFault::NoMemory
    }
}

impl<T: Drop> From<AllocFailed<T>> for JobFault {
    ghost use Rattle.std.specs.Prelude.{◌≡◌};
    ghost use Rattle.desk_args.specs.declared.fault.JobFault.TheVariants.{NoMemory};

    ghost from_gives = { λ _ e. e ≡ NoMemory };

    fn from(_e: AllocFailed<T>) -> JobFault {
        JobFault::NoMemory
    }
}

impl From<WordFault> for JobFault {
    ghost use Rattle.std.specs.Prelude.{◌≡◌};
    ghost use Rattle.desk_args.specs.Faults.{of_word};

    ghost from_gives = { λ w e. e ≡ of_word w };

    fn from(e: WordFault) -> JobFault {
        match e {
            WordFault::BadWord => JobFault::BadWord,
            WordFault::NoMemory => JobFault::NoMemory,
        }
    }
}
