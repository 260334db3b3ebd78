//! Why the program refuses.

ghost use Rattle.std.specs.Prelude.{◌≡◌};

use review::BeyondFault;
use roster::RosterFault;
use std::alloc::{AllocError, AllocFailed};
use std::fmt;
use sudo_syntax::{NoMemory, ReadFault};

/// Why the program refuses what it is told to do.
///
/// A refusal is printed as its code and name, as `F1 FileFailed`. A roster's fault, a comparison's
/// and the desk's refusal keep their own code and name, as `O1 NotToml`, `B1 TooManyCases` and
/// `K6 BaseTooLarge`. A policy's fault is printed with its line, as `S5 UnknownAlias line 3`.
#[derive(Clone, Copy, Debug, PartialEq, Eq)]
pub enum JobRefusal {
    /// A file could not be read, or an answer could not be written.
    FileFailed,
    /// A word of the command line does not have the form that its place asks for.
    BadWord,
    /// Memory ran out.
    NoMemory,
    /// A file's text is not a roster.
    Roster(RosterFault),
    /// A file's text is not a policy.
    Policy(ReadFault),
    /// Two policies were not compared.
    Beyond(BeyondFault),
    /// The desk refuses.
    Desk(desk::Refusal),
}

impl fmt::Display for JobRefusal {
    ghost use Rattle.std.specs.Prelude.{Some};
    ghost use Rattle.desk_commands.specs.Refusals.{job_refusal_text};

    ghost output = { λ r. Some (job_refusal_text r) };

    fn fmt<W: fmt::Write>(&self, f: &mut fmt::Formatter<W>) -> fmt::Result {
        match self {
            JobRefusal::FileFailed => f.write_str("F1 FileFailed"),
            JobRefusal::BadWord => f.write_str("F2 BadWord"),
            JobRefusal::NoMemory => f.write_str("NoMemory"),
            JobRefusal::Roster(fault) => write!(f, "{fault}"),
            JobRefusal::Policy(fault) => write!(f, "{fault}"),
            JobRefusal::Beyond(fault) => write!(f, "{fault}"),
            JobRefusal::Desk(refusal) => write!(f, "{refusal}"),
        }
    }
}

impl From<RosterFault> for JobRefusal {
    ghost use Rattle.desk_commands.specs.declared.refusal.JobRefusal.TheVariants.{Roster};

    ghost from_gives = { λ f e. e ≡ Roster f };

    fn from(e: RosterFault) -> JobRefusal {
        JobRefusal::Roster(e)
    }
}

impl From<ReadFault> for JobRefusal {
    ghost use Rattle.desk_commands.specs.declared.refusal.JobRefusal.TheVariants.{Policy};

    ghost from_gives = { λ f e. e ≡ Policy f };

    fn from(e: ReadFault) -> JobRefusal {
        JobRefusal::Policy(e)
    }
}

impl From<BeyondFault> for JobRefusal {
    ghost use Rattle.desk_commands.specs.declared.refusal.JobRefusal.TheVariants.{Beyond};

    ghost from_gives = { λ f e. e ≡ Beyond f };

    fn from(e: BeyondFault) -> JobRefusal {
        JobRefusal::Beyond(e)
    }
}

impl From<desk::Refusal> for JobRefusal {
    ghost use Rattle.desk_commands.specs.declared.refusal.JobRefusal.TheVariants.{Desk};

    ghost from_gives = { λ r e. e ≡ Desk r };

    fn from(e: desk::Refusal) -> JobRefusal {
        JobRefusal::Desk(e)
    }
}

impl From<NoMemory> for JobRefusal {
    ghost use Rattle.desk_commands.specs.declared.refusal.JobRefusal.TheVariants.{NoMemory};

    ghost from_gives = { λ _ e. e ≡ NoMemory };

    fn from(_e: NoMemory) -> JobRefusal {
        JobRefusal::NoMemory
    }
}

impl From<AllocError> for JobRefusal {
    ghost use Rattle.desk_commands.specs.declared.refusal.JobRefusal.TheVariants.{NoMemory};

    ghost from_gives = { λ _ e. e ≡ NoMemory };

    fn from(_e: AllocError) -> JobRefusal {
        JobRefusal::NoMemory
    }
}

impl<T: Drop> From<AllocFailed<T>> for JobRefusal {
    ghost use Rattle.desk_commands.specs.declared.refusal.JobRefusal.TheVariants.{NoMemory};

    ghost from_gives = { λ _ e. e ≡ NoMemory };

    fn from(_e: AllocFailed<T>) -> JobRefusal {
        JobRefusal::NoMemory
    }
}
