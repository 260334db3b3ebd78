//! Why a text is not a roster.

ghost use Rattle.std.specs.Prelude.{◌≡◌};
ghost use Rattle.roster.specs.declared.fault.RosterFault.TheVariants as fault;

use std::alloc::{AllocError, AllocFailed};
use std::error::Error;
use std::fmt;

/// Why a text is not a roster. It is shown as its code and name.
///
/// If a text has several faults, the one with the lowest number is returned.
#[derive(Clone, Copy, Debug, PartialEq, Eq)]
pub enum RosterFault {
    /// The text is not a TOML document.
    NotToml,
    /// The document, a ceiling or an entry has a key that it may not have.
    UnknownKey,
    /// A value does not have the type that its key requires, or a key is missing.
    WrongType,
    /// A text that should be a name is not such a name, or one that should be a command is not a
    /// command.
    BadName,
    /// A duty is not among the duties, or a ceiling's host is not among the hosts.
    UnknownName,
    /// A duty conflicts with itself.
    SelfConflict,
    /// A number, an entry's days, the length of a list or the length of the text is out of range.
    OutOfRange,
    /// Memory ran out.
    NoMemory,
}

impl fmt::Display for RosterFault {
    ghost use Rattle.std.specs.Prelude.{Some};
    ghost use Rattle.roster.specs.Faults.{roster_fault_text};

    ghost output = { λ e. Some (roster_fault_text e) };

    fn fmt<W: fmt::Write>(&self, f: &mut fmt::Formatter<W>) -> fmt::Result {
        f.write_str(match self {
            RosterFault::NotToml => "O1 NotToml",
            RosterFault::UnknownKey => "O2 UnknownKey",
            RosterFault::WrongType => "O3 WrongType",
            RosterFault::BadName => "O4 BadName",
            RosterFault::UnknownName => "O5 UnknownName",
            RosterFault::SelfConflict => "O6 SelfConflict",
            RosterFault::OutOfRange => "O7 OutOfRange",
            RosterFault::NoMemory => "O8 NoMemory",
        })
    }
}

impl Error for RosterFault {}

impl From<AllocError> for RosterFault {
    ghost from_gives = { λ _ e. e ≡ fault.NoMemory };

    fn from(_e: AllocError) -> RosterFault {
        RosterFault::NoMemory
    }
}

impl<T: Drop> From<AllocFailed<T>> for RosterFault {
    ghost from_gives = { λ _ e. e ≡ fault.NoMemory };

    fn from(_e: AllocFailed<T>) -> RosterFault {
        RosterFault::NoMemory
    }
}
