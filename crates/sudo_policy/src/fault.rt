//! Why a text is not a policy.

ghost use Rattle.std.specs.Prelude.{◌≡◌};
ghost use Rattle.sudo_policy.specs.declared.fault.LineFault.TheVariants.{NoMemory};

use std::alloc::{AllocError, AllocFailed};
use std::error::Error;
use std::fmt;
use sudo_words::{CmndFault, WordFault};

/// What is wrong with a line of a policy's text, or with an entry. It is shown as its code and
/// name.
#[derive(Clone, Copy, Debug, PartialEq, Eq)]
pub enum LineFault {
    /// A word is not of the form that its place asks for.
    BadWord,
    /// A word or mark stands where the grammar allows none, or one is missing.
    Unexpected,
    /// An alias is used that no line above defines.
    UnknownAlias,
    /// An alias is defined twice in its kind.
    AliasTwice,
    /// A reserved word stands in the place of an alias's name.
    Reserved,
    /// A time is malformed, or out of range.
    BadMoment,
    /// A form of sudoers(5) that the desk leaves out.
    LeftOut,
    /// The policy is past a limit.
    TooLarge,
    /// Memory ran out.
    NoMemory,
}

impl fmt::Display for LineFault {
    ghost use Rattle.std.specs.Prelude.{Some};
    ghost use Rattle.sudo_policy.specs.Faults.{line_fault_text};

    ghost output = { λ k. Some (line_fault_text k) };

    fn fmt<W: fmt::Write>(&self, f: &mut fmt::Formatter<W>) -> fmt::Result {
        f.write_str(match self {
            LineFault::BadWord => "S3 BadWord",
            LineFault::Unexpected => "S4 Unexpected",
            LineFault::UnknownAlias => "S5 UnknownAlias",
            LineFault::AliasTwice => "S6 AliasTwice",
            LineFault::Reserved => "S7 Reserved",
            LineFault::BadMoment => "S8 BadMoment",
            LineFault::LeftOut => "S9 LeftOut",
            LineFault::TooLarge => "S10 TooLarge",
            LineFault::NoMemory => "S11 NoMemory",
        })
    }
}

impl Error for LineFault {}

impl From<AllocError> for LineFault {
    ghost from_gives = { λ _ e. e ≡ NoMemory };

    fn from(_e: AllocError) -> LineFault {
        LineFault::NoMemory
    }
}

impl<T: Drop> From<AllocFailed<T>> for LineFault {
    ghost from_gives = { λ _ e. e ≡ NoMemory };

    fn from(_e: AllocFailed<T>) -> LineFault {
        LineFault::NoMemory
    }
}

/// What is wrong with a text that is not a policy. It is shown as its code and name.
#[derive(Clone, Copy, Debug, PartialEq, Eq)]
pub enum FaultKind {
    /// The text has more than 16 MiB.
    TooLong,
    /// A byte is not a tab, a newline or a printable ASCII character.
    BadByte,
    /// A line is wrong, or an entry.
    Line(LineFault),
}

impl fmt::Display for FaultKind {
    ghost use Rattle.std.specs.Prelude.{Some};
    ghost use Rattle.sudo_policy.specs.Faults.{fault_kind_text};

    ghost output = { λ k. Some (fault_kind_text k) };

    fn fmt<W: fmt::Write>(&self, f: &mut fmt::Formatter<W>) -> fmt::Result {
        match self {
            FaultKind::TooLong => f.write_str("S1 TooLong"),
            FaultKind::BadByte => f.write_str("S2 BadByte"),
            FaultKind::Line(fault) => fault.fmt(f),
        }
    }
}

impl Error for FaultKind {}

/// Why a text was not read: what is wrong, and in which line, from 1. Such a fault is shown like
/// this: `S5 UnknownAlias line 3`.
#[derive(Clone, Copy, Debug, PartialEq, Eq)]
pub struct ReadFault {
    /// The line, from 1; 0 where there is no text.
    pub line: usize,
    /// What is wrong.
    pub kind: FaultKind,
}

impl fmt::Display for ReadFault {
    ghost use Rattle.std.specs.Prelude.{Some};
    ghost use Rattle.sudo_policy.specs.Faults.{read_fault_text};

    ghost output = { λ f. Some (read_fault_text f) };

    fn fmt<W: fmt::Write>(&self, f: &mut fmt::Formatter<W>) -> fmt::Result {
        let kind = self.kind;
        let line = self.line;
        write!(f, "{kind} line {line}")
    }
}

impl Error for ReadFault {}
