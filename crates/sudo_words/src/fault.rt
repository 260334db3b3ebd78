//! Why a word or a command is not read, or a text is not printed.

ghost use Rattle.std.specs.Prelude.{◌≡◌};
ghost use Rattle.sudo_words.specs.declared.fault.CmndFault.TheVariants as cmnd;
ghost use Rattle.sudo_words.specs.declared.fault.WordFault.TheVariants as word;

use std::alloc::{AllocError, AllocFailed};
use std::error::Error;
use std::fmt;

/// Memory ran out: an allocation was refused. It is shown as its name.
#[derive(Clone, Copy, Debug, PartialEq, Eq)]
pub struct NoMemory;

impl fmt::Display for NoMemory {
    ghost use Rattle.std.specs.Prelude.{Some};
    ghost use Rattle.sudo_words.specs.Faults.{no_memory_text};

    ghost output = { λ f. Some (no_memory_text f) };

    fn fmt<W: fmt::Write>(&self, f: &mut fmt::Formatter<W>) -> fmt::Result {
        f.write_str("NoMemory")
    }
}

impl Error for NoMemory {}

impl From<AllocError> for NoMemory {
    fn from(_e: AllocError) -> NoMemory {
        NoMemory
    }
}

impl<T: Drop> From<AllocFailed<T>> for NoMemory {
    fn from(_e: AllocFailed<T>) -> NoMemory {
        NoMemory
    }
}

/// Why a text was not read as a word. It is shown as its name.
#[derive(Clone, Copy, Debug, PartialEq, Eq)]
pub enum WordFault {
    /// The text does not have the word's form.
    BadWord,
    /// Memory ran out.
    NoMemory,
}

impl fmt::Display for WordFault {
    ghost use Rattle.std.specs.Prelude.{Some};
    ghost use Rattle.sudo_words.specs.Faults.{word_fault_text};

    ghost output = { λ f. Some (word_fault_text f) };

    fn fmt<W: fmt::Write>(&self, f: &mut fmt::Formatter<W>) -> fmt::Result {
        f.write_str(match self {
            WordFault::BadWord => "BadWord",
            WordFault::NoMemory => "NoMemory",
        })
    }
}

impl Error for WordFault {}

impl From<AllocError> for WordFault {
    ghost from_gives = { λ _ e. e ≡ word.NoMemory };

    fn from(_e: AllocError) -> WordFault {
        WordFault::NoMemory
    }
}

impl<T: Drop> From<AllocFailed<T>> for WordFault {
    ghost from_gives = { λ _ e. e ≡ word.NoMemory };

    fn from(_e: AllocFailed<T>) -> WordFault {
        WordFault::NoMemory
    }
}

/// Why a text was not read as a command. It is shown as its name.
#[derive(Clone, Copy, Debug, PartialEq, Eq)]
pub enum CmndFault {
    /// The text, or the head and the rule, are not those of a lawful command.
    BadCmnd,
    /// Memory ran out.
    NoMemory,
}

impl fmt::Display for CmndFault {
    ghost use Rattle.std.specs.Prelude.{Some};
    ghost use Rattle.sudo_words.specs.Faults.{cmnd_fault_text};

    ghost output = { λ f. Some (cmnd_fault_text f) };

    fn fmt<W: fmt::Write>(&self, f: &mut fmt::Formatter<W>) -> fmt::Result {
        f.write_str(match self {
            CmndFault::BadCmnd => "BadCmnd",
            CmndFault::NoMemory => "NoMemory",
        })
    }
}

impl Error for CmndFault {}

impl From<AllocError> for CmndFault {
    ghost from_gives = { λ _ e. e ≡ cmnd.NoMemory };

    fn from(_e: AllocError) -> CmndFault {
        CmndFault::NoMemory
    }
}

impl<T: Drop> From<AllocFailed<T>> for CmndFault {
    ghost from_gives = { λ _ e. e ≡ cmnd.NoMemory };

    fn from(_e: AllocFailed<T>) -> CmndFault {
        CmndFault::NoMemory
    }
}

impl From<WordFault> for CmndFault {
    ghost from_gives = { λ w e. w ≡ word.NoMemory → e ≡ cmnd.NoMemory };

    fn from(e: WordFault) -> CmndFault {
        match e {
            WordFault::BadWord => CmndFault::BadCmnd,
            WordFault::NoMemory => CmndFault::NoMemory,
        }
    }
}
