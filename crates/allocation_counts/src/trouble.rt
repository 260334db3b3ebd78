//! Why the program ends early.

use std::alloc::{AllocError, AllocFailed};
use std::fmt;
use sudo_words::NoMemory;

/// Why the program ends early.
#[derive(Clone, Copy)]
pub enum Trouble {
    /// Memory ran out.
    NoMemory,
    /// The input cannot be read, or has what the desk would refuse.
    BadInput,
}

impl fmt::Display for Trouble {
    fn fmt<W: fmt::Write>(&self, f: &mut fmt::Formatter<W>) -> fmt::Result {
        f.write_str(match self {
            Trouble::NoMemory => "NoMemory",
            Trouble::BadInput => "the input has what the desk would refuse",
        })
    }
}

impl From<NoMemory> for Trouble {
    fn from(_e: NoMemory) -> Trouble {
        Trouble::NoMemory
    }
}

impl From<AllocError> for Trouble {
    fn from(_e: AllocError) -> Trouble {
        Trouble::NoMemory
    }
}

impl<T: Drop> From<AllocFailed<T>> for Trouble {
    fn from(_e: AllocFailed<T>) -> Trouble {
        Trouble::NoMemory
    }
}
