//! Why the program ends early.

use std::alloc::{AllocError, AllocFailed};
use std::fmt;
use sudo_words::NoMemory;

/// Why the program ends early. No trouble comes where memory is ample and the program is right.
#[derive(Clone, Copy)]
pub enum Trouble {
    /// Memory ran out.
    NoMemory,
    /// A text of the program's own is not what it should be.
    BadText,
    /// A store without a fault did not open.
    NoStore,
    /// A call without a fault was refused.
    Refused,
}

impl fmt::Display for Trouble {
    fn fmt<W: fmt::Write>(&self, f: &mut fmt::Formatter<W>) -> fmt::Result {
        f.write_str(match self {
            Trouble::NoMemory => "NoMemory",
            Trouble::BadText => "a text of the program's own is wrong",
            Trouble::NoStore => "a store without a fault did not open",
            Trouble::Refused => "a call without a fault was refused",
        })
    }
}

impl From<NoMemory> for Trouble {
    fn from(_e: NoMemory) -> Trouble {
        Trouble::NoMemory
    }
}

impl From<AllocError> for Trouble {
    fn from(_e: AllocError) -> Trouble {
        Trouble::NoMemory
    }
}

impl<T: Drop> From<AllocFailed<T>> for Trouble {
    fn from(_e: AllocFailed<T>) -> Trouble {
        Trouble::NoMemory
    }
}
