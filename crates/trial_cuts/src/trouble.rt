//! Why the program ends early.

use messages::MessageFault;
use std::alloc::{AllocError, AllocFailed};
use std::fmt;
use sudo_words::NoMemory;

/// Why the program ends early.
#[derive(Clone, Copy)]
pub enum Trouble {
    /// Memory ran out.
    NoMemory,
    /// The input cannot be read, or is no moment and messages.
    BadInput,
}

impl fmt::Display for Trouble {
    fn fmt<W: fmt::Write>(&self, f: &mut fmt::Formatter<W>) -> fmt::Result {
        f.write_str(match self {
            Trouble::NoMemory => "NoMemory",
            Trouble::BadInput => "the input is no moment and messages",
        })
    }
}

impl From<NoMemory> for Trouble {
    fn from(_e: NoMemory) -> Trouble {
        Trouble::NoMemory
    }
}

impl From<AllocError> for Trouble {
    fn from(_e: AllocError) -> Trouble {
        Trouble::NoMemory
    }
}

impl<T: Drop> From<AllocFailed<T>> for Trouble {
    fn from(_e: AllocFailed<T>) -> Trouble {
        Trouble::NoMemory
    }
}

impl From<MessageFault> for Trouble {
    fn from(e: MessageFault) -> Trouble {
        match e {
            MessageFault::NoMemory => Trouble::NoMemory,
            _ => Trouble::BadInput,
        }
    }
}
