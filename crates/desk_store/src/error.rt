//! Why a keeper refuses.

ghost use Rattle.std.specs.Prelude.{◌≡◌};
ghost use Rattle.desk_store.specs.declared.error.KeeperError.TheVariants as error;

use std::alloc::{AllocError, AllocFailed};
use std::error::Error;
use std::fmt;
use sudo_words::NoMemory;

/// Why a keeper refuses a call. An error is shown as its name.
#[derive(Clone, Copy, Debug, PartialEq, Eq)]
pub enum KeeperError {
    /// Memory ran out: a growth was refused.
    NoMemory,
    /// The storage failed, or holds what no desk writes. The keeper counts each such failure.
    Storage,
}

impl fmt::Display for KeeperError {
    ghost use Rattle.std.specs.Prelude.{Some};
    ghost use Rattle.desk_store.specs.Faults.{error_text};

    ghost output = { λ e. Some (error_text e) };

    fn fmt<W: fmt::Write>(&self, f: &mut fmt::Formatter<W>) -> fmt::Result {
        f.write_str(match self {
            KeeperError::NoMemory => "NoMemory",
            KeeperError::Storage => "Storage",
        })
    }
}

impl Error for KeeperError {}

impl From<AllocError> for KeeperError {
    ghost from_gives = { λ _ e. e ≡ error.NoMemory };

    fn from(_e: AllocError) -> KeeperError {
        KeeperError::NoMemory
    }
}

impl<T: Drop> From<AllocFailed<T>> for KeeperError {
    ghost from_gives = { λ _ e. e ≡ error.NoMemory };

    fn from(_e: AllocFailed<T>) -> KeeperError {
        KeeperError::NoMemory
    }
}

impl From<NoMemory> for KeeperError {
    ghost from_gives = { λ _ e. e ≡ error.NoMemory };

    fn from(_e: NoMemory) -> KeeperError {
        KeeperError::NoMemory
    }
}
