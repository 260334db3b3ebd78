//! Why a message is not taken into a desk's tables.

ghost use Rattle.std.specs.Prelude.{◌≡◌};
ghost use Rattle.store_tables.specs.declared.fault.Fault.TheVariants as fault;

use sqlite::Error;
use std::alloc::{AllocError, AllocFailed};
use sudo_words::NoMemory;

/// Why a statement, or several, went wrong.
#[derive(Debug, Drop)]
pub enum Fault {
    /// Memory ran out: a growth was refused.
    NoMemory,
    /// The database refused a statement.
    Database(Error),
    /// A table holds a row that no desk writes.
    Stray,
}

impl From<Error> for Fault {
    ghost from_gives = { λ error e. e ≡ fault.Database error };

    fn from(e: Error) -> Fault {
        Fault::Database(e)
    }
}

impl From<AllocError> for Fault {
    ghost from_gives = { λ _ e. e ≡ fault.NoMemory };

    fn from(_e: AllocError) -> Fault {
        Fault::NoMemory
    }
}

impl<T: Drop> From<AllocFailed<T>> for Fault {
    ghost from_gives = { λ _ e. e ≡ fault.NoMemory };

    fn from(_e: AllocFailed<T>) -> Fault {
        Fault::NoMemory
    }
}

impl From<NoMemory> for Fault {
    ghost from_gives = { λ _ e. e ≡ fault.NoMemory };

    fn from(_e: NoMemory) -> Fault {
        Fault::NoMemory
    }
}
