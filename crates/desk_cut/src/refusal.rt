//! Why no desk is begun.

ghost use Rattle.desk_cut.specs.Growing.{IsOfKeeper};

use desk_store::KeeperError;
use std::alloc::AllocError;
use sudo_words::NoMemory;

/// Why no desk is begun.
#[derive(Clone, Copy, Debug, PartialEq, Eq)]
pub enum CutRefusal {
    /// Memory ran out.
    NoMemory,
    /// A storage failed, or holds what no desk writes.
    Storage,
    /// What is to be cut is no desk.
    NoDesk,
    /// What is to be cut is a desk of an older form.
    OldDesk,
    /// Something is kept already where the desk is to begin.
    NotEmpty,
}

impl From<KeeperError> for CutRefusal {
    ghost from_gives = { λ _ e. IsOfKeeper e };

    fn from(e: KeeperError) -> CutRefusal {
        match e {
            KeeperError::NoMemory => CutRefusal::NoMemory,
            KeeperError::Storage => CutRefusal::Storage,
        }
    }
}

impl From<NoMemory> for CutRefusal {
    ghost from_gives = { λ _ e. IsOfKeeper e };

    fn from(_e: NoMemory) -> CutRefusal {
        CutRefusal::NoMemory
    }
}

impl From<AllocError> for CutRefusal {
    ghost from_gives = { λ _ e. IsOfKeeper e };

    fn from(_e: AllocError) -> CutRefusal {
        CutRefusal::NoMemory
    }
}
