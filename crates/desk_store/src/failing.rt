//! Failures of a keeper over a database, reported and counted.

ghost use Rattle.std.specs.Prelude.{◌≡◌, ◌↔◌, ◌≤◌, IsTrue};
ghost use Rattle.store_tables.specs.Causes.{IsOfMemory};
ghost use Rattle.desk_store.specs.Keeping.{HasFailed};
ghost use Rattle.desk_store.specs.declared.error.KeeperError.TheVariants as errors;

use crate::error::KeeperError;
use sqlite::{Error, ErrorCode};
use store_tables::Fault;

/// Whether a growth was refused.
fn is_of_memory(fault: &Fault) -> bool
    ensures { IsTrue result ↔ IsOfMemory fault.now }
{
    matches!(
        fault,
        Fault::NoMemory | Fault::Database(Error::SqliteFailure(ErrorCode::OutOfMemory))
    )
}

/// Counts a failure.
fn count(failed: &mut u64)
    ensures failed { HasFailed failed.old failed.new }
    ensures counts { failed.old ≤ failed.new }
{
    *failed = failed.saturating_add(1);
}

/// Counts a failure, and answers its cause: want of memory, or the storage.
///
/// Want of memory is counted too: what it interrupts is undone, and the disk may fail at that,
/// which shuts the store.
pub(crate) fn told(failed: &mut u64, fault: Fault) -> KeeperError
    ensures failed { HasFailed failed.old failed.new }
    ensures counts { failed.old ≤ failed.new }
    ensures memory { (result ≡ errors.NoMemory) ↔ IsOfMemory fault }
{
    count(failed);
    if is_of_memory(&fault) {
        KeeperError::NoMemory
    } else {
        KeeperError::Storage
    }
}

/// Counts a failure of the storage.
pub(crate) fn storage(failed: &mut u64) -> KeeperError
    ensures failed { HasFailed failed.old failed.new }
    ensures counts { failed.old ≤ failed.new }
    ensures cause { result ≡ errors.Storage }
{
    count(failed);
    KeeperError::Storage
}
