//! A new store in memory, and the bytes that its file is to have.

use crate::copies::{Copied, keeper_over};
use crate::fault::CopyFault;
use crate::sheet::Sheet;
use sqlite_disk::Files;
use std::alloc::Global;

/// A keeper over a store in memory that keeps nothing yet.
pub fn new_store(alloc: Global) -> Result<Copied, CopyFault> {
    let files = Files {
        log: Sheet::new(alloc),
        db: Sheet::new(alloc),
    };
    keeper_over(alloc, "memory", files)
}

/// The file of the keeper's store, once the log is copied into it: the file alone is then the
/// store.
pub fn file_of(keeper: Copied) -> Result<Sheet, CopyFault> {
    match keeper.into_connection().close_files() {
        Ok(files) => {
            let Files { log, db } = files;
            drop(log);
            Ok(db)
        }
        Err((_, store)) => {
            drop(store.close());
            Err(CopyFault::Storage)
        }
    }
}
