//! What is left in the files of a store.

use desk_store::SqliteKeeper;
use sqlite::Connection;
use sqlite_disk::{Crash, Disk, Files};
use sqlite_store::FileStore;
use std::alloc::Global;
use trial::files::{Fused, Pair, Stopping, opened_whole, pair_of};
use trial::trouble::Trouble;

/// The files of the keeper's store, without calling them.
pub(crate) fn files_at<D: Disk + Drop>(keeper: SqliteKeeper<FileStore<D>>) -> Files<D> {
    keeper.into_connection().into_store().close()
}

/// Whether the file would pass on one more call. A file that refused to sync may not be asked.
fn is_whole(file: &mut Fused) -> bool {
    file.may_be_used() && file.len().is_ok()
}

/// Whether each file would pass on one more call.
pub(crate) fn are_whole(files: &mut Files<Fused>) -> bool {
    is_whole(&mut files.log) && is_whole(&mut files.db)
}

/// The bytes that are left in the files where a process ended: all that was written.
pub(crate) fn written_in(alloc: Global, files: &Files<Fused>) -> Result<Pair, Trouble> {
    pair_of(alloc, files.log.inner().bytes(), files.db.inner().bytes())
}

/// The bytes that are left in the files where the machine stopped: what was not synced is gone.
pub(crate) fn synced_in(alloc: Global, mut files: Files<Fused>) -> Result<Pair, Trouble> {
    files.log.crash();
    files.db.crash();
    let pair = written_in(alloc, &files);
    drop(files);
    pair
}

/// The files of the connection's store, once its log is copied into the database.
fn closed<D: Disk + Drop>(conn: Connection<FileStore<D>>) -> Result<Files<D>, Trouble> {
    match conn.close_files() {
        Ok(files) => Ok(files),
        Err((_, store)) => {
            drop(store.close());
            Err(Trouble::NoStore)
        }
    }
}

/// The files of the keeper's store, once its log is copied into the database.
fn closed_by<D: Disk + Drop>(keeper: SqliteKeeper<FileStore<D>>) -> Result<Files<D>, Trouble> {
    closed(keeper.into_connection())
}

/// The same files after these statements.
fn run_over<D: Disk + Drop>(
    keeper: SqliteKeeper<FileStore<D>>,
    sql: &str,
) -> Result<Files<D>, Trouble> {
    let mut conn = keeper.into_connection();
    let is_done = conn.execute_batch(sql).is_ok();
    let files = closed(conn);
    if is_done {
        files
    } else {
        drop(files);
        Err(Trouble::BadText)
    }
}

/// The bytes that are left in the files.
fn bytes_in(alloc: Global, files: Files<Fused>) -> Result<Pair, Trouble> {
    let pair = written_in(alloc, &files);
    drop(files);
    pair
}

/// The bytes of the keeper's store, once its log is copied into the database.
pub(crate) fn closed_at(alloc: Global, keeper: Stopping) -> Result<Pair, Trouble> {
    bytes_in(alloc, closed_by(keeper)?)
}

/// The bytes of a store after these statements.
pub(crate) fn filled(alloc: Global, start: &Pair, sql: &str) -> Result<Pair, Trouble> {
    bytes_in(alloc, run_over(opened_whole(alloc, start)?, sql)?)
}
