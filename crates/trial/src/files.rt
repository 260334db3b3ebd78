//! A store whose two files are in memory.

use crate::trouble::Trouble;
use desk_store::SqliteKeeper;
use sqlite::Connection;
use sqlite_disk::{Disk, Files, Fuse, Memory};
use sqlite_pager::Options;
use sqlite_store::FileStore;
use std::alloc::Global;

/// A file in memory that passes so many calls on.
pub type Fused = Fuse<Memory>;

/// A keeper over two such files.
pub type Stopping = SqliteKeeper<FileStore<Fused>>;

/// The bytes of a store's two files.
#[derive(Drop)]
pub struct Pair {
    pub log: Vec<u8>,
    pub db: Vec<u8>,
}

impl Pair {
    /// The same bytes.
    pub fn copy(&self, alloc: Global) -> Result<Pair, Trouble> {
        pair_of(alloc, self.log.as_slice(), self.db.as_slice())
    }
}

/// Whether both have the same bytes.
pub fn are_same(one: &Pair, other: &Pair) -> bool {
    one.log.as_slice() == other.log.as_slice() && one.db.as_slice() == other.db.as_slice()
}

/// The bytes of two files.
pub fn pair_of(alloc: Global, log: &[u8], db: &[u8]) -> Result<Pair, Trouble> {
    let log = Vec::from_slice(alloc, log)?;
    match Vec::from_slice(alloc, db) {
        Ok(db) => Ok(Pair { log, db }),
        Err(_) => {
            drop(log);
            Err(Trouble::NoMemory)
        }
    }
}

/// How many calls each file passes on.
#[derive(Clone, Copy)]
pub struct Fuses {
    pub log: u64,
    pub db: u64,
}

/// No call fails.
pub const WHOLE: Fuses = Fuses {
    log: u64::MAX,
    db: u64::MAX,
};

/// Two files that are empty.
pub fn empty(alloc: Global) -> Pair {
    Pair {
        log: Vec::new(alloc),
        db: Vec::new(alloc),
    }
}

/// A file of these bytes, which passes so many calls on.
fn file_of(alloc: Global, bytes: &[u8], calls: u64) -> Result<Fused, Trouble> {
    let mut memory = Memory::new(alloc);
    if memory.write_at(0, bytes).is_err() {
        return Err(Trouble::NoMemory);
    }
    if memory.sync().is_err() {
        return Err(Trouble::NoMemory);
    }
    Ok(Fuse::new(memory, calls))
}

/// The files of these bytes.
fn files_of(alloc: Global, pair: &Pair, fuses: Fuses) -> Result<Files<Fused>, Trouble> {
    let log = file_of(alloc, pair.log.as_slice(), fuses.log)?;
    match file_of(alloc, pair.db.as_slice(), fuses.db) {
        Ok(db) => Ok(Files { log, db }),
        Err(trouble) => {
            drop(log);
            Err(trouble)
        }
    }
}

/// How the database is opened. Few pages are kept in memory, since each opening fills the room for
/// all of them.
const OPTIONS: Options = Options {
    cache_pages: 32,
    spill_pages: 2_000,
    checkpoint_frames: 1_000,
    seed: 0,
};

/// A keeper over the files, or the files, where the database does not open.
fn keeper_of<D: Disk + Drop>(
    alloc: Global,
    files: Files<D>,
) -> Result<SqliteKeeper<FileStore<D>>, Files<D>> {
    if !files.may_be_used() {
        return Err(files);
    }
    match Connection::open_files(alloc, files, OPTIONS) {
        Ok(conn) => Ok(SqliteKeeper::new(alloc, conn)),
        Err((_, left)) => Err(left.into_files()),
    }
}

/// A keeper over files of these bytes, or the files, where the database does not open.
pub fn opened(
    alloc: Global,
    pair: &Pair,
    fuses: Fuses,
) -> Result<Result<Stopping, Files<Fused>>, Trouble> {
    let files = files_of(alloc, pair, fuses)?;
    Ok(keeper_of(alloc, files))
}

/// A keeper over files of these bytes, whose calls do not fail.
pub fn opened_whole(alloc: Global, pair: &Pair) -> Result<Stopping, Trouble> {
    match opened(alloc, pair, WHOLE)? {
        Ok(keeper) => Ok(keeper),
        Err(files) => {
            drop(files);
            Err(Trouble::NoStore)
        }
    }
}
