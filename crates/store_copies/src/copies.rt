//! A store, copied into memory: the store is only read, by anybody who may read its files, and also
//! while a desk has the store open.

use crate::fault::CopyFault;
use crate::sheet::Sheet;
use desk_process::read_file;
use desk_store::{Found, Keeper, KeeperError, SqliteKeeper};
use sqlite::{Connection, Error, ErrorCode};
use sqlite_disk::Files;
use sqlite_pager::Options;
use sqlite_store::FileStore;
use std::alloc::Global;
use std::{fs, io};

/// How often the files are read again in the hope that nobody writes meanwhile.
const TRIES: u32 = 20;

/// The bytes of a log's header.
const HEADER_LEN: u64 = 32;

/// A keeper over a store's copy in memory.
pub type Copied = SqliteKeeper<FileStore<Sheet>>;

/// The bytes of a store's two files.
#[derive(Drop)]
struct Pair {
    db: Vec<u8>,
    log: Vec<u8>,
}

/// The bytes of a file. A device and a pipe are not read: they may have no end.
fn read(rt: &HostRuntime, path: &str) -> io::Result<Vec<u8>> {
    if !fs::metadata(rt, path)?.is_file() {
        return Err(io::Error::other("not a regular file"));
    }
    fs::read(rt, path)
}

/// The bytes of a file, or none if there is no such file.
fn bytes_of(rt: &HostRuntime, path: &str) -> Result<Option<Vec<u8>>, CopyFault> {
    match read(rt, path) {
        Ok(bytes) => Ok(Some(bytes)),
        Err(error) if error.kind() == io::ErrorKind::NotFound => Ok(None),
        Err(error) => Err(CopyFault::of_system(rt.alloc(), path, error)),
    }
}

/// The bytes of the file and then of the log beside it, which may be missing.
fn read_pair(rt: &HostRuntime, path: &str, log_path: &str) -> Result<Pair, CopyFault> {
    let Some(db) = bytes_of(rt, path)? else {
        return Err(CopyFault::NoStore(String::from_str(rt.alloc(), path)?));
    };
    let log = match bytes_of(rt, log_path)? {
        Some(log) => log,
        None => Vec::new(rt.alloc()),
    };
    Ok(Pair { db, log })
}

/// The header of a log, or as many bytes as the log has: each use of the log begins with another
/// header (`SQLite`'s file format, section 4.1, 'WAL File Format').
fn log_header(rt: &HostRuntime, log_path: &str) -> Result<Vec<u8>, CopyFault> {
    match read_file(rt, log_path, HEADER_LEN - 1) {
        Ok(bytes) => Ok(bytes),
        Err(error) if error.kind() == io::ErrorKind::NotFound => Ok(Vec::new(rt.alloc())),
        Err(error) => Err(CopyFault::of_system(rt.alloc(), log_path, error)),
    }
}

/// Whether a log that was read begins with this header.
fn begins_with(log: &[u8], header: &[u8]) -> bool {
    match log.get(..header.len()) {
        Some(front) => front == header,
        None => false,
    }
}

/// Whether the bytes that were read of both files are what the files held at one moment, where
/// `header` was the log's header before the reading.
fn is_settled(
    rt: &HostRuntime,
    path: &str,
    log_path: &str,
    header: &[u8],
    read: &Pair,
) -> Result<bool, CopyFault> {
    if !begins_with(read.log.as_slice(), header) {
        return Ok(false);
    }
    if header.len() as u64 == HEADER_LEN {
        let after = log_header(rt, log_path)?;
        return Ok(after.as_slice() == header);
    }
    let again = read_pair(rt, path, log_path)?;
    Ok(again.db.as_slice() == read.db.as_slice() && again.log.as_slice() == read.log.as_slice())
}

/// What both files held at one moment. Both are read until neither was changed meanwhile, as far as
/// it matters.
///
/// While a log is in use, a writer appends to the log, and what goes from the log into the file
/// stays in the log as well: the log is begun anew, with another header, only once the file has all
/// that the log has. So where the header is the same before the file is read and after the log is
/// read, the log that was read after the file has what the file lacks. The log may have only a part
/// of a commit that was being written, which has no meaning for a program that opens the files: a
/// process that was killed at that moment would have left the files like that. Where no log is in
/// use, both files are read until two readings in a row are the same.
fn settled(rt: &HostRuntime, path: &str) -> Result<Pair, CopyFault> {
    let alloc = rt.alloc();
    let log_path = format!(in alloc; "{path}-wal")?;
    for _try in 0..TRIES {
        let header = log_header(rt, log_path.as_str())?;
        let read = read_pair(rt, path, log_path.as_str())?;
        if is_settled(rt, path, log_path.as_str(), header.as_slice(), &read)? {
            return Ok(read);
        }
    }
    Err(CopyFault::Busy(String::from_str(rt.alloc(), path)?))
}

/// A keeper over these files.
pub(crate) fn keeper_over(
    alloc: Global,
    path: &str,
    files: Files<Sheet>,
) -> Result<Copied, CopyFault> {
    match Connection::open_files(alloc, files, Options::new(0)) {
        Ok(conn) => Ok(SqliteKeeper::new(alloc, conn)),
        Err((Error::SqliteFailure(ErrorCode::OutOfMemory), _)) => Err(CopyFault::NoMemory),
        Err((error, _)) => Err(CopyFault::at(alloc, path, &error)),
    }
}

/// A keeper over the two files.
fn keeper_of(alloc: Global, path: &str, pair: Pair) -> Result<Copied, CopyFault> {
    let Pair { db, log } = pair;
    let files = Files {
        log: Sheet::of(log),
        db: Sheet::of(db),
    };
    keeper_over(alloc, path, files)
}

/// The keeper over a copy of what is at the path, unless no part of a desk is kept there: that is
/// `NoStore`, with the path. Something that is not a desk is left to the opening.
pub fn there(rt: &HostRuntime, path: &str, mut keeper: Copied) -> Result<Copied, CopyFault> {
    match keeper.look() {
        Ok(Found::Empty) => Err(CopyFault::NoStore(String::from_str(rt.alloc(), path)?)),
        Ok(_) => Ok(keeper),
        Err(KeeperError::NoMemory) => Err(CopyFault::NoMemory),
        Err(KeeperError::Storage) => Err(CopyFault::Storage),
    }
}

/// A keeper over a copy of the database at the path. If there is no file, the fault names the path;
/// nothing is created there.
pub fn copy_of(rt: &HostRuntime, path: &str) -> Result<Copied, CopyFault> {
    let pair = settled(rt, path)?;
    keeper_of(rt.alloc(), path, pair)
}
