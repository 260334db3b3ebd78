//! Where a job's desk keeps its messages.

use crate::trouble::Trouble;
use desk_commands::{Job, JobRefusal, Store, Sync};
use desk_store::SqliteKeeper;
use sqlite::{Alter, Connection, Error, ErrorCode};
use sqlite_disk::Start;
use sqlite_std_file::FileFrom;
use sqlite_store::FileStore;
use std::fs::OpenOptions;
use store_schema::{Shape, shape_of};

/// A job's database.
#[derive(Drop)]
pub(crate) struct Opened<S: Alter + Drop> {
    pub(crate) stored: SqliteKeeper<S>,
    /// Whether the database has no part of a desk yet.
    pub(crate) is_new: bool,
}

/// The path of the database that the job's desk is kept in, if it is kept in one, and how often a
/// commit syncs it.
pub(crate) fn place_of(job: &Job) -> Option<(&str, Sync)> {
    match job {
        Job::Check { .. } | Job::Decide { .. } | Job::Beyond { .. } => None,
        Job::Deliver { places, .. }
        | Job::Print { places, .. }
        | Job::Review { places, .. }
        | Job::Rebuild { places }
        | Job::Serve { places, .. } => match &places.store {
            Store::File(path) => Some((path.as_str(), places.sync)),
            Store::Memory => None,
        },
    }
}

/// Whether the job asks the desk what its messages come to, once it is open.
fn asks(job: &Job) -> bool {
    matches!(
        job,
        Job::Print { .. } | Job::Review { .. } | Job::Serve { .. }
    )
}

/// Why a file cannot be opened as a database. Where the system does not let the program read and
/// write the file, the system's own error is told as well.
fn refused(rt: &HostRuntime, path: &str, error: Error) -> Trouble {
    let alloc = rt.alloc();
    match OpenOptions::new().read(true).write(true).open(rt, path) {
        Ok(_) => Trouble::at(alloc, JobRefusal::FileFailed, path, &error),
        Err(system) => match format!(in alloc; "{error}: {system}") {
            Ok(why) => Trouble::at(alloc, JobRefusal::FileFailed, path, &why),
            Err(_) => Trouble::from(JobRefusal::NoMemory),
        },
    }
}

/// Whether a database has no part of a desk.
fn is_vacant<S: Alter>(conn: &Connection<S>) -> bool {
    matches!(shape_of(conn.schema()), Shape::Free)
}

/// A keeper over the database of this path, for a desk that will be asked or for one that only
/// takes messages. The start says how a crash is read: one that supposes less syncs twice a commit.
/// Where the database's files open and the disk then refuses a read or a write, as a full disk
/// does, the refusal is that the storage failed.
pub(crate) fn open_store<S: Start>(
    rt: &HostRuntime,
    job: &Job,
    path: &str,
    start: S,
) -> Result<Opened<FileStore<FileFrom<S>>>, Trouble> {
    match Connection::open_from(rt, path, false, start) {
        Ok(conn) => {
            let is_new = is_vacant(&conn);
            let stored = if asks(job) {
                SqliteKeeper::that_gathers(rt.alloc(), conn)
            } else {
                SqliteKeeper::new(rt.alloc(), conn)
            };
            Ok(Opened { stored, is_new })
        }
        Err((Error::SqliteFailure(ErrorCode::OutOfMemory), _)) => {
            Err(Trouble::from(JobRefusal::NoMemory))
        }
        Err((Error::SqliteFailure(ErrorCode::SystemIoFailure | ErrorCode::DiskFull), Some(_))) => {
            Err(Trouble::from(JobRefusal::Desk(desk::Refusal::Storage)))
        }
        Err((error, _)) => Err(refused(rt, path, error)),
    }
}

/// Says that a store was made.
pub(crate) fn tell_new(rt: &HostRuntime, path: &str) {
    let _ = eprintln!(rt; "new store: {path}");
}

/// Lets go of a job's database at this path. Where the job made a desk in a new database, that is
/// said here, unless the job served the desk: then it was said before.
pub(crate) fn close<S: Start>(
    rt: &HostRuntime,
    job: &Job,
    path: &str,
    opened: Opened<FileStore<FileFrom<S>>>,
    is_done: bool,
) {
    let conn = opened.stored.into_connection();
    let is_served = matches!(job, Job::Serve { .. });
    if opened.is_new && !is_served && !is_vacant(&conn) {
        tell_new(rt, path);
    }
    // What is in the log goes into the file, so that the file alone is the store. If that fails,
    // the log keeps it.
    if is_done {
        let _ = conn.close();
    }
}
