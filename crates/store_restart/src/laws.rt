//! A law about the files that a crash leaves, the contract of a function that does nothing.

ghost use Rattle.sqlite_wal.specs.Recovery.{Image};
ghost use Rattle.sqlite.specs.Files.{file_state};
ghost use Rattle.desk_store.specs.Crash.{IsFound};
ghost use Rattle.desk_store.specs.Left.{LeavesOnly};
ghost use Rattle.store_restart.specs.Stopped.{LeavesDesk, MayLeaveFiles, ShowsFound, WasConnected};

use sqlite::{Connection, FileStore};
use sqlite_disk::Disk;

/// If two files hold what a crash may leave of a store, then a connection that was opened over the
/// files finds only what the crash may leave of a desk.
pub fn left_is_found<D: Disk, E: Disk>(_stopped: &FileStore<D>, _found: &Connection<FileStore<E>>)
    ensures { (image : Image) → WasConnected _stopped.now → MayLeaveFiles _stopped.now image
        → ShowsFound image (file_state _found.now)
        → LeavesOnly (IsFound (file_state _found.now).now) (LeavesDesk _stopped.now) }
{}
