//! The store of a keeper that stopped.

ghost use Rattle.sqlite_trees.specs.View.{IsClean};
ghost use Rattle.sqlite_store.specs.FileStore.{view};
ghost use Rattle.sqlite.specs.Files.{file_state};
ghost use Rattle.sqlite.specs.State.{HasCleanDisk};
ghost use Rattle.desk_store.specs.Crash.{MayLeave};
ghost use Rattle.desk_store.specs.Left.{LeavesOnly};
ghost use Rattle.store_restart.specs.Stopped.{LeavesDesk, WasConnected};

use desk_store::SqliteKeeper;
use sqlite::FileStore;
use sqlite_disk::Disk;

/// Gives up a keeper and its connection, for the store below: what was not committed is undone.
///
/// Whatever a crash may leave of the store, it might have left of the keeper. To a store whose disk
/// fails from some call on, as at a crash, no call does anything more. So this is the store as the
/// crash meets it, also where the crash came within a call of the keeper.
pub fn stop<D: Disk + Drop>(keeper: SqliteKeeper<FileStore<D>>) -> FileStore<D>
    ensures connected { WasConnected result }
    ensures clean { IsClean (view result) → HasCleanDisk (file_state keeper.conn) }
    ensures left { LeavesOnly (LeavesDesk result) (MayLeave (file_state keeper.conn)) }
{
    keeper.into_connection().into_store()
}
