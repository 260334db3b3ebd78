//! Deliveries, a crash of both files, and the desk opened again, as one run.

ghost use Rattle.std.specs.Prelude.{◌≡◌, ◌⊎◌, Contains, IfOk, IfErr, IsTrue, List, map};
ghost use Rattle.messages.specs.declared.message.Message.{Message as AnyMessage};
ghost use Rattle.grants.specs.Bases.{FitsBase};
ghost use Rattle.sqlite_wal.specs.Reads.{AreClean};
ghost use Rattle.sqlite_trees.specs.View.{IsClean};
ghost use Rattle.sqlite_store.specs.FileStore.{view};
ghost use Rattle.sqlite.specs.Files.{file_state, image_of};
ghost use Rattle.store_tables.specs.Kept.{HoldsText};
ghost use Rattle.store_tables.specs.Sets.{Lists};
ghost use Rattle.store_tables.specs.SqliteStates.{IsUp};
ghost use Rattle.desk.specs.Delivery.{delivery_of};
ghost use Rattle.desk.specs.Refusals.{IsWant};
ghost use Rattle.desk.specs.declared.refusal.Refusal.TheVariants as refusal;
ghost use Rattle.store_restart.specs.Reopened.{HoldsAcked, HoldsLeft, LeavesSomeDesk};
ghost use Rattle.store_restart.specs.Stopped.{LeavesDesk, ShowsFound, WasConnected};

use crate::stopped::stop;
use desk::{Ack, Desk, Refusal, SqliteKeeper};
use roster::Roster;
use sqlite::{Connection, Error, FileStore, Files, Options};
use sqlite_disk::{Crash, Disk};
use std::alloc::Global;
use sudo_policy::Policy;

/// A desk that was opened over two files, or why it was not.
pub type OpenedOver<D> = Result<
    Desk<SqliteKeeper<FileStore<D>>>,
    (Refusal, SqliteKeeper<FileStore<D>>),
>;

/// What each delivery was answered, and the desk that was opened afterwards.
pub type RanOver<D> = (Vec<Result<Ack, Refusal>>, Result<OpenedOver<D>, Error>);

/// A keeper over the database in these files, for a desk that will be asked.
fn keeper_over<D: Disk + Drop>(
    alloc: Global,
    files: Files<D>,
    options: Options,
) -> Result<SqliteKeeper<FileStore<D>>, Error>
    requires log { IsTrue (D.Disk.is_usable files.log) }
    requires db { IsTrue (D.Disk.is_usable files.db) }
    ensures { IfOk result (λ k. IsUp (file_state k.conn) → AreClean D.Disk files.log files.db
        × ShowsFound (image_of D.Disk files) (file_state k.conn)) }
{
    match Connection::open_files(alloc, files, options) {
        Ok(conn) => Ok(SqliteKeeper::that_gathers(alloc, conn)),
        Err((error, _)) => Err(error),
    }
}

/// Crashes both files of a store that stopped, opens the files again, and opens the desk in them.
///
/// Whatever the crash leaves, the desk holds all that the run had acknowledged, or one message
/// more. If a crash leaves nothing but a desk of this roster, the desk is refused only for its
/// base, or for want of memory or of the storage.
pub fn open_after_crash<D: Crash + Drop>(
    alloc: Global,
    stopped: FileStore<D>,
    options: Options,
    roster: Roster,
    base: Policy,
) -> Result<OpenedOver<D>, Error>
    requires { WasConnected stopped }
    ensures held { IfOk result (λ opened. IfOk opened
        (λ d. IsUp (file_state d.keeper.conn) → IsClean (view stopped)
        × HoldsLeft (LeavesDesk stopped) roster.text
        (HoldsText (file_state d.keeper.conn).now))) }
    ensures refused { LeavesSomeDesk (LeavesDesk stopped) roster.text
        → IfOk result (λ opened. IfErr opened (λ r. IsUp (file_state r.1.conn)
        → IsWant r.0 ⊎ ((r.0 ≡ refusal.BaseTooLarge) × (¬ FitsBase base)))) }
{
    let Files { mut log, mut db } = stopped.close();
    log.crash();
    db.crash();
    let keeper = keeper_over(alloc, Files { log, db }, options)?;
    Ok(Desk::open(alloc, roster, base, keeper))
}

/// Delivers to a desk over two files, crashes both files, and opens the desk in them again.
///
/// Whatever the crash leaves, the desk that is opened holds what the first desk held and all that
/// was acknowledged, or one message more. A disk that fails from some call on has crashed at that
/// call: so this is said of a crash at any moment.
pub fn deliver_and_open_after_crash<D: Crash + Drop>(
    alloc: Global,
    desk: Desk<SqliteKeeper<FileStore<D>>>,
    list: &[(String, Vec<u8>)],
    options: Options,
    roster: Roster,
    base: Policy,
) -> Result<RanOver<D>, Refusal>
    ensures { IfOk result (λ ran. IsUp (file_state desk.keeper.conn)
        → desk.roster.text ≡ roster.text → (held : List AnyMessage)
        → Lists (HoldsText (file_state desk.keeper.conn).now) held
        → IfOk ran.1 (λ opened. IfOk opened (λ d. IsUp (file_state d.keeper.conn)
        → HoldsAcked desk.roster.says (λ m. Contains held m) (map delivery_of list.now) ran.0.items
        (HoldsText (file_state d.keeper.conn).now)))) }
{
    let mut desk = desk;
    let answers = desk.deliver_all(list)?;
    let stopped = stop(desk.into_keeper());
    Ok((
        answers,
        open_after_crash(alloc, stopped, options, roster, base),
    ))
}
