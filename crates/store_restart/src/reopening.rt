//! A desk over a file that a stop left.

ghost use Rattle.std.specs.Prelude.{◌≡◌, ◌⊎◌, IfOk, IfErr};
ghost use Rattle.sqlite_wal.specs.Files.{image_at};
ghost use Rattle.sqlite.specs.Files.{file_state};
ghost use Rattle.grants.specs.Bases.{FitsBase};
ghost use Rattle.store_tables.specs.Kept.{HoldsText};
ghost use Rattle.store_tables.specs.SqliteStates.{IsUp};
ghost use Rattle.desk.specs.Refusals.{IsWant};
ghost use Rattle.desk.specs.declared.refusal.Refusal.TheVariants as refusal;
ghost use Rattle.store_restart.specs.Reopened.{HoldsLeft, LeavesSomeDesk};
ghost use Rattle.store_restart.specs.Stopped.{LeavesDesk, MayLeaveFiles, ShowsFound, WasConnected};

use desk::{Desk, Refusal, SqliteKeeper};
use roster::Roster;
use sqlite::{Connection, Error, FileFrom, FileStore, Start};
use sudo_policy::Policy;

/// A keeper over a database in a file, of which `S` stands for what the file and its log hold.
pub type StoredIn<S> = SqliteKeeper<FileStore<FileFrom<S>>>;

/// A desk that was opened over such a keeper, or why it was not.
pub type Opened<S> = Result<Desk<StoredIn<S>>, (Refusal, StoredIn<S>)>;

/// A keeper over the database of the file at this path, for a desk that will be asked.
fn keeper_at<S: Start>(rt: &HostRuntime, path: &str, start: S) -> Result<StoredIn<S>, Error>
    ensures { IfOk result (λ k. IsUp (file_state k.conn)
        → ShowsFound (image_at S.Start) (file_state k.conn)) }
{
    match Connection::open_from(rt, path, false, start) {
        Ok(conn) => Ok(SqliteKeeper::that_gathers(rt.alloc(), conn)),
        Err((error, _)) => Err(error),
    }
}

/// Opens the file at this path, and the desk in it, after a stop. `S` and `T` stand for what the
/// files held before the run that stopped, and for what they hold now.
///
/// The clauses speak of files that hold now what a crash may leave of the store that stopped. The
/// desk then holds all that the run had acknowledged, or one message more, brought by a delivery
/// that the crash cut off. If a crash leaves nothing but a desk of this roster, the desk is refused
/// only for its base, or for want of memory or of the storage. `stop` and the clauses `crash`,
/// `lasting` and `durable` of the run's calls say what the run may have left.
///
/// The store that stopped is closed first. It is an argument for the proof, and for its lock.
pub fn open_file_after_stop<S: Start, T: Start>(
    rt: &HostRuntime,
    path: &str,
    stopped: FileStore<FileFrom<S>>,
    start: T,
    roster: Roster,
    base: Policy,
) -> Result<Opened<T>, Error>
    requires { WasConnected stopped }
    ensures held { MayLeaveFiles stopped (image_at T.Start) → IfOk result (λ opened. IfOk opened
        (λ d. IsUp (file_state d.keeper.conn) → HoldsLeft (LeavesDesk stopped) roster.text
        (HoldsText (file_state d.keeper.conn).now))) }
    ensures refused { MayLeaveFiles stopped (image_at T.Start)
        → LeavesSomeDesk (LeavesDesk stopped) roster.text → IfOk result (λ opened. IfErr opened
        (λ r. IsUp (file_state r.1.conn)
        → IsWant r.0 ⊎ ((r.0 ≡ refusal.BaseTooLarge) × (¬ FitsBase base)))) }
{
    drop(stopped.close());
    let keeper = keeper_at(rt, path, start)?;
    Ok(Desk::open(rt.alloc(), roster, base, keeper))
}
