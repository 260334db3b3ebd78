//! The statements that empty one of a desk's tables, each in a function of its own.

ghost use Rattle.std.specs.Prelude.{◌≡◌, IfOk, OnOk};
ghost use Rattle.sqlite.specs.Held.{state};
ghost use Rattle.store_tables.specs.Steps.{InStep, TakesStep};
ghost use Rattle.store_migration.specs.private.Clearing.{Deleted, Left, delete_of};

use sqlite::{Alter, Error, Row, Transaction};
use store_opening::select_of;
use store_schema::DeskPart;

/// The statement that deletes all rows of the table.
fn delete_of(part: DeskPart) -> &'static str
    ensures { result.now ≡ delete_of part }
{
    match part {
        DeskPart::Desk => "DELETE FROM desk",
        DeskPart::Messages => "DELETE FROM messages",
        DeskPart::Names => "DELETE FROM names",
        DeskPart::Marks => "DELETE FROM marks",
        DeskPart::Verdicts => "DELETE FROM verdicts",
        DeskPart::Parked => "DELETE FROM parked",
    }
}

/// Deletes the rows of the table.
pub(crate) fn delete<S: Alter>(tx: &mut Transaction<'_, S>, part: DeskPart) -> Result<usize, Error>
    ensures deleted { InStep (state S.Store tx.old.conn.now)
        (state S.Store tx.new.conn.now) (λ a b. OnOk result (Deleted part a b)) }
    ensures step { TakesStep S.Store tx.old tx.new }
{
    tx.execute(delete_of(part), &[])
}

/// The rows of the table. The database stays as it is.
pub(crate) fn rows_left<S: Alter>(
    tx: &mut Transaction<'_, S>,
    part: DeskPart,
) -> Result<Vec<Row>, Error>
    ensures left { InStep (state S.Store tx.old.conn.now) (state S.Store tx.new.conn.now)
        (λ a b. IfOk result (λ rows. Left part rows.items a b)) }
    ensures step { TakesStep S.Store tx.old tx.new }
{
    tx.query_all(select_of(part), &[])
}
