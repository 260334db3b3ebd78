//! Emptying the tables of an older desk.

ghost use Rattle.std.specs.Prelude.{OnOk};
ghost use Rattle.sqlite.specs.Held.{state};
ghost use Rattle.store_tables.specs.Steps.{InStep, TakesStep};
ghost use Rattle.store_migration.specs.private.Clearing.{Cleared};
ghost use Rattle.store_migration.specs.private.Moving.{Emptied};

use crate::statements::{delete, rows_left};
use sqlite::{Alter, Transaction};
use store_schema::DeskPart;
use store_tables::Fault;

/// Empties the table. A DELETE leaves a row whose rowid is not a whole number: if such a row is
/// left, the answer is `Fault::Stray`.
fn clear<S: Alter>(tx: &mut Transaction<'_, S>, part: DeskPart) -> Result<(), Fault>
    ensures cleared { InStep (state S.Store tx.old.conn.now)
        (state S.Store tx.new.conn.now) (λ a b. OnOk result (Cleared part a b)) }
    ensures step { TakesStep S.Store tx.old tx.new }
{
    delete(tx, part)?;
    let rows = rows_left(tx, part)?;
    if rows.is_empty() {
        Ok(())
    } else {
        Err(Fault::Stray)
    }
}

/// Empties the tables of an older desk, except its messages.
pub(crate) fn clear_all<S: Alter>(tx: &mut Transaction<'_, S>) -> Result<(), Fault>
    ensures emptied { InStep (state S.Store tx.old.conn.now)
        (state S.Store tx.new.conn.now) (λ a b. OnOk result (Emptied a b)) }
    ensures step { TakesStep S.Store tx.old tx.new }
{
    clear(tx, DeskPart::Names)?;
    clear(tx, DeskPart::Parked)?;
    clear(tx, DeskPart::Marks)?;
    clear(tx, DeskPart::Desk)
}
