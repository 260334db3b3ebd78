//! Turning an older desk's tables into those of a desk of today, within a transaction.

ghost use Rattle.std.specs.Prelude.{◌≢◌, AllPairs, Contains, OnOk};
ghost use Rattle.sqlite.specs.Held.{state};
ghost use Rattle.messages.specs.Wire.{IsMessage};
ghost use Rattle.messages.specs.declared.message.Message.{Message as AnyMessage};
ghost use Rattle.store_tables.specs.Steps.{InStep, TakesStep};
ghost use Rattle.store_migration.specs.private.Moving.{Moved, Prepared};

use crate::clearing::clear_all;
use messages::Message;
use sqlite::{Alter, Transaction};
use std::alloc::Global;
use store_schema::{DeskPart, add_table};
use store_tables::{Fault, put_roster, refill_rows};

/// Turns the tables into those of a desk of today, with no rows but the messages.
fn prepare<S: Alter>(tx: &mut Transaction<'_, S>) -> Result<(), Fault>
    ensures prepared { InStep (state S.Store tx.old.conn.now)
        (state S.Store tx.new.conn.now) (λ a b. OnOk result (Prepared a b)) }
    ensures step { TakesStep S.Store tx.old tx.new }
{
    clear_all(tx)?;
    add_table(tx, DeskPart::Verdicts)?;
    Ok(())
}

/// Makes the desk one of today, with this roster text and the rows of its messages. No message
/// comes twice in the list.
pub(crate) fn move_within<S: Alter>(
    alloc: Global,
    tx: &mut Transaction<'_, S>,
    roster: &str,
    messages: &[Message],
) -> Result<(), Fault>
    requires once { AllPairs (λ m n. m ≢ n) messages.now }
    requires messages { (m : AnyMessage) → Contains messages.now m → IsMessage m }
    ensures moved { InStep (state S.Store tx.old.conn.now) (state S.Store tx.new.conn.now)
        (λ a b. OnOk result (Moved roster.now messages.now a b)) }
    ensures step { TakesStep S.Store tx.old tx.new }
{
    prepare(tx)?;
    put_roster(tx, roster)?;
    refill_rows(alloc, tx, messages)
}
