//! Replacing the roster's text.

ghost use Rattle.std.specs.Prelude.{OnOk};
ghost use Rattle.sqlite.specs.Held.{state};
ghost use Rattle.store_tables.specs.Steps.{InStep, TakesStep};
ghost use Rattle.store_tables.specs.private.Turning.{Recorded};

use crate::fault::Fault;
use crate::statements::{clear_desk, put_roster};
use sqlite::{Alter, Transaction};

/// Records the roster's text in place of the one before. The rows of messages stay: they follow
/// from the messages alone, whatever the roster admits.
pub(crate) fn record<S: Alter>(tx: &mut Transaction<'_, S>, roster: &str) -> Result<(), Fault>
    ensures recorded { InStep (state S.Store tx.old.conn.now)
        (state S.Store tx.new.conn.now) (λ a b. OnOk result (Recorded roster.now a b)) }
    ensures step { TakesStep S.Store tx.old tx.new }
{
    clear_desk(tx)?;
    put_roster(tx, roster)?;
    Ok(())
}
