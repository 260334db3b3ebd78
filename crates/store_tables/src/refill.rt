//! The rows of a desk's tables, made from its messages.

ghost use Rattle.std.specs.Prelude.{◌≢◌, AllPairs, Contains, OnOk};
ghost use Rattle.sqlite.specs.Held.{state};
ghost use Rattle.messages.specs.Wire.{IsMessage};
ghost use Rattle.messages.specs.declared.message.Message.{Message as AnyMessage};
ghost use Rattle.store_tables.specs.Steps.{InStep, TakesStep};
ghost use Rattle.store_tables.specs.Steps.{Refilled};
ghost use Rattle.store_tables.specs.private.Turning.{Settled};

use crate::arrival::settle;
use crate::fault::Fault;
use messages::{Message, text};
use sqlite::{Alter, Transaction};
use std::alloc::Global;

/// Settles a message whose text `messages` has already.
fn refill_one<S: Alter>(
    alloc: Global,
    tx: &mut Transaction<'_, S>,
    message: &Message,
) -> Result<(), Fault>
    ensures settled { InStep (state S.Store tx.old.conn.now)
        (state S.Store tx.new.conn.now) (λ a b. OnOk result (Settled message.now a b)) }
    ensures step { TakesStep S.Store tx.old tx.new }
{
    let body = text(alloc, message)?;
    settle(alloc, tx, message, body.as_str())
}

/// Fills the three tables of rows, which are empty, from the messages. No message comes twice in
/// the list.
pub fn refill_rows<S: Alter>(
    alloc: Global,
    tx: &mut Transaction<'_, S>,
    messages: &[Message],
) -> Result<(), Fault>
    requires once { AllPairs (λ m n. m ≢ n) messages.now }
    requires messages { (m : AnyMessage) → Contains messages.now m → IsMessage m }
    ensures refilled { InStep (state S.Store tx.old.conn.now)
        (state S.Store tx.new.conn.now) (λ a b. OnOk result (Refilled messages.now a b)) }
    ensures step { TakesStep S.Store tx.old tx.new }
{
    for message in messages {
        refill_one(alloc, tx, message)?;
    }
    Ok(())
}
