//! A desk's messages, without the rows that follow from them.

ghost use Rattle.std.specs.Prelude.{◌≡◌, ◌≢◌, Err, IfOk, IfSome, IfNone, OnOk};
ghost use Rattle.sqlite.specs.State.{HasCleanDisk};
ghost use Rattle.sqlite.specs.Held.{state};
ghost use Rattle.store_tables.specs.Kept.{HoldsText};
ghost use Rattle.store_tables.specs.Sets.{Lists};
ghost use Rattle.store_tables.specs.SqliteStates.{IsUp, Rests};
ghost use Rattle.store_tables.specs.declared.fault.Fault.TheVariants as fault;
ghost use Rattle.store_schema.specs.declared.part.DeskPart.TheVariants as part;
ghost use Rattle.store_schema.specs.Shapes.{FindsPart};
ghost use Rattle.store_opening.specs.Opened.{HasTexts, Reads};
ghost use Rattle.store_opening.specs.private.Reading.{AreBodies, HasForeign};

use crate::reading::message_in;
use crate::statements::rows_of;
use messages::{Message, MessageReader};
use sqlite::{Alter, Connection, Row};
use std::alloc::Global;
use store_schema::DeskPart;
use store_tables::Fault;
use sudo_words::NoMemory;

/// The messages whose texts the rows show, if they show nothing else. Each row is freed once its
/// message is read.
fn messages_in(alloc: Global, rows: Vec<Row>) -> Result<Option<Vec<Message>>, NoMemory>
    ensures all { IfOk result (λ found. IfSome found (λ ms. AreBodies rows.items ms.items)) }
    ensures none { IfOk result (λ found. IfNone found (HasForeign rows.items)) }
{
    let mut reader = MessageReader::new(alloc);
    let mut messages = Vec::with_capacity(alloc, rows.len())?;
    for row in rows {
        let Some(message) = message_in(alloc, &mut reader, &row)? else {
            return Ok(None);
        };
        messages.push(message)?;
    }
    Ok(Some(messages))
}

/// The messages, or a failure if the rows show something else.
fn messages_shown(alloc: Global, rows: Vec<Row>) -> Result<Vec<Message>, Fault>
    ensures all { IfOk result (λ ms. AreBodies rows.items ms.items) }
    ensures stray { result ≡ Err fault.Stray → HasForeign rows.items }
{
    match messages_in(alloc, rows)? {
        Some(messages) => Ok(messages),
        None => Err(Fault::Stray),
    }
}

/// The messages of the desk in the database, in its own order. The database stays as it is.
pub fn messages_of<S: Alter>(alloc: Global, conn: &mut Connection<S>) -> Result<Vec<Message>, Fault>
    requires rests { Rests (state S.Store conn.old) }
    requires found { IsUp (state S.Store conn.old)
        → FindsPart (state S.Store conn.old).now.schema part.Messages }
    ensures reads { Reads (state S.Store conn.old) (state S.Store conn.new) }
    ensures up { HasCleanDisk (state S.Store conn.new)
        → OnOk result (IsUp (state S.Store conn.new)) }
    ensures whole { IsUp (state S.Store conn.new)
        → HasTexts (state S.Store conn.old).now → result ≢ Err fault.Stray }
    ensures listed { IsUp (state S.Store conn.new)
        → IfOk result (λ ms. Lists (HoldsText (state S.Store conn.old).now) ms.items) }
{
    let rows = rows_of(conn, DeskPart::Messages)?;
    messages_shown(alloc, rows)
}
