//! A message's arrival, and a new roster's text, each in one commit.

ghost use Rattle.std.specs.Prelude.{◌≡◌, true, false, IfErr, IfOk, OnOk, OnErr};
ghost use Rattle.sqlite.specs.State.{HasCleanDisk, IsLive, Survives};
ghost use Rattle.sqlite.specs.Held.{state};
ghost use Rattle.messages.specs.Wire.{wire};
ghost use Rattle.store_tables.specs.Kept.{IsDeskDatabase, Spares};
ghost use Rattle.store_tables.specs.SqliteStates.{IsUp, Rests};
ghost use Rattle.store_tables.specs.Stored.{IsWritten, content_of, has, with_roster, with_text};
ghost use Rattle.store_tables.specs.Committed.{ArrivesAt, ChangesAt};
ghost use Rattle.store_tables.specs.Arrivals.{IsTold};
ghost use Rattle.store_tables.specs.Causes.{IsExplained};

use crate::arrival::{Arrival, receive};
use crate::fault::Fault;
use crate::roster::record;
use messages::Message;
use sqlite::{Alter, Connection};
use std::alloc::Global;

/// The database obeys its schema, as long as the store is open. The call is made for this contract.
fn obeys<S: Alter>(conn: &Connection<S>)
    ensures { IsLive (state S.Store conn.now) }
{
    let _schema = conn.schema();
}

/// Takes a message into a desk, with all that the message changes, in one commit. A message that is
/// there already changes nothing. The answer tells whether it was there.
pub fn arrive<S: Alter>(
    alloc: Global,
    conn: &mut Connection<S>,
    message: &Message,
    body: &str,
) -> Result<Arrival, Fault>
    requires autocommit { conn.old.in_transaction ≡ false }
    requires rests { Rests (state S.Store conn.old) }
    requires desk { IsUp (state S.Store conn.old) → IsDeskDatabase (state S.Store conn.old).now }
    requires text { body.now ≡ wire message.now }
    requires written { IsWritten body.now }
    ensures rests { Rests (state S.Store conn.new) }
    ensures was_up { IsUp (state S.Store conn.new) → IsUp (state S.Store conn.old) }
    ensures was_clean { HasCleanDisk (state S.Store conn.new)
        → HasCleanDisk (state S.Store conn.old) }
    ensures up { HasCleanDisk (state S.Store conn.new)
        → OnOk result (IsUp (state S.Store conn.new)) }
    ensures desk { IsUp (state S.Store conn.new) → IsDeskDatabase (state S.Store conn.new).now }
    ensures arrived { IsUp (state S.Store conn.new)
        → OnOk result (content_of (state S.Store conn.new).now
        ≡ with_text body.now (content_of (state S.Store conn.old).now)) }
    ensures told { IsUp (state S.Store conn.new) → IfOk result
        (IsTold (has (content_of (state S.Store conn.old).now) body.now ≡ true)) }
    ensures repeated { IsUp (state S.Store conn.new)
        → has (content_of (state S.Store conn.old).now) body.now ≡ true
        → OnOk result ((state S.Store conn.new).now ≡ (state S.Store conn.old).now) }
    ensures others { IsUp (state S.Store conn.new)
        → OnOk result (Spares (state S.Store conn.old).now (state S.Store conn.new).now) }
    ensures unchanged { IsUp (state S.Store conn.new)
        → OnErr result ((state S.Store conn.new).now ≡ (state S.Store conn.old).now) }
    // Why a message that is there already is refused.
    ensures explained { IsUp (state S.Store conn.old) → HasCleanDisk (state S.Store conn.new)
        → has (content_of (state S.Store conn.old).now) body.now ≡ true
        → IfErr result (IsExplained (state S.Store conn.old) (state S.Store conn.new)) }
    // A connection that is not up commits nothing.
    ensures survives { Survives (state S.Store conn.old) (state S.Store conn.new) (λ trees.
        IsUp (state S.Store conn.old) × ArrivesAt body.now (state S.Store conn.old).now trees) }
{
    obeys(conn);
    let mut tx = conn.transaction();
    let arrival = receive(alloc, &mut tx, message, body)?;
    tx.commit()?;
    Ok(arrival)
}

/// Replaces the desk's roster text, in one commit. The messages and their rows stay.
pub fn replace<S: Alter>(conn: &mut Connection<S>, roster: &str) -> Result<(), Fault>
    requires autocommit { conn.old.in_transaction ≡ false }
    requires rests { Rests (state S.Store conn.old) }
    requires desk { IsUp (state S.Store conn.old) → IsDeskDatabase (state S.Store conn.old).now }
    ensures rests { Rests (state S.Store conn.new) }
    ensures was_up { IsUp (state S.Store conn.new) → IsUp (state S.Store conn.old) }
    ensures was_clean { HasCleanDisk (state S.Store conn.new)
        → HasCleanDisk (state S.Store conn.old) }
    ensures up { HasCleanDisk (state S.Store conn.new)
        → OnOk result (IsUp (state S.Store conn.new)) }
    ensures desk { IsUp (state S.Store conn.new) → IsDeskDatabase (state S.Store conn.new).now }
    ensures replaced { IsUp (state S.Store conn.new)
        → OnOk result (content_of (state S.Store conn.new).now
        ≡ with_roster roster.now (content_of (state S.Store conn.old).now)) }
    ensures others { IsUp (state S.Store conn.new)
        → OnOk result (Spares (state S.Store conn.old).now (state S.Store conn.new).now) }
    ensures unchanged { IsUp (state S.Store conn.new)
        → OnErr result ((state S.Store conn.new).now ≡ (state S.Store conn.old).now) }
    // A connection that is not up commits nothing.
    ensures survives { Survives (state S.Store conn.old) (state S.Store conn.new) (λ trees.
        IsUp (state S.Store conn.old) × ChangesAt roster.now (state S.Store conn.old).now trees) }
{
    let mut tx = conn.transaction();
    record(&mut tx, roster)?;
    tx.commit()?;
    Ok(())
}
