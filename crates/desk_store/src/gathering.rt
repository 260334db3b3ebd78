//! What is known of the messages of a desk in a database.

ghost use Rattle.std.specs.Prelude.{◌≡◌, IfOk, OnOk};
ghost use Rattle.sqlite.specs.State.{HasCleanDisk};
ghost use Rattle.sqlite.specs.Held.{state};
ghost use Rattle.store_tables.specs.Kept.{HoldsText};
ghost use Rattle.store_tables.specs.SqliteStates.{IsUp, Rests};
ghost use Rattle.store_opening.specs.Opened.{IsKept, Reads};
ghost use Rattle.outcomes.specs.Gathered.{AreGathered};
ghost use Rattle.desk_store.specs.Keeping.{IsKnownOf};

use outcomes::Gathered;
use sqlite::{Alter, Connection};
use std::alloc::Global;
use store_opening::{Stored, shown_of};
use store_tables::Fault;
use sudo_words::NoMemory;

/// Frees the room of messages that are taken in, once it is half of all.
fn give_back(left: &mut Vec<Stored>)
    ensures { left.new.items ≡ left.old.items }
{
    if left.len() <= left.capacity() / 2 {
        left.shrink_to_fit();
    }
}

/// Gathers what the messages come to. Each message is freed once it is taken in, and the list's
/// room once half of the room is free: so the messages and what they come to are never whole in
/// memory at once.
pub(crate) fn known_of(alloc: Global, messages: Vec<Stored>) -> Result<Gathered, NoMemory>
    ensures { IfOk result (AreGathered messages.items) }
{
    let mut gathered = Gathered::new(alloc);
    let mut left = messages;
    // Turned round, so that the first message is popped first.
    left.reverse();
    while let Some(stored) = left.pop() {
        let taken = gathered.take(stored.message());
        drop(stored);
        taken?;
        give_back(&mut left);
    }
    Ok(gathered)
}

/// What is known of the messages of the desk that the database keeps, by the rows that follow from
/// these messages. The database stays as it is.
pub(crate) fn gather_in<S: Alter>(
    alloc: Global,
    conn: &mut Connection<S>,
) -> Result<Gathered, Fault>
    requires rests { Rests (state S.Store conn.old) }
    requires kept { IsUp (state S.Store conn.old) → IsKept (state S.Store conn.old).now }
    ensures reads { Reads (state S.Store conn.old) (state S.Store conn.new) }
    ensures up { HasCleanDisk (state S.Store conn.new)
        → OnOk result (IsUp (state S.Store conn.new)) }
    ensures known { IsUp (state S.Store conn.new)
        → IfOk result (IsKnownOf (HoldsText (state S.Store conn.old).now)) }
{
    let shown = shown_of(alloc, conn)?;
    let names = shown.names.as_slice();
    let verdicts = shown.verdicts.as_slice();
    Ok(Gathered::of_rows(alloc, names, verdicts)?)
}
