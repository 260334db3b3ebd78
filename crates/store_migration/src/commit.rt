//! Making an older desk one of today, in one commit.

ghost use Rattle.std.specs.Prelude.{◌≡◌, ◌≢◌, ◌↔◌, false, Err, AllPairs};
ghost use Rattle.std.specs.Prelude.{Contains, IsTrue, OnOk, OnErr};
ghost use Rattle.sqlite.specs.State.{HasCleanDisk, Survives};
ghost use Rattle.sqlite.specs.Held.{state};
ghost use Rattle.messages.specs.Wire.{IsMessage};
ghost use Rattle.messages.specs.declared.message.Message.{Message as AnyMessage};
ghost use Rattle.store_tables.specs.Sets.{Lists};
ghost use Rattle.store_tables.specs.Kept.{HoldsText};
ghost use Rattle.store_tables.specs.SqliteStates.{IsUp, Rests};
ghost use Rattle.store_tables.specs.Stored.{content_of, with_roster};
ghost use Rattle.store_tables.specs.declared.fault.Fault.TheVariants as fault;
ghost use Rattle.store_schema.specs.Migratable.{IsMigratable};
ghost use Rattle.store_opening.specs.Opened.{IsKept, IsOldDesk};
ghost use Rattle.store_migration.specs.Migrated.{GainsVerdicts, KeepsOthers, MigratesAt};

use crate::moving::move_within;
use messages::Message;
use sqlite::{Alter, Connection};
use std::alloc::Global;
use store_schema::is_migratable;
use store_tables::Fault;

/// Whether an older desk's tables can become those of a desk of today.
fn can_migrate<S: Alter>(conn: &Connection<S>) -> bool
    ensures { IsTrue result ↔ IsMigratable (state S.Store conn.now).now.schema }
{
    is_migratable(conn.schema())
}

/// Makes an older desk one of today, in one commit. The desk gets another roster text, and keeps
/// its messages.
///
/// The call is refused, as `Fault::Stray`, if a foreign key refers to tables that lose rows or
/// waits for `verdicts`, or if a table counts by AUTOINCREMENT without the table of the counts.
pub fn migrate<S: Alter>(
    alloc: Global,
    conn: &mut Connection<S>,
    roster: &str,
    messages: &[Message],
) -> Result<(), Fault>
    requires autocommit { conn.old.in_transaction ≡ false }
    requires rests { Rests (state S.Store conn.old) }
    requires desk { IsUp (state S.Store conn.old) → IsOldDesk (state S.Store conn.old).now }
    requires listed { IsUp (state S.Store conn.old)
        → Lists (HoldsText (state S.Store conn.old).now) messages.now }
    requires once { AllPairs (λ m n. m ≢ n) messages.now }
    requires messages { (m : AnyMessage) → Contains messages.now m → IsMessage m }
    ensures rests { Rests (state S.Store conn.new) }
    ensures was_up { IsUp (state S.Store conn.new) → IsUp (state S.Store conn.old) }
    ensures was_clean { HasCleanDisk (state S.Store conn.new)
        → HasCleanDisk (state S.Store conn.old) }
    ensures up { HasCleanDisk (state S.Store conn.new)
        → OnOk result (IsUp (state S.Store conn.new)) }
    ensures kept { IsUp (state S.Store conn.new)
        → OnOk result (IsKept (state S.Store conn.new).now) }
    ensures migrated { IsUp (state S.Store conn.new)
        → OnOk result (content_of (state S.Store conn.new).now
        ≡ with_roster roster.now (content_of (state S.Store conn.old).now)) }
    ensures grown { IsUp (state S.Store conn.new)
        → OnOk result (GainsVerdicts (state S.Store conn.old).now (state S.Store conn.new).now) }
    ensures others { IsUp (state S.Store conn.new)
        → OnOk result (KeepsOthers (state S.Store conn.old).now (state S.Store conn.new).now) }
    ensures refused { ¬ IsMigratable (state S.Store conn.old).now.schema
        → result ≡ Err fault.Stray }
    ensures unchanged { IsUp (state S.Store conn.new)
        → OnErr result ((state S.Store conn.new).now ≡ (state S.Store conn.old).now) }
    // A connection that is not up commits nothing.
    ensures survives { Survives (state S.Store conn.old) (state S.Store conn.new) (λ trees.
        IsUp (state S.Store conn.old) × MigratesAt roster.now (state S.Store conn.old).now trees) }
{
    if !can_migrate(conn) {
        return Err(Fault::Stray);
    }
    let mut tx = conn.transaction();
    move_within(alloc, &mut tx, roster, messages)?;
    tx.commit()?;
    Ok(())
}
