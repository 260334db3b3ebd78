//! Making a desk in a database, in one commit.

ghost use Rattle.std.specs.Prelude.{◌≡◌, false, OnOk, OnErr};
ghost use Rattle.sqlite.specs.State.{HasCleanDisk, Survives};
ghost use Rattle.sqlite.specs.Held.{state};
ghost use Rattle.store_tables.specs.SqliteStates.{IsUp, Rests};
ghost use Rattle.store_tables.specs.Steps.{InStep, TakesStep};
ghost use Rattle.store_schema.specs.Beside.{KeepsBeside};
ghost use Rattle.store_schema.specs.Ready.{IsReady};
ghost use Rattle.store_schema.specs.Founding.{AddsPart, Founds};
ghost use Rattle.store_schema.specs.private.Making.{Filled};
ghost use Rattle.store_schema.specs.Founding.{FoundsAt};
ghost use Rattle.store_schema.specs.private.Making.{GrownWhole, text_of};

use crate::part::DeskPart;
use sqlite::{Alter, Connection, Error, Transaction};
use store_tables::put_roster;

/// The statement that makes the table.
fn text_of(part: DeskPart) -> &'static str
    ensures { result.now ≡ text_of part }
{
    match part {
        DeskPart::Desk => {
            "CREATE TABLE desk (id INTEGER PRIMARY KEY, schema INTEGER NOT NULL, roster TEXT NOT NULL) STRICT"
        }
        DeskPart::Messages => "CREATE TABLE messages (body TEXT PRIMARY KEY NOT NULL) STRICT",
        DeskPart::Names => {
            "CREATE TABLE names (asker TEXT NOT NULL, no INTEGER NOT NULL, body TEXT NOT NULL, disputed INTEGER NOT NULL, PRIMARY KEY (asker, no)) STRICT"
        }
        DeskPart::Marks => {
            "CREATE TABLE marks (asker TEXT NOT NULL, no INTEGER NOT NULL, person TEXT NOT NULL, kind TEXT NOT NULL, at INTEGER NOT NULL, PRIMARY KEY (asker, no, person, kind)) STRICT"
        }
        DeskPart::Verdicts => {
            "CREATE TABLE verdicts (asker TEXT NOT NULL, no INTEGER NOT NULL, person TEXT NOT NULL, kind TEXT NOT NULL, at INTEGER NOT NULL, PRIMARY KEY (asker, no, person, kind, at)) STRICT"
        }
        DeskPart::Parked => {
            "CREATE TABLE parked (body TEXT PRIMARY KEY NOT NULL, asker TEXT NOT NULL, no INTEGER NOT NULL) STRICT"
        }
    }
}

/// Adds the table, which is empty.
pub fn add_table<S: Alter>(tx: &mut Transaction<'_, S>, part: DeskPart) -> Result<usize, Error>
    ensures added { InStep (state S.Store tx.old.conn.now)
        (state S.Store tx.new.conn.now) (λ a b. OnOk result (AddsPart part a b)) }
    ensures step { TakesStep S.Store tx.old tx.new }
{
    tx.execute(text_of(part), &[])
}

/// Adds a desk's five tables, which are empty.
fn add_tables<S: Alter>(tx: &mut Transaction<'_, S>) -> Result<(), Error>
    ensures grown { InStep (state S.Store tx.old.conn.now)
        (state S.Store tx.new.conn.now) (λ a b. OnOk result (GrownWhole a b)) }
    ensures step { TakesStep S.Store tx.old tx.new }
{
    add_table(tx, DeskPart::Desk)?;
    add_table(tx, DeskPart::Messages)?;
    add_table(tx, DeskPart::Names)?;
    add_table(tx, DeskPart::Verdicts)?;
    add_table(tx, DeskPart::Parked)?;
    Ok(())
}

fn fill<S: Alter>(tx: &mut Transaction<'_, S>, roster: &str) -> Result<(), Error>
    ensures filled { InStep (state S.Store tx.old.conn.now)
        (state S.Store tx.new.conn.now) (λ a b. OnOk result (Filled roster.now a b)) }
    ensures step { TakesStep S.Store tx.old tx.new }
{
    add_tables(tx)?;
    put_roster(tx, roster)?;
    Ok(())
}

/// Makes a desk with this roster text and no messages, beside any other tables, in one commit.
pub fn make<S: Alter>(conn: &mut Connection<S>, roster: &str) -> Result<(), Error>
    requires autocommit { conn.old.in_transaction ≡ false }
    requires rests { Rests (state S.Store conn.old) }
    requires ready { IsUp (state S.Store conn.old) → IsReady (state S.Store conn.old).now.schema }
    ensures rests { Rests (state S.Store conn.new) }
    ensures was_up { IsUp (state S.Store conn.new) → IsUp (state S.Store conn.old) }
    ensures was_clean { HasCleanDisk (state S.Store conn.new)
        → HasCleanDisk (state S.Store conn.old) }
    ensures up { HasCleanDisk (state S.Store conn.new)
        → OnOk result (IsUp (state S.Store conn.new)) }
    ensures unmade { IsUp (state S.Store conn.new)
        → OnErr result ((state S.Store conn.new).now ≡ (state S.Store conn.old).now) }
    ensures made { IsUp (state S.Store conn.new) → OnOk result
        (Founds roster.now (state S.Store conn.old).now (state S.Store conn.new).now) }
    ensures beside { IsUp (state S.Store conn.new)
        → OnOk result (KeepsBeside (state S.Store conn.old).now (state S.Store conn.new).now) }
    // A connection that is not up commits nothing.
    ensures survives { Survives (state S.Store conn.old) (state S.Store conn.new) (λ trees.
        IsUp (state S.Store conn.old) × FoundsAt roster.now (state S.Store conn.old).now trees) }
{
    let mut tx = conn.transaction();
    fill(&mut tx, roster)?;
    tx.commit()
}
