//! Replacing the roster's text of a desk of either form, in one commit.

ghost use Rattle.std.specs.Prelude.{Contains, IfOk, IsTrue};
ghost use Rattle.sqlite.specs.Held.{state};
ghost use Rattle.store_tables.specs.Kept.{HoldsText};
ghost use Rattle.store_tables.specs.Sets.{Lists, SameSet};
ghost use Rattle.store_tables.specs.SqliteStates.{IsUp, Rests};
ghost use Rattle.store_schema.specs.Shapes.{IsShape};
ghost use Rattle.store_opening.specs.Opened.{IsKept, IsOldDesk};
ghost use Rattle.desk_store.specs.private.Replacing.{IsEither, IsOfToday, Replaces};

use crate::collected::Collected;
use sqlite::{Alter, Connection};
use std::alloc::Global;
use store_migration::migrate;
use store_opening::{Contents, InDatabase, Stored, look};
use store_schema::{Shape, shape_of};
use store_tables::{Fault, replace};
use sudo_words::NoMemory;

/// The messages, each once.
fn each_once(alloc: Global, all: &[Stored]) -> Result<Collected, NoMemory>
    ensures { IfOk result (λ c. SameSet (λ m. Contains all.now m) (λ m. Contains c m)) }
{
    let mut messages = Collected::new(alloc);
    for stored in all {
        let Ok(_) = messages.put(stored.message(), stored.body()) else {
            return Err(NoMemory);
        };
    }
    Ok(messages)
}

/// What the database's schema has of a desk's tables.
fn shape_in<S: Alter>(conn: &Connection<S>) -> Shape
    ensures { IsShape (state S.Store conn.now).now.schema result }
{
    shape_of(conn.schema())
}

/// Whether the schema has the tables of a desk of today.
fn is_of_today(shape: Shape) -> bool
    ensures { IsTrue result → IsOfToday shape }
{
    matches!(shape, Shape::Desk | Shape::Migrated)
}

/// Replaces the roster's text of a desk of today. Its rows stay as they are.
fn replace_today<S: Alter>(conn: &mut Connection<S>, roster: &str) -> Result<(), Fault>
    requires rests { Rests (state S.Store conn.old) }
    requires desk { IsUp (state S.Store conn.old) → IsKept (state S.Store conn.old).now }
    ensures { Replaces roster.now (state S.Store conn.old) (state S.Store conn.new) result }
{
    if !conn.is_autocommit() {
        return Err(Fault::Stray);
    }
    replace(conn, roster)
}

/// Replaces the roster's text of a desk of an older form, whose contents these are. The desk
/// becomes one of today.
fn replace_older<S: Alter>(
    alloc: Global,
    conn: &mut Connection<S>,
    roster: &str,
    contents: &Contents,
) -> Result<(), Fault>
    requires rests { Rests (state S.Store conn.old) }
    requires desk { IsUp (state S.Store conn.old) → IsOldDesk (state S.Store conn.old).now }
    requires listed { IsUp (state S.Store conn.old)
        → Lists (HoldsText (state S.Store conn.old).now) contents.now.messages.items }
    ensures { Replaces roster.now (state S.Store conn.old) (state S.Store conn.new) result }
{
    if !conn.is_autocommit() {
        return Err(Fault::Stray);
    }
    let messages = each_once(alloc, contents.messages.as_slice())?;
    migrate(alloc, conn, roster, messages.as_slice())
}

/// Replaces the roster's text of what the database keeps. A desk of an older form becomes one of
/// today.
pub(crate) fn replace_in<S: Alter>(
    alloc: Global,
    conn: &mut Connection<S>,
    roster: &str,
) -> Result<(), Fault>
    requires rests { Rests (state S.Store conn.old) }
    requires kept { IsUp (state S.Store conn.old) → IsEither (state S.Store conn.old).now }
    ensures { Replaces roster.now (state S.Store conn.old) (state S.Store conn.new) result }
{
    // The database is known to be a desk's, so its schema alone tells of which form the desk is.
    if is_of_today(shape_in(conn)) {
        return replace_today(conn, roster);
    }
    let found = look(alloc, conn)?;
    match found {
        InDatabase::Old(contents) => replace_older(alloc, conn, roster, &contents),
        InDatabase::Empty | InDatabase::Desk(_) | InDatabase::NotADesk => Err(Fault::Stray),
    }
}
