//! What a database keeps, as it is opened.

ghost use Rattle.std.specs.Prelude.{◌≡◌, ◌≢◌, ◌↔◌, ◌&&◌, List, true};
ghost use Rattle.std.specs.Prelude.{false, Err, IsTrue, IfOk, OnOk};
ghost use Rattle.sqlite.specs.Order.{Row as AnyRow};
ghost use Rattle.sqlite.specs.State.{HasCleanDisk, IsLive};
ghost use Rattle.sqlite.specs.Held.{state};
ghost use Rattle.store_tables.specs.SqliteStates.{IsUp, Rests};
ghost use Rattle.store_tables.specs.declared.fault.Fault.TheVariants as fault;
ghost use Rattle.store_schema.specs.declared.part.DeskPart.TheVariants as part;
ghost use Rattle.store_schema.specs.Shapes.{FindsPart, HasCommon, IsOld, IsShape, IsUnmarked};
ghost use Rattle.store_schema.specs.References.{AreUnreferred};
ghost use Rattle.store_opening.specs.Opened.{FoundIn, IsDamaged, IsSomeDesk, Reads};
ghost use Rattle.store_opening.specs.private.Judged.{ShowsContents};
ghost use Rattle.store_opening.specs.private.Selecting.{ShowsTexts};

use crate::in_database::{Contents, InDatabase};
use crate::kept::keeps_rows;
use crate::reading::{all_stored, roster_of};
use crate::statements::rows_of;
use crate::tables::{Texts, texts_of};
use sqlite::{Alter, Connection, Error};
use std::alloc::Global;
use store_schema::{DeskPart, Shape, are_unreferred, shape_of};
use store_tables::Fault;
use sudo_words::NoMemory;

/// The roster's text and the messages, if the rows show these and nothing else, in this schema.
fn contents_of(alloc: Global, texts: Texts, version: u32) -> Result<Option<Contents>, NoMemory>
    ensures { IfOk result (ShowsContents version texts.desk.items texts.messages.items) }
{
    let Texts { desk, messages } = texts;
    let Some(roster) = roster_of(alloc, desk.as_slice(), version)? else {
        return Ok(None);
    };
    let Some(messages) = all_stored(alloc, messages)? else {
        return Ok(None);
    };
    Ok(Some(Contents { roster, messages }))
}

/// The roster's text and the messages, if `desk` and `messages` have these and nothing else, in
/// this schema. The database stays as it is.
fn contents_in<S: Alter>(
    alloc: Global,
    conn: &mut Connection<S>,
    version: u32,
) -> Result<Option<Contents>, Fault>
    requires rests { Rests (state S.Store conn.old) }
    requires common { IsUp (state S.Store conn.old)
        → HasCommon (state S.Store conn.old).now.schema }
    ensures reads { Reads (state S.Store conn.old) (state S.Store conn.new) }
    ensures up { HasCleanDisk (state S.Store conn.new)
        → OnOk result (IsUp (state S.Store conn.new)) }
    ensures found { IsUp (state S.Store conn.new)
        → IfOk result (λ found. (desk messages : List AnyRow) × ShowsTexts
        (state S.Store conn.old).now desk messages × ShowsContents version desk messages found) }
    ensures not_stray { result ≢ Err fault.Stray }
{
    let texts = texts_of(conn)?;
    Ok(contents_of(alloc, texts, version)?)
}

/// What the database's schema has of a desk's tables.
fn shape_in<S: Alter>(conn: &Connection<S>) -> Shape
    ensures { IsShape (state S.Store conn.now).now.schema result }
{
    shape_of(conn.schema())
}

/// Whether no foreign key refers to a desk's tables that lose rows.
fn is_alone<S: Alter>(conn: &Connection<S>) -> bool
    ensures alone { IsTrue result ↔ AreUnreferred (state S.Store conn.now).now.schema }
    ensures live { IsLive (state S.Store conn.now) }
{
    are_unreferred(conn.schema())
}

fn both(a: bool, b: bool) -> bool
    ensures { result ≡ (a && b) }
{
    a && b
}

/// Looks at a database that has a desk's tables.
fn look_within<S: Alter>(alloc: Global, conn: &mut Connection<S>) -> Result<InDatabase, Fault>
    requires rests { Rests (state S.Store conn.old) }
    requires common { IsUp (state S.Store conn.old)
        → HasCommon (state S.Store conn.old).now.schema }
    requires verdicts { IsUp (state S.Store conn.old)
        → FindsPart (state S.Store conn.old).now.schema part.Verdicts }
    requires unmarked { IsUp (state S.Store conn.old) → IsUnmarked (state S.Store conn.old).now }
    ensures reads { Reads (state S.Store conn.old) (state S.Store conn.new) }
    ensures up { HasCleanDisk (state S.Store conn.new)
        → OnOk result (IsUp (state S.Store conn.new)) }
    ensures found { IsUp (state S.Store conn.new)
        → IfOk result (FoundIn (state S.Store conn.old).now) }
    ensures damaged { IsUp (state S.Store conn.new)
        → result ≡ Err fault.Stray → IsDamaged (state S.Store conn.old).now }
{
    let alone = is_alone(conn);
    let Some(contents) = contents_in(alloc, conn, 2)? else {
        return Ok(InDatabase::NotADesk);
    };
    let kept = keeps_rows(alloc, conn, contents.messages.as_slice())?;
    if !both(alone, kept) {
        drop(contents);
        return Err(Fault::Stray);
    }
    Ok(InDatabase::Desk(contents))
}

/// Whether the older desk's `marks` has a row.
fn has_marks<S: Alter>(conn: &mut Connection<S>) -> Result<bool, Error>
    requires rests { Rests (state S.Store conn.old) }
    requires found { IsUp (state S.Store conn.old)
        → FindsPart (state S.Store conn.old).now.schema part.Marks }
    ensures reads { Reads (state S.Store conn.old) (state S.Store conn.new) }
    ensures up { HasCleanDisk (state S.Store conn.new)
        → OnOk result (IsUp (state S.Store conn.new)) }
    ensures none { IsUp (state S.Store conn.new)
        → IfOk result (λ some. some ≡ false → IsUnmarked (state S.Store conn.old).now) }
    ensures some { IsUp (state S.Store conn.new)
        → IfOk result (λ some. some ≡ true → ¬ IsUnmarked (state S.Store conn.old).now) }
{
    let marks = rows_of(conn, DeskPart::Marks)?;
    Ok(!marks.is_empty())
}

/// Looks at a database that has a desk's tables, and `marks` of the older desk that it was.
fn look_migrated<S: Alter>(alloc: Global, conn: &mut Connection<S>) -> Result<InDatabase, Fault>
    requires rests { Rests (state S.Store conn.old) }
    requires common { IsUp (state S.Store conn.old)
        → HasCommon (state S.Store conn.old).now.schema }
    requires verdicts { IsUp (state S.Store conn.old)
        → FindsPart (state S.Store conn.old).now.schema part.Verdicts }
    requires marks { IsUp (state S.Store conn.old)
        → FindsPart (state S.Store conn.old).now.schema part.Marks }
    ensures reads { Reads (state S.Store conn.old) (state S.Store conn.new) }
    ensures up { HasCleanDisk (state S.Store conn.new)
        → OnOk result (IsUp (state S.Store conn.new)) }
    ensures found { IsUp (state S.Store conn.new)
        → IfOk result (FoundIn (state S.Store conn.old).now) }
    ensures damaged { IsUp (state S.Store conn.new)
        → result ≡ Err fault.Stray → IsDamaged (state S.Store conn.old).now }
{
    if has_marks(conn)? {
        return Ok(InDatabase::NotADesk);
    }
    look_within(alloc, conn)
}

/// Looks at a database that has an older desk's tables.
fn look_old<S: Alter>(alloc: Global, conn: &mut Connection<S>) -> Result<InDatabase, Fault>
    requires rests { Rests (state S.Store conn.old) }
    requires old { IsUp (state S.Store conn.old) → IsOld (state S.Store conn.old).now.schema }
    ensures reads { Reads (state S.Store conn.old) (state S.Store conn.new) }
    ensures up { HasCleanDisk (state S.Store conn.new)
        → OnOk result (IsUp (state S.Store conn.new)) }
    ensures found { IsUp (state S.Store conn.new)
        → IfOk result (FoundIn (state S.Store conn.old).now) }
    ensures not_stray { result ≢ Err fault.Stray }
{
    match contents_in(alloc, conn, 1)? {
        Some(contents) => Ok(InDatabase::Old(contents)),
        None => Ok(InDatabase::NotADesk),
    }
}

/// Tells what the database keeps. The database stays as it is.
///
/// A desk is refused, as `Fault::Stray`, if its rows are not those that follow from its messages,
/// or if a foreign key refers to its tables that lose rows.
pub fn look<S: Alter>(alloc: Global, conn: &mut Connection<S>) -> Result<InDatabase, Fault>
    requires rests { Rests (state S.Store conn.old) }
    ensures reads { Reads (state S.Store conn.old) (state S.Store conn.new) }
    ensures up { IsUp (state S.Store conn.old) → HasCleanDisk (state S.Store conn.new)
        → OnOk result (IsUp (state S.Store conn.new)) }
    // Where the schema shows no table of a desk, no statement is run: so only the answer that there
    // is a desk says that the connection is up.
    ensures live { HasCleanDisk (state S.Store conn.new)
        → IfOk result (λ found. IsSomeDesk found → IsUp (state S.Store conn.new)) }
    ensures found { IsUp (state S.Store conn.new)
        → IfOk result (FoundIn (state S.Store conn.old).now) }
    ensures damaged { IsUp (state S.Store conn.new)
        → result ≡ Err fault.Stray → IsDamaged (state S.Store conn.old).now }
{
    match shape_in(conn) {
        Shape::Free => Ok(InDatabase::Empty),
        Shape::Other => Ok(InDatabase::NotADesk),
        Shape::Old => look_old(alloc, conn),
        Shape::Migrated => look_migrated(alloc, conn),
        Shape::Desk => look_within(alloc, conn),
    }
}
