//! Whether the tables that follow from the messages have the right rows.
//!
//! The rows of a table are read, compared and freed before those of the next are read, so that
//! memory holds one table's rows at a time. The orders of the messages are made after the first
//! table is read: reading takes more memory than the rows do.

ghost use Rattle.std.specs.Prelude.{◌≡◌, ◌≢◌, ◌&&◌, List, Err, IfOk, OnOk};
ghost use Rattle.sqlite.specs.Order.{Row as AnyRow};
ghost use Rattle.sqlite.specs.State.{HasCleanDisk};
ghost use Rattle.sqlite.specs.Held.{state};
ghost use Rattle.store_tables.specs.SqliteStates.{IsUp, Rests};
ghost use Rattle.store_tables.specs.declared.fault.Fault.TheVariants as fault;
ghost use Rattle.store_schema.specs.declared.part.DeskPart.TheVariants as part;
ghost use Rattle.store_schema.specs.Shapes.{FindsPart, HasCommon};
ghost use Rattle.store_opening.specs.Opened.{Reads};
ghost use Rattle.store_opening.specs.private.Compare as compare;
ghost use Rattle.store_opening.specs.private.Names.{IsIndex};
ghost use Rattle.store_opening.specs.private.Selecting.{ShowsPart, ShowsRows};

use crate::known::Known;
use crate::once::are_keyed;
use crate::rows::are_rows_of;
use crate::statements::rows_of;
use crate::stored::Stored;
use sqlite::{Alter, Connection, Row};
use std::alloc::Global;
use store_schema::DeskPart;
use store_tables::Fault;
use sudo_words::NoMemory;

/// Whether the rows of the table are those that follow from the messages, each with a rowid of its
/// own.
fn is_kept(
    alloc: Global,
    part: DeskPart,
    known: &Known<'_>,
    rows: Vec<Row>,
) -> Result<bool, NoMemory>
    requires { IsIndex known.now.all.now known.now.names.items known.now.disputed.items }
    ensures { IfOk result (λ kept. kept ≡ compare.is_kept part known.now.all.now rows.items) }
{
    let of_messages = are_rows_of(alloc, part, known, rows.as_slice())?;
    let keyed = are_keyed(alloc, rows.as_slice())?;
    Ok(of_messages && keyed)
}

/// The same for the table's rows in the database, which stays as it is.
fn keeps_part<S: Alter>(
    alloc: Global,
    conn: &mut Connection<S>,
    part: DeskPart,
    known: &Known<'_>,
) -> Result<bool, Fault>
    requires rests { Rests (state S.Store conn.old) }
    requires found { IsUp (state S.Store conn.old)
        → FindsPart (state S.Store conn.old).now.schema part }
    requires index { IsIndex known.now.all.now known.now.names.items known.now.disputed.items }
    ensures reads { Reads (state S.Store conn.old) (state S.Store conn.new) }
    ensures up { HasCleanDisk (state S.Store conn.new)
        → OnOk result (IsUp (state S.Store conn.new)) }
    ensures kept { IsUp (state S.Store conn.new)
        → IfOk result (λ kept. (rows : List AnyRow) × ShowsPart part
        (state S.Store conn.old).now rows × (kept ≡ compare.is_kept part known.now.all.now rows)) }
    ensures not_stray { result ≢ Err fault.Stray }
{
    let rows = rows_of(conn, part)?;
    Ok(is_kept(alloc, part, known, rows)?)
}

fn all_three(a: bool, b: bool, c: bool) -> bool
    ensures { result ≡ (a && (b && c)) }
{
    a && b && c
}

/// Whether the three tables have the rows that follow from these messages. The database stays as it
/// is.
pub(crate) fn keeps_rows<S: Alter>(
    alloc: Global,
    conn: &mut Connection<S>,
    all: &[Stored],
) -> Result<bool, Fault>
    requires rests { Rests (state S.Store conn.old) }
    requires common { IsUp (state S.Store conn.old)
        → HasCommon (state S.Store conn.old).now.schema }
    requires verdicts { IsUp (state S.Store conn.old)
        → FindsPart (state S.Store conn.old).now.schema part.Verdicts }
    ensures reads { Reads (state S.Store conn.old) (state S.Store conn.new) }
    ensures up { HasCleanDisk (state S.Store conn.new)
        → OnOk result (IsUp (state S.Store conn.new)) }
    ensures kept { IsUp (state S.Store conn.new) → IfOk result
        (λ kept. (names verdicts parked : List AnyRow) × ShowsRows (state S.Store conn.old).now
        names verdicts parked × (kept ≡ compare.are_kept all.now names verdicts parked)) }
    ensures not_stray { result ≢ Err fault.Stray }
{
    let rows = rows_of(conn, DeskPart::Names)?;
    let known = Known::new(alloc, all)?;
    let names = is_kept(alloc, DeskPart::Names, &known, rows)?;
    let verdicts = keeps_part(alloc, conn, DeskPart::Verdicts, &known)?;
    let parked = keeps_part(alloc, conn, DeskPart::Parked, &known)?;
    Ok(all_three(names, verdicts, parked))
}
