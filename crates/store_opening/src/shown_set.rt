//! What the rows of a desk's tables show of its messages. `messages` itself is not read.

ghost use Rattle.std.specs.Prelude.{◌≡◌, ◌≢◌, ◌++◌, Err, List, IfOk, OnOk, MatchResult};
ghost use Rattle.sqlite.specs.State.{HasCleanDisk};
ghost use Rattle.sqlite.specs.Held.{state};
ghost use Rattle.messages.specs.Fields.{VerdictFields};
ghost use Rattle.messages.specs.NameRows.{ShowSet};
ghost use Rattle.messages.specs.declared.name_row.NameRow.{NameRow as AnyRow};
ghost use Rattle.store_tables.specs.Kept.{HoldsText};
ghost use Rattle.store_tables.specs.SqliteStates.{IsUp, Rests};
ghost use Rattle.store_tables.specs.declared.fault.Fault.TheVariants as fault;
ghost use Rattle.store_schema.specs.declared.part.DeskPart.TheVariants as part;
ghost use Rattle.store_schema.specs.Shapes.{FindsPart, HasCommon};
ghost use Rattle.store_opening.specs.Opened.{IsKept, Reads};
ghost use Rattle.store_opening.specs.private.Showing.{AreShown, IsNoStray, ShowsName};
ghost use Rattle.store_opening.specs.private.Showing.{ShowsParked, ShowsVerdict};

use crate::cells::{flag_at, kind_at, message_at, moment_at, name_at, number_at};
use crate::tables::{Rows, rows_beside};
use messages::{Message, MessageReader, NameRow, Verdict};
use sqlite::{Alter, Connection, Row};
use std::alloc::Global;
use store_tables::Fault;

/// The requests and verdicts that `names`, `verdicts` and `parked` of a desk show.
#[derive(Debug, Drop)]
pub struct ShownSet {
    /// A row for each name with a request.
    pub names: Vec<NameRow>,
    /// All verdicts, including those that wait for their request.
    pub verdicts: Vec<Verdict>,
}

/// What a row of `names` shows.
fn name_row(alloc: Global, reader: &mut MessageReader, row: &Row) -> Result<NameRow, Fault>
    ensures { (shown : AnyRow) → ShowsName row.now shown
        → MatchResult result (λ r. r ≡ shown) IsNoStray }
{
    let is_disputed = flag_at(row, 4)?;
    let message = message_at(alloc, reader, row, 3)?;
    match message {
        Message::Request(request) => Ok(NameRow {
            request,
            is_disputed,
        }),
        Message::Verdict(_) => Err(Fault::Stray),
    }
}

/// What a row of `verdicts` shows.
fn verdict(alloc: Global, row: &Row) -> Result<Verdict, Fault>
    ensures { (shown : VerdictFields) → ShowsVerdict row.now shown
        → MatchResult result (λ v. v ≡ shown) IsNoStray }
{
    let no = number_at(row, 2)?;
    let kind = kind_at(row, 4)?;
    let at = moment_at(row, 5)?;
    let of = name_at(alloc, row, 1)?;
    let by = name_at(alloc, row, 3)?;
    match Verdict::new(kind, of, no, by, at) {
        Some(verdict) => Ok(verdict),
        None => Err(Fault::Stray),
    }
}

/// What a row of `parked` shows.
fn parked(alloc: Global, reader: &mut MessageReader, row: &Row) -> Result<Verdict, Fault>
    ensures { (shown : VerdictFields) → ShowsParked row.now shown
        → MatchResult result (λ v. v ≡ shown) IsNoStray }
{
    let message = message_at(alloc, reader, row, 1)?;
    match message {
        Message::Verdict(verdict) => Ok(verdict),
        Message::Request(_) => Err(Fault::Stray),
    }
}

/// What the rows of `names` show.
fn name_rows(alloc: Global, reader: &mut MessageReader, rows: &[Row]) -> Result<Vec<NameRow>, Fault>
    ensures { (shown : List AnyRow) → AreShown ShowsName rows.now shown
        → MatchResult result (λ names. names.items ≡ shown) IsNoStray }
{
    let mut names = Vec::new(alloc);
    for row in rows {
        let shown = name_row(alloc, reader, row)?;
        names.push(shown)?;
    }
    Ok(names)
}

/// Adds what the rows of `verdicts` show.
fn push_verdicts(alloc: Global, verdicts: &mut Vec<Verdict>, rows: &[Row]) -> Result<(), Fault>
    ensures { (shown : List VerdictFields) → AreShown ShowsVerdict rows.now shown
        → MatchResult result (λ _. verdicts.new.items ≡ verdicts.old.items ++ shown) IsNoStray }
{
    for row in rows {
        let shown = verdict(alloc, row)?;
        verdicts.push(shown)?;
    }
    Ok(())
}

/// Adds what the rows of `parked` show.
fn push_parked(
    alloc: Global,
    reader: &mut MessageReader,
    verdicts: &mut Vec<Verdict>,
    rows: &[Row],
) -> Result<(), Fault>
    ensures { (shown : List VerdictFields) → AreShown ShowsParked rows.now shown
        → MatchResult result (λ _. verdicts.new.items ≡ verdicts.old.items ++ shown) IsNoStray }
{
    for row in rows {
        let shown = parked(alloc, reader, row)?;
        verdicts.push(shown)?;
    }
    Ok(())
}

/// What the rows of the three tables show.
fn shown_in(alloc: Global, rows: &Rows) -> Result<ShownSet, Fault>
    ensures { (names : List AnyRow) (counted waiting : List VerdictFields)
        → AreShown ShowsName rows.now.names.items names
        → AreShown ShowsVerdict rows.now.verdicts.items counted
        → AreShown ShowsParked rows.now.parked.items waiting → MatchResult result
        (λ s. (s.names.items ≡ names) × (s.verdicts.items ≡ counted ++ waiting)) IsNoStray }
{
    let mut reader = MessageReader::new(alloc);
    let names = name_rows(alloc, &mut reader, rows.names.as_slice())?;
    let mut verdicts = Vec::new(alloc);
    push_verdicts(alloc, &mut verdicts, rows.verdicts.as_slice())?;
    push_parked(alloc, &mut reader, &mut verdicts, rows.parked.as_slice())?;
    Ok(ShownSet { names, verdicts })
}

/// What the rows of the desk that the database keeps show of its messages: a row for each name with
/// a request, and all verdicts, from `verdicts` and from `parked`. `messages` is not read, and the
/// database stays as it is.
pub fn shown_of<S: Alter>(alloc: Global, conn: &mut Connection<S>) -> Result<ShownSet, Fault>
    requires rests { Rests (state S.Store conn.old) }
    requires common { IsUp (state S.Store conn.old)
        → HasCommon (state S.Store conn.old).now.schema }
    requires verdicts { IsUp (state S.Store conn.old)
        → FindsPart (state S.Store conn.old).now.schema part.Verdicts }
    ensures reads { Reads (state S.Store conn.old) (state S.Store conn.new) }
    ensures up { HasCleanDisk (state S.Store conn.new)
        → OnOk result (IsUp (state S.Store conn.new)) }
    // If the database keeps a desk, no row is stray, and the names and verdicts that are shown are
    // those of the messages that it holds.
    ensures whole { IsUp (state S.Store conn.new)
        → IsKept (state S.Store conn.old).now → result ≢ Err fault.Stray }
    ensures shown { IsUp (state S.Store conn.new) → IsKept (state S.Store conn.old).now
        → IfOk result
        (λ s. ShowSet (HoldsText (state S.Store conn.old).now) s.names.items s.verdicts.items) }
{
    let rows = rows_beside(conn)?;
    shown_in(alloc, &rows)
}
