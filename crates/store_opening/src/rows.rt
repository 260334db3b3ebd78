//! Whether the rows of a desk's tables are those that follow from its messages.
//!
//! A binary search finds the message for a row, or the row for a message. If the one found does not
//! fit, every one is tried.

ghost use Rattle.std.specs.Prelude.{◌≡◌, Contains, IfOk};
ghost use Rattle.std.specs.List.{list_all, list_any};
ghost use Rattle.store_schema.specs.declared.part.DeskPart.TheVariants as part;
ghost use Rattle.store_opening.specs.private.Compare as compare;
ghost use Rattle.store_opening.specs.private.Names.{IsIndex};

use crate::compare::{flag, is_number, is_of_name, shows_parked, shows_text, shows_verdict};
use crate::known::Known;
use crate::once::are_once;
use crate::places::text_in;
use crate::stored::Stored;
use crate::table::{Counted, Named, Waiting};
use crate::walk;
use messages::Message;
use sqlite::Row;
use std::alloc::Global;
use store_schema::DeskPart;
use sudo_words::NoMemory;

/// The row of `names` is that of the request.
fn shows_request(known: &Known<'_>, row: &Row, stored: &Stored) -> bool
    requires index { IsIndex known.now.all.now known.now.names.items known.now.disputed.items }
    requires known { Contains known.now.all.now stored.now }
    ensures { result ≡ compare.shows_request known.now.all.now row.now stored.now }
{
    shows_text(row, stored) && is_number(row, 4, flag(known.is_disputed(stored)))
}

fn is_name_row(known: &Known<'_>, row: &Row) -> bool
    requires { IsIndex known.now.all.now known.now.names.items known.now.disputed.items }
    ensures { result ≡ compare.is_name_row known.now.all.now row.now }
{
    if let Some(stored) = known.with_text(text_in(row, 3)) {
        if shows_request(known, row, stored) {
            return true;
        }
    }
    walk::is_name_row(row, known.all)
}

fn is_verdict_row(known: &Known<'_>, row: &Row) -> bool
    requires { IsIndex known.now.all.now known.now.names.items known.now.disputed.items }
    ensures { result ≡ compare.is_verdict_row known.now.all.now row.now }
{
    if let Some(stored) = known.with_row(row) {
        if shows_verdict(row, stored) && known.counts(stored) {
            return true;
        }
    }
    walk::is_verdict_row(row, known.all)
}

fn is_parked_row(known: &Known<'_>, row: &Row) -> bool
    requires { IsIndex known.now.all.now known.now.names.items known.now.disputed.items }
    ensures { result ≡ compare.is_parked_row known.now.all.now row.now }
{
    if let Some(stored) = known.with_text(text_in(row, 1)) {
        if shows_parked(row, stored) && known.waits(stored) {
            return true;
        }
    }
    walk::is_parked_row(row, known.all)
}

fn has_name(names: &Named<'_>, asker: &str, number: u32) -> bool
    ensures { result ≡ list_any (compare.is_of_name asker.now number) names.now.rows.now }
{
    if let Some(row) = names.row_of(asker, number) {
        if is_of_name(row, asker, number) {
            return true;
        }
    }
    walk::has_name(names.rows, asker, number)
}

fn has_verdict(verdicts: &Counted<'_>, stored: &Stored) -> bool
    ensures { result ≡ list_any (λ r. compare.shows_verdict r stored.now) verdicts.now.rows.now }
{
    if let Some(row) = verdicts.row_of(stored) {
        if shows_verdict(row, stored) {
            return true;
        }
    }
    walk::has_verdict(verdicts.rows, stored)
}

fn has_parked(parked: &Waiting<'_>, stored: &Stored) -> bool
    ensures { result ≡ list_any (λ r. compare.shows_parked r stored.now) parked.now.rows.now }
{
    if let Some(row) = parked.row_of(stored.body()) {
        if shows_parked(row, stored) {
            return true;
        }
    }
    walk::has_parked(parked.rows, stored)
}

/// The message has its row in `names`, if it is to have one there.
fn has_name_row(names: &Named<'_>, stored: &Stored) -> bool
    ensures { result ≡ compare.has_name_row names.now.rows.now stored.now }
{
    match stored.message() {
        Message::Request(request) => has_name(names, request.by().as_str(), request.no()),
        Message::Verdict(_) => true,
    }
}

/// The message has its row in `verdicts`, if it is to have one there.
fn has_verdict_row(known: &Known<'_>, verdicts: &Counted<'_>, stored: &Stored) -> bool
    requires { IsIndex known.now.all.now known.now.names.items known.now.disputed.items }
    ensures { result ≡ compare.has_verdict_row known.now.all.now verdicts.now.rows.now stored.now }
{
    !known.counts(stored) || has_verdict(verdicts, stored)
}

/// The message has its row in `parked`, if it is to have one there.
fn has_parked_row(known: &Known<'_>, parked: &Waiting<'_>, stored: &Stored) -> bool
    requires { IsIndex known.now.all.now known.now.names.items known.now.disputed.items }
    ensures { result ≡ compare.has_parked_row known.now.all.now parked.now.rows.now stored.now }
{
    !known.waits(stored) || has_parked(parked, stored)
}

fn is_each_name_row(known: &Known<'_>, rows: &[Row]) -> bool
    requires { IsIndex known.now.all.now known.now.names.items known.now.disputed.items }
    ensures { result ≡ list_all (compare.is_name_row known.now.all.now) rows.now }
{
    rows.iter().all(|row| is_name_row(known, row))
}

fn is_each_verdict_row(known: &Known<'_>, rows: &[Row]) -> bool
    requires { IsIndex known.now.all.now known.now.names.items known.now.disputed.items }
    ensures { result ≡ list_all (compare.is_verdict_row known.now.all.now) rows.now }
{
    rows.iter().all(|row| is_verdict_row(known, row))
}

fn is_each_parked_row(known: &Known<'_>, rows: &[Row]) -> bool
    requires { IsIndex known.now.all.now known.now.names.items known.now.disputed.items }
    ensures { result ≡ list_all (compare.is_parked_row known.now.all.now) rows.now }
{
    rows.iter().all(|row| is_parked_row(known, row))
}

fn have_name_rows(all: &[Stored], names: &Named<'_>) -> bool
    ensures { result ≡ list_all (compare.has_name_row names.now.rows.now) all.now }
{
    all.iter().all(|stored| has_name_row(names, stored))
}

fn have_verdict_rows(known: &Known<'_>, verdicts: &Counted<'_>) -> bool
    requires { IsIndex known.now.all.now known.now.names.items known.now.disputed.items }
    ensures { result ≡ list_all (compare.has_verdict_row known.now.all.now verdicts.now.rows.now)
        known.now.all.now }
{
    known
        .all
        .iter()
        .all(|stored| has_verdict_row(known, verdicts, stored))
}

fn have_parked_rows(known: &Known<'_>, parked: &Waiting<'_>) -> bool
    requires { IsIndex known.now.all.now known.now.names.items known.now.disputed.items }
    ensures { result ≡ list_all (compare.has_parked_row known.now.all.now parked.now.rows.now)
        known.now.all.now }
{
    known
        .all
        .iter()
        .all(|stored| has_parked_row(known, parked, stored))
}

/// The rows of `names` are those of the messages.
fn are_names(alloc: Global, known: &Known<'_>, rows: &[Row]) -> Result<bool, NoMemory>
    requires { IsIndex known.now.all.now known.now.names.items known.now.disputed.items }
    ensures { IfOk result (λ are. are ≡ compare.are_rows_of part.Names known.now.all.now rows.now) }
{
    let once = are_once(alloc, rows)?;
    let named = Named::new(alloc, rows)?;
    Ok(is_each_name_row(known, rows) && have_name_rows(known.all, &named) && once)
}

/// The rows of `verdicts` are those of the messages.
fn are_verdicts(alloc: Global, known: &Known<'_>, rows: &[Row]) -> Result<bool, NoMemory>
    requires { IsIndex known.now.all.now known.now.names.items known.now.disputed.items }
    ensures { IfOk result
        (λ are. are ≡ compare.are_rows_of part.Verdicts known.now.all.now rows.now) }
{
    let counted = Counted::new(alloc, rows)?;
    Ok(is_each_verdict_row(known, rows) && have_verdict_rows(known, &counted))
}

/// The rows of `parked` are those of the messages.
fn are_parked(alloc: Global, known: &Known<'_>, rows: &[Row]) -> Result<bool, NoMemory>
    requires { IsIndex known.now.all.now known.now.names.items known.now.disputed.items }
    ensures { IfOk result
        (λ are. are ≡ compare.are_rows_of part.Parked known.now.all.now rows.now) }
{
    let waiting = Waiting::new(alloc, rows)?;
    Ok(is_each_parked_row(known, rows) && have_parked_rows(known, &waiting))
}

/// Whether the rows of the table are those that follow from the messages. For a table whose rows do
/// not follow from the messages the answer is always yes.
pub(crate) fn are_rows_of(
    alloc: Global,
    part: DeskPart,
    known: &Known<'_>,
    rows: &[Row],
) -> Result<bool, NoMemory>
    requires { IsIndex known.now.all.now known.now.names.items known.now.disputed.items }
    ensures { IfOk result (λ are. are ≡ compare.are_rows_of part known.now.all.now rows.now) }
{
    match part {
        DeskPart::Names => are_names(alloc, known, rows),
        DeskPart::Verdicts => are_verdicts(alloc, known, rows),
        DeskPart::Parked => are_parked(alloc, known, rows),
        DeskPart::Desk | DeskPart::Messages | DeskPart::Marks => Ok(true),
    }
}
