//! Every row compared with every message.
//!
//! The functions here answer where a binary search finds nothing that fits. That is rare: a desk
//! writes no such rows.

ghost use Rattle.std.specs.Prelude.{◌≡◌};
ghost use Rattle.std.specs.List.{list_all, list_any};
ghost use Rattle.store_opening.specs.private.Compare as compare;

use crate::compare::{
    counts, has_rowid, is_apart, is_of_name, is_once, shows_parked, shows_request, shows_verdict,
    waits,
};
use crate::stored::Stored;
use sqlite::Row;

fn is_apart_from(row: &Row, rows: &[Row]) -> bool
    ensures { result ≡ list_all (compare.is_apart row.now) rows.now }
{
    rows.iter().all(|other| is_apart(row, other))
}

fn is_keyed(row: &Row, rows: &[Row]) -> bool
    ensures { result ≡ compare.is_keyed rows.now row.now }
{
    has_rowid(row) && is_apart_from(row, rows)
}

/// Each row has a rowid of its own.
pub(crate) fn are_keyed(rows: &[Row]) -> bool
    ensures { result ≡ list_all (compare.is_keyed rows.now) rows.now }
{
    rows.iter().all(|row| is_keyed(row, rows))
}

/// The row of `names` is that of one of the messages.
pub(crate) fn is_name_row(row: &Row, all: &[Stored]) -> bool
    ensures { result ≡ compare.is_name_row all.now row.now }
{
    all.iter().any(|stored| shows_request(row, stored, all))
}

/// The row of `verdicts` is that of a verdict that counts.
pub(crate) fn is_verdict_row(row: &Row, all: &[Stored]) -> bool
    ensures { result ≡ compare.is_verdict_row all.now row.now }
{
    all.iter()
        .any(|stored| shows_verdict(row, stored) && counts(all, stored))
}

/// The row of `parked` is that of a verdict that waits.
pub(crate) fn is_parked_row(row: &Row, all: &[Stored]) -> bool
    ensures { result ≡ compare.is_parked_row all.now row.now }
{
    all.iter()
        .any(|stored| shows_parked(row, stored) && waits(all, stored))
}

/// One of the rows of `names` is of this name.
pub(crate) fn has_name(rows: &[Row], asker: &str, number: u32) -> bool
    ensures { result ≡ list_any (compare.is_of_name asker.now number) rows.now }
{
    rows.iter().any(|row| is_of_name(row, asker, number))
}

/// One of the rows of `verdicts` is that of the verdict.
pub(crate) fn has_verdict(rows: &[Row], stored: &Stored) -> bool
    ensures { result ≡ list_any (λ r. compare.shows_verdict r stored.now) rows.now }
{
    rows.iter().any(|row| shows_verdict(row, stored))
}

/// One of the rows of `parked` is that of the verdict.
pub(crate) fn has_parked(rows: &[Row], stored: &Stored) -> bool
    ensures { result ≡ list_any (λ r. compare.shows_parked r stored.now) rows.now }
{
    rows.iter().any(|row| shows_parked(row, stored))
}

fn is_once_among(row: &Row, rows: &[Row]) -> bool
    ensures { result ≡ list_all (compare.is_once row.now) rows.now }
{
    rows.iter().all(|other| is_once(row, other))
}

/// Rows of one name have one text.
pub(crate) fn are_once(rows: &[Row]) -> bool
    ensures { result ≡ list_all (λ r. list_all (compare.is_once r) rows.now) rows.now }
{
    rows.iter().all(|row| is_once_among(row, rows))
}
