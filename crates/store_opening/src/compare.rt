//! Whether rows of a desk's tables are those that follow from a message.

ghost use Rattle.std.specs.Prelude.{◌≡◌, if◌then◌else◌};
ghost use Rattle.sqlite_value.specs.Value.{owned};
ghost use Rattle.std.specs.List.{list_all, list_any};
ghost use Rattle.sqlite.specs.Order.{column};
ghost use Rattle.store_opening.specs.private.Compare as compare;

use crate::stored::Stored;
use messages::{Message, Verdict};
use sqlite::Row;
use sqlite_value::value::ValueRef;

/// The row has this text in the column.
pub(crate) fn is_text(row: &Row, at: usize, text: &str) -> bool
    ensures { result ≡ compare.is_text text.now (column row.now at) }
{
    match row.get_ref(at) {
        Ok(ValueRef::Text(bytes)) => bytes == text.as_bytes(),
        _ => false,
    }
}

/// The row has this number in the column.
pub(crate) fn is_number(row: &Row, at: usize, number: u32) -> bool
    ensures { result ≡ compare.is_number number (column row.now at) }
{
    match row.get_ref(at) {
        Ok(ValueRef::Int(n)) => n == i64::from(number),
        _ => false,
    }
}

/// The value that the row has in the column: NULL if it has no such column.
fn value_at(row: &Row, at: usize) -> ValueRef<'_>
    ensures { owned result ≡ column row.now at }
{
    row.get_ref(at).unwrap_or(ValueRef::Null)
}

/// Both rows have the same text in the column, or the same number, or NULL.
fn agree_at(row: &Row, other: &Row, at: usize) -> bool
    ensures { result ≡ compare.agree (column row.now at) (column other.now at) }
{
    match (value_at(row, at), value_at(other, at)) {
        (ValueRef::Text(a), ValueRef::Text(b)) => b == a,
        (ValueRef::Int(a), ValueRef::Int(b)) => b == a,
        (ValueRef::Null, ValueRef::Null) => true,
        _ => false,
    }
}

/// The rows are the same.
pub(crate) fn is_same(row: &Row, other: &Row) -> bool
    ensures { result ≡ compare.is_same row.now other.now }
{
    row.column_count() == other.column_count()
        && agree_at(row, other, 0)
        && agree_at(row, other, 1)
        && agree_at(row, other, 2)
        && agree_at(row, other, 3)
        && agree_at(row, other, 4)
        && agree_at(row, other, 5)
}

/// The rows have different rowids, or are the same.
pub(crate) fn is_apart(row: &Row, other: &Row) -> bool
    ensures { result ≡ compare.is_apart row.now other.now }
{
    !agree_at(row, other, 0) || is_same(row, other)
}

/// The row's rowid is a whole number, and it has at most six columns.
pub(crate) fn has_rowid(row: &Row) -> bool
    ensures { result ≡ compare.has_rowid row.now }
{
    matches!(row.get_ref(0), Ok(ValueRef::Int(_))) && row.column_count() <= 6
}

/// The two rows of `names` are of different names, or have the same text.
pub(crate) fn is_once(row: &Row, other: &Row) -> bool
    ensures { result ≡ compare.is_once row.now other.now }
{
    !(agree_at(row, other, 1) && agree_at(row, other, 2)) || agree_at(row, other, 3)
}

/// The row of `names` is of this name.
pub(crate) fn is_of_name(row: &Row, asker: &str, number: u32) -> bool
    ensures { result ≡ compare.is_of_name asker.now number row.now }
{
    is_text(row, 1, asker) && is_number(row, 2, number)
}

/// The message is a request of the name.
fn is_named(stored: &Stored, asker: &str, number: u32) -> bool
    ensures { result ≡ compare.is_named asker.now number stored.now }
{
    match stored.message() {
        Message::Request(request) => { request.by().as_str() == asker && request.no() == number }
        Message::Verdict(_) => false,
    }
}

/// One of the messages is a request of the name.
fn asks(all: &[Stored], asker: &str, number: u32) -> bool
    ensures { result ≡ compare.asks all.now asker.now number }
{
    all.iter().any(|stored| is_named(stored, asker, number))
}

/// The message is another request with the name of the request `of`.
fn is_other(stored: &Stored, of: &Stored) -> bool
    ensures { result ≡ compare.is_other of.now stored.now }
{
    match of.message() {
        Message::Request(request) => {
            is_named(stored, request.by().as_str(), request.no()) && stored.body() != of.body()
        }
        Message::Verdict(_) => false,
    }
}

/// One of the messages is another request with the name of the request `of`.
fn is_disputed(all: &[Stored], of: &Stored) -> bool
    ensures { result ≡ compare.is_disputed all.now of.now }
{
    all.iter().any(|stored| is_other(stored, of))
}

/// The row of `names` has the name and the text of the request.
pub(crate) fn shows_text(row: &Row, stored: &Stored) -> bool
    ensures { result ≡ compare.shows_text row.now stored.now }
{
    match stored.message() {
        Message::Request(request) => {
            row.column_count() == 5
                && is_text(row, 1, request.by().as_str())
                && is_number(row, 2, request.no())
                && is_text(row, 3, stored.body())
        }
        Message::Verdict(_) => false,
    }
}

/// The number by which a row of `names` says whether its name is disputed.
pub(crate) fn flag(disputed: bool) -> u32
    ensures { result ≡ (if disputed then 1 else 0) }
{
    if disputed { 1 } else { 0 }
}

/// The row of `names` is that of the request.
pub(crate) fn shows_request(row: &Row, stored: &Stored, all: &[Stored]) -> bool
    ensures { result ≡ compare.shows_request all.now row.now stored.now }
{
    shows_text(row, stored) && is_number(row, 4, flag(is_disputed(all, stored)))
}

fn is_verdict(row: &Row, verdict: &Verdict) -> bool
    ensures { result ≡ compare.is_verdict row.now verdict.now }
{
    row.column_count() == 6
        && is_text(row, 1, verdict.of().as_str())
        && is_number(row, 2, verdict.no())
        && is_text(row, 3, verdict.by().as_str())
        && is_text(row, 4, verdict.kind().word())
        && is_number(row, 5, verdict.at().secs() as u32)
}

/// The row of `verdicts` is that of the verdict, whose name has a request.
pub(crate) fn shows_verdict(row: &Row, stored: &Stored) -> bool
    ensures { result ≡ compare.shows_verdict row.now stored.now }
{
    match stored.message() {
        Message::Request(_) => false,
        Message::Verdict(verdict) => is_verdict(row, verdict),
    }
}

/// The row of `parked` is that of the verdict.
pub(crate) fn shows_parked(row: &Row, stored: &Stored) -> bool
    ensures { result ≡ compare.shows_parked row.now stored.now }
{
    match stored.message() {
        Message::Request(_) => false,
        Message::Verdict(verdict) => {
            row.column_count() == 4
                && is_text(row, 1, stored.body())
                && is_text(row, 2, verdict.of().as_str())
                && is_number(row, 3, verdict.no())
        }
    }
}

/// The message is a verdict, and its name has a request.
pub(crate) fn counts(all: &[Stored], stored: &Stored) -> bool
    ensures { result ≡ compare.counts all.now stored.now }
{
    match stored.message() {
        Message::Request(_) => false,
        Message::Verdict(verdict) => asks(all, verdict.of().as_str(), verdict.no()),
    }
}

/// The message is a verdict, and its name has no request.
pub(crate) fn waits(all: &[Stored], stored: &Stored) -> bool
    ensures { result ≡ compare.waits all.now stored.now }
{
    match stored.message() {
        Message::Request(_) => false,
        Message::Verdict(verdict) => !asks(all, verdict.of().as_str(), verdict.no()),
    }
}
