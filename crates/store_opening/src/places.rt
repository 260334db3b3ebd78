//! What rows say, in a form that can be put in order.

ghost use Rattle.std.specs.Prelude.{◌≡◌, pos};
ghost use Rattle.sqlite.specs.Order.{column};
ghost use Rattle.store_opening.specs.private.Names.{number_in, text_in};

use crate::names::NameKey;
use crate::stored::Stored;
use messages::{Message, Verdict};
use sqlite::Row;
use sqlite_value::value::ValueRef;

/// What a verdict's row says, in the order of `verdicts`.
#[derive(Clone, Copy, Debug, PartialEq, Eq, PartialOrd, Ord)]
pub(crate) struct VerdictKey<'a> {
    name: NameKey<'a>,
    by: &'a [u8],
    kind: &'a [u8],
    at: i64,
}

/// The text in the column, or an empty one if it has none.
pub(crate) fn text_in(row: &Row, at: usize) -> &[u8]
    ensures { result.now ≡ text_in (column row.now at) }
{
    match row.get_ref(at) {
        Ok(ValueRef::Text(bytes)) => bytes,
        _ => b"",
    }
}

/// The number in the column, or 0 if it has none.
pub(crate) fn number_in(row: &Row, at: usize) -> i64
    ensures { result ≡ number_in (column row.now at) }
{
    match row.get_ref(at) {
        Ok(ValueRef::Int(n)) => n,
        _ => 0,
    }
}

/// The name, as rows show it.
pub(crate) fn name_key(by: &str, number: u32) -> NameKey<'_>
    ensures by { result.by.now ≡ by.now }
    ensures number { result.number ≡ pos number }
{
    NameKey {
        by: by.as_bytes(),
        number: i64::from(number),
    }
}

/// The name that a row of `names` or `verdicts` shows.
pub(crate) fn name_in(row: &Row) -> NameKey<'_>
    ensures by { result.by.now ≡ text_in (column row.now 1) }
    ensures number { result.number ≡ number_in (column row.now 2) }
{
    NameKey {
        by: text_in(row, 1),
        number: number_in(row, 2),
    }
}

/// What the verdict's row in `verdicts` says.
fn key_of_verdict(verdict: &Verdict) -> VerdictKey<'_> {
    VerdictKey {
        name: name_key(verdict.of().as_str(), verdict.no()),
        by: verdict.by().as_str().as_bytes(),
        kind: verdict.kind().word().as_bytes(),
        at: i64::from(verdict.at().secs() as u32),
    }
}

/// What the message's row in `verdicts` says, if it is a verdict.
pub(crate) fn key_of(stored: &Stored) -> Option<VerdictKey<'_>> {
    match stored.message() {
        Message::Verdict(verdict) => Some(key_of_verdict(verdict)),
        Message::Request(_) => None,
    }
}

/// What a row of `verdicts` says.
pub(crate) fn key_in(row: &Row) -> VerdictKey<'_> {
    VerdictKey {
        name: name_in(row),
        by: text_in(row, 3),
        kind: text_in(row, 4),
        at: number_in(row, 5),
    }
}

/// Keys in order, each with its place in the list that the keys were made of. So a key is made
/// once, and not for each comparison.
#[derive(Debug, Drop)]
pub(crate) struct Places<K: Ord> {
    keyed: Vec<(K, usize)>,
}

impl<K: Ord> Places<K> {
    /// The keys, put in order.
    pub(crate) fn of(mut keyed: Vec<(K, usize)>) -> Places<K> {
        keyed.sort_unstable();
        Places { keyed }
    }

    /// A place of the key, where it has one.
    pub(crate) fn find(&self, key: &K) -> Option<usize> {
        let found = self
            .keyed
            .binary_search_by(|placed| placed.0.cmp(key))
            .ok()?;
        Some(self.keyed.get(found)?.1)
    }
}
