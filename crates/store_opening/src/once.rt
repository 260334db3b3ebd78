//! Whether rows have each a rowid of its own, and each name one text.

ghost use Rattle.std.specs.Prelude.{◌≡◌, ◌&&◌, ℕ, ℤ, List, [], IsTrue, IfOk, count_by};
ghost use Rattle.std.specs.List.{list_all};
ghost use Rattle.std.specs.Ordering.{int_eq};
ghost use Rattle.std.specs.Str.{bytes_eq};
ghost use Rattle.sqlite.specs.Order.{column};
ghost use Rattle.store_opening.specs.private.Compare as compare;
ghost use Rattle.store_opening.specs.private.Names.{id_is, is_at, name_is, number_in};

use crate::compare::{has_rowid, is_once, is_same};
use crate::names::{NameKey, are_apart};
use crate::places::{name_in, number_in};
use crate::walk;
use sqlite::Row;
use std::alloc::Global;
use sudo_words::NoMemory;

fn id_in(row: &Row) -> NameKey<'_>
    ensures by { result.by.now ≡ [] }
    ensures number { result.number ≡ number_in (column row.now 0) }
{
    NameKey {
        by: b"",
        number: number_in(row, 0),
    }
}

fn names_in(alloc: Global, rows: &[Row]) -> Result<Vec<NameKey<'_>>, NoMemory>
    ensures { IfOk result (λ names. (asker : List ℕ) (number : ℤ)
        → count_by (is_at asker number) names.items ≡ count_by (name_is asker number) rows.now) }
{
    let mut names = Vec::with_capacity(alloc, rows.len())?;
    for row in rows {
        names.push(name_in(row))?;
    }
    Ok(names)
}

fn ids_in(alloc: Global, rows: &[Row]) -> Result<Vec<NameKey<'_>>, NoMemory>
    ensures { IfOk result (λ names. (asker : List ℕ) (number : ℤ)
        → count_by (is_at asker number) names.items ≡ count_by (id_is asker number) rows.now) }
{
    let mut names = Vec::with_capacity(alloc, rows.len())?;
    for row in rows {
        names.push(id_in(row))?;
    }
    Ok(names)
}

fn is_each_once(rows: &[Row]) -> bool
    ensures { result ≡ list_all (λ r. compare.is_once r r) rows.now }
{
    rows.iter().all(|row| is_once(row, row))
}

/// Rows of one name have one text.
pub(crate) fn are_once(alloc: Global, rows: &[Row]) -> Result<bool, NoMemory>
    ensures { IfOk result
        (λ are. are ≡ list_all (λ r. list_all (compare.is_once r) rows.now) rows.now) }
{
    let names = names_in(alloc, rows)?;
    if are_apart(names) && is_each_once(rows) {
        return Ok(true);
    }
    Ok(walk::are_once(rows))
}

fn is_each_same(rows: &[Row]) -> bool
    ensures { result ≡ list_all (λ r. compare.has_rowid r && compare.is_same r r) rows.now }
{
    rows.iter().all(|row| has_rowid(row) && is_same(row, row))
}

/// Each row has a rowid of its own, and that is a whole number.
pub(crate) fn are_keyed(alloc: Global, rows: &[Row]) -> Result<bool, NoMemory>
    ensures { IfOk result (λ are. are ≡ list_all (compare.is_keyed rows.now) rows.now) }
{
    let ids = ids_in(alloc, rows)?;
    if are_apart(ids) && is_each_same(rows) {
        return Ok(true);
    }
    Ok(walk::are_keyed(rows))
}
