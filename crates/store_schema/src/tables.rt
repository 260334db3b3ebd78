//! Whether a table is one of a desk's.

ghost use Rattle.std.specs.Prelude.{◌≡◌, ◌↔◌, IsTrue, [], ◌∷◌};
ghost use Rattle.store_tables.specs.DeskTables.{keyed};
ghost use Rattle.store_schema.specs.Parts.{framed, IsPart};
ghost use Rattle.store_schema.specs.private.Bare.{IsBare};

use crate::columns::{
    are_named_as_marks, are_of_desk, are_of_messages, are_of_names, are_of_parked, are_of_verdicts,
};
use crate::part::DeskPart;
use sqlite_items::Items;
use sqlite_schema::schema::Table;
use sqlite_value::keys::Order;

/// Whether the table has no check, no reference, no computed default and no AUTOINCREMENT.
fn is_bare(table: &Table) -> bool
    ensures { IsTrue result ↔ IsBare table.now }
{
    table.checks.roots.is_empty()
        && table.references.is_empty()
        && table.computed.is_empty()
        && table.stamps.places.is_empty()
        && table.stamps.terms.roots.is_empty()
        && table.stamps.formats.is_empty()
        && !table.is_counted
}

fn is_key(key: &Items<usize>, places: &[usize]) -> bool
    ensures { IsTrue result ↔ (key.now ≡ places.now) }
{
    key.as_slice() == places
}

fn are_keys(keys: &[Items<usize>], places: &[usize]) -> bool
    ensures { IsTrue result ↔ (keys.now ≡ places.now ∷ []) }
{
    match keys {
        [key] => is_key(key, places),
        _ => false,
    }
}

fn are_orders(orders: &[Order]) -> bool
    ensures { IsTrue result ↔ (orders.now ≡ (record { digits = 0 }) ∷ []) }
{
    match orders {
        [order] => order.digits == 0,
        _ => false,
    }
}

/// Whether the table has this name, this unique key, and nothing else besides its columns.
fn is_keyed(table: &Table, name: &[u8], places: &[usize]) -> bool
    ensures { IsTrue result ↔ (table.now
        ≡ record (keyed name.now table.now.columns places.now) { tree = table.now.tree }) }
{
    table.name.as_slice() == name
        && table.key.is_none()
        && table.primary.as_slice() == places
        && are_keys(table.uniques.as_slice(), places)
        && are_orders(table.orders.as_slice())
        && is_bare(table)
}

/// The same for a table whose key is its rowid, as that of `desk` is.
fn is_by_rowid(table: &Table, name: &[u8]) -> bool
    ensures { IsTrue result
        ↔ (table.now ≡ record (framed name.now table.now.columns) { tree = table.now.tree }) }
{
    table.name.as_slice() == name
        && table.key == Some(0)
        && table.primary.as_slice() == [0usize].as_slice()
        && table.uniques.is_empty()
        && table.orders.is_empty()
        && is_bare(table)
}

fn has_name(table: &Table, name: &[u8]) -> bool
    ensures { IsTrue result ↔ (table.now.name ≡ name.now) }
{
    table.name.as_slice() == name
}

/// Whether the table is a desk's table of this part, in any tree.
pub(crate) fn is_part(table: &Table, part: DeskPart) -> bool
    ensures { IsTrue result ↔ IsPart part table.now }
{
    let columns = table.columns.as_slice();
    match part {
        DeskPart::Desk => is_by_rowid(table, b"desk") && are_of_desk(columns),
        DeskPart::Messages => is_keyed(table, b"messages", &[1]) && are_of_messages(columns),
        DeskPart::Names => is_keyed(table, b"names", &[1, 2]) && are_of_names(columns),
        DeskPart::Marks => has_name(table, b"marks") && are_named_as_marks(columns),
        DeskPart::Verdicts => {
            is_keyed(table, b"verdicts", &[1, 2, 3, 4, 5]) && are_of_verdicts(columns)
        }
        DeskPart::Parked => is_keyed(table, b"parked", &[1]) && are_of_parked(columns),
    }
}
