//! The columns of a desk's tables.

ghost use Rattle.std.specs.Prelude.{◌≡◌, ◌↔◌, IsTrue, true, codes};
ghost use Rattle.sqlite_schema.specs.declared.schema.Kind.TheVariants as kind_of;
ghost use Rattle.store_tables.specs.DeskTables.{column_of, desk, messages, names, verdicts, parked};
ghost use Rattle.store_schema.specs.Parts.{marks, names_of};

use sqlite_schema::schema::{Column, Kind};
use sqlite_value::keys::Collation;
use sqlite_value::value::Value;

fn is_column(column: &Column, name: &[u8], kind: Kind, not_null: bool) -> bool
    ensures { IsTrue result ↔ (column.now ≡ column_of name.now kind not_null) }
{
    column.name.as_slice() == name
        && column.kind == kind
        && column.is_strict
        && column.not_null == not_null
        && matches!(column.default, Value::Null)
        && matches!(column.collation, Collation::Binary)
}

fn is_text(column: &Column, name: &[u8]) -> bool
    ensures { IsTrue result ↔ (column.now ≡ column_of name.now kind_of.Text true) }
{
    is_column(column, name, Kind::Text, true)
}

fn is_number(column: &Column, name: &[u8]) -> bool
    ensures { IsTrue result ↔ (column.now ≡ column_of name.now kind_of.Integer true) }
{
    is_column(column, name, Kind::Integer, true)
}

/// Whether these are the columns of a request's name: who asks, and the number.
fn are_name(asker: &Column, no: &Column) -> bool
    ensures { IsTrue result ↔ ((asker.now ≡ column_of (codes "asker") kind_of.Text true)
        × (no.now ≡ column_of (codes "no") kind_of.Integer true)) }
{
    is_text(asker, b"asker") && is_number(no, b"no")
}

pub(crate) fn are_of_desk(columns: &[Column]) -> bool
    ensures { IsTrue result ↔ (columns.now ≡ desk.columns) }
{
    match columns {
        [id, schema, roster] => {
            is_column(id, b"id", Kind::Integer, false)
                && is_number(schema, b"schema")
                && is_text(roster, b"roster")
        }
        _ => false,
    }
}

pub(crate) fn are_of_messages(columns: &[Column]) -> bool
    ensures { IsTrue result ↔ (columns.now ≡ messages.columns) }
{
    match columns {
        [body] => is_text(body, b"body"),
        _ => false,
    }
}

pub(crate) fn are_of_names(columns: &[Column]) -> bool
    ensures { IsTrue result ↔ (columns.now ≡ names.columns) }
{
    match columns {
        [asker, no, body, disputed] => {
            are_name(asker, no) && is_text(body, b"body") && is_number(disputed, b"disputed")
        }
        _ => false,
    }
}

pub(crate) fn are_of_verdicts(columns: &[Column]) -> bool
    ensures { IsTrue result ↔ (columns.now ≡ verdicts.columns) }
{
    match columns {
        [asker, no, person, kind, at] => {
            are_name(asker, no)
                && is_text(person, b"person")
                && is_text(kind, b"kind")
                && is_number(at, b"at")
        }
        _ => false,
    }
}

pub(crate) fn are_of_parked(columns: &[Column]) -> bool
    ensures { IsTrue result ↔ (columns.now ≡ parked.columns) }
{
    match columns {
        [body, asker, no] => { is_text(body, b"body") && are_name(asker, no) }
        _ => false,
    }
}

fn is_named(column: &Column, name: &[u8]) -> bool
    ensures { IsTrue result ↔ (column.now.name ≡ name.now) }
{
    column.name.as_slice() == name
}

/// Whether the columns are named as those of `marks`, whose types do not count.
pub(crate) fn are_named_as_marks(columns: &[Column]) -> bool
    ensures { IsTrue result ↔ (names_of columns.now ≡ names_of marks.columns) }
{
    match columns {
        [asker, no, person, kind, at] => {
            is_named(asker, b"asker")
                && is_named(no, b"no")
                && is_named(person, b"person")
                && is_named(kind, b"kind")
                && is_named(at, b"at")
        }
        _ => false,
    }
}
