//! Whether a desk can be made in a database.

ghost use Rattle.std.specs.Prelude.{◌≡◌, ◌↔◌, IsTrue, is_some};
ghost use Rattle.std.specs.List.{list_any};
ghost use Rattle.sqlite.specs.Does.{lacks_sequence};
ghost use Rattle.sqlite.specs.Rows.{sequence};
ghost use Rattle.sqlite_schema.specs.Names.{same_name};
ghost use Rattle.store_schema.specs.Ready.{IsOpen, IsReady, is_parent};

use crate::part::{DeskPart, part_name};
use crate::recognize::lacks;
use sqlite_schema::names::same_name;
use sqlite_schema::schema::{Reference, Schema, Table};

fn names_parent(table: &Table, name: &[u8]) -> bool
    ensures { result ≡ list_any (λ ref. same_name name.now ref.parent) table.now.references }
{
    let references: &[Reference] = table.references.as_slice();
    references
        .iter()
        .any(|reference| same_name(name, reference.parent.as_slice()))
}

/// Whether a foreign key of some table names this as its parent.
pub(crate) fn is_parent(schema: &Schema, name: &[u8]) -> bool
    ensures { result ≡ is_parent schema.now name.now }
{
    schema
        .tables
        .as_slice()
        .iter()
        .any(|table| names_parent(table, name))
}

fn is_open(schema: &Schema, part: DeskPart) -> bool
    ensures { IsTrue result ↔ IsOpen schema.now part }
{
    lacks(schema, part) && !is_parent(schema, part_name(part))
}

fn has_counted(tables: &[Table]) -> bool
    ensures { result ≡ list_any (λ t. t.is_counted) tables.now }
{
    tables.iter().any(|t| t.is_counted)
}

fn has_sequence(schema: &Schema) -> bool
    ensures { result ≡ is_some (sequence schema.now) }
{
    match schema.table_named(b"sqlite_sequence") {
        Some(at) => schema.tables.as_slice().get(at).is_some(),
        None => false,
    }
}

/// Whether a table counts by AUTOINCREMENT, and the table of the counts is missing.
pub(crate) fn lacks_sequence(schema: &Schema) -> bool
    ensures { result ≡ lacks_sequence schema.now }
{
    has_counted(schema.tables.as_slice()) && !has_sequence(schema)
}

/// Whether a desk can be made: its tables' names are free, no foreign key waits for them, and where
/// a table counts by AUTOINCREMENT, the table of the counts is there.
pub fn is_ready(schema: &Schema) -> bool
    ensures { IsTrue result ↔ IsReady schema.now }
{
    is_open(schema, DeskPart::Desk)
        && is_open(schema, DeskPart::Messages)
        && is_open(schema, DeskPart::Names)
        && is_open(schema, DeskPart::Verdicts)
        && is_open(schema, DeskPart::Parked)
        && is_open(schema, DeskPart::Marks)
        && !lacks_sequence(schema)
}
