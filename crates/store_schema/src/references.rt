//! Foreign keys that refer to a desk's tables.

ghost use Rattle.std.specs.Prelude.{◌≡◌, ◌↔◌, IsTrue, option_copied};
ghost use Rattle.std.specs.List.{list_any};
ghost use Rattle.store_tables.specs.Stored.{is_in, is_referred, parent_of, tree_of, IsUnreferred};
ghost use Rattle.store_schema.specs.Parts.{part_name};
ghost use Rattle.store_schema.specs.References.{AreUnreferred};

use crate::part::{DeskPart, part_name};
use sqlite_schema::names::same_name;
use sqlite_schema::schema::{Reference, Schema, Table};

/// The table that the foreign key names as its parent.
fn parent_in<'a>(tables: &'a [Table], reference: &Reference) -> Option<&'a Table>
    ensures { option_copied result ≡ parent_of tables.now reference.now }
{
    let name = reference.parent.as_slice();
    tables.iter().find(|t| same_name(t.name.as_slice(), name))
}

/// Whether the foreign key names the table of this tree as its parent.
fn is_to(tables: &[Table], reference: &Reference, tree: u32) -> bool
    ensures { result ≡ is_in (parent_of tables.now reference.now) tree }
{
    match parent_in(tables, reference) {
        Some(parent) => parent.tree == tree,
        None => false,
    }
}

fn has_one_to(tables: &[Table], table: &Table, tree: u32) -> bool
    ensures { result
        ≡ list_any (λ ref. is_in (parent_of tables.now ref) tree) table.now.references }
{
    table
        .references
        .as_slice()
        .iter()
        .any(|reference| is_to(tables, reference, tree))
}

/// Whether a foreign key of some table refers to the table of this tree.
fn is_referred(schema: &Schema, tree: u32) -> bool
    ensures { result ≡ is_referred schema.now tree }
{
    let tables = schema.tables.as_slice();
    tables.iter().any(|table| has_one_to(tables, table, tree))
}

/// The tree of the part's table, where it is there.
fn tree_of(schema: &Schema, part: DeskPart) -> u32
    ensures { result ≡ tree_of schema.now (part_name part) }
{
    let Some(at) = schema.table_named(part_name(part)) else {
        return 0;
    };
    match schema.tables.as_slice().get(at) {
        Some(table) => table.tree,
        None => 0,
    }
}

pub(crate) fn is_unreferred(schema: &Schema, part: DeskPart) -> bool
    ensures { IsTrue result ↔ IsUnreferred schema.now (tree_of schema.now (part_name part)) }
{
    !is_referred(schema, tree_of(schema, part))
}

/// Whether no foreign key refers to a desk's tables that lose rows.
pub fn are_unreferred(schema: &Schema) -> bool
    ensures { IsTrue result ↔ AreUnreferred schema.now }
{
    is_unreferred(schema, DeskPart::Desk)
        && is_unreferred(schema, DeskPart::Names)
        && is_unreferred(schema, DeskPart::Verdicts)
        && is_unreferred(schema, DeskPart::Parked)
}
