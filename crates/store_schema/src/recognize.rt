//! What a schema has: a desk's tables, an older desk's, none of their names, or something else.

ghost use Rattle.std.specs.Prelude.{◌≡◌, ◌↔◌, ◌==◌, IsTrue};
ghost use Rattle.std.specs.List.{position_from};
ghost use Rattle.store_schema.specs.Shapes.{FindsPart, HasCommon, IsShape, IsVacant, Lacks};

use crate::part::{DeskPart, part_name};
use crate::shape::Shape;
use crate::tables::is_part;
use sqlite_schema::schema::{Schema, Table};

/// No table of a file has a tree from this number on.
const PAST_STORED: u32 = 2_147_483_648;

/// The place of the first table with this tree.
fn first_at(tables: &[Table], tree: u32) -> Option<usize>
    ensures { result ≡ position_from (λ t. t.tree == tree) 0 tables.now }
{
    tables.iter().position(|t| t.tree == tree)
}

/// Whether the schema finds the table by its name, and by its tree.
fn has(schema: &Schema, part: DeskPart) -> bool
    ensures found { IsTrue result → FindsPart schema.now part }
    ensures only { FindsPart schema.now part → IsTrue result }
{
    let Some(at) = schema.table_named(part_name(part)) else {
        return false;
    };
    let tables = schema.tables.as_slice();
    let Some(table) = tables.get(at) else {
        return false;
    };
    if !is_part(table, part) || table.tree >= PAST_STORED {
        return false;
    }
    match first_at(tables, table.tree) {
        Some(first) => first == at,
        None => false,
    }
}

/// Whether the table's name is unused.
pub(crate) fn lacks(schema: &Schema, part: DeskPart) -> bool
    ensures { IsTrue result ↔ Lacks schema.now part }
{
    let name = part_name(part);
    schema.table_named(name).is_none()
        && schema.view_named(name).is_none()
        && schema.index_named(name).is_none()
}

fn is_vacant(schema: &Schema) -> bool
    ensures { IsTrue result ↔ IsVacant schema.now }
{
    lacks(schema, DeskPart::Desk)
        && lacks(schema, DeskPart::Messages)
        && lacks(schema, DeskPart::Names)
        && lacks(schema, DeskPart::Marks)
        && lacks(schema, DeskPart::Verdicts)
        && lacks(schema, DeskPart::Parked)
}

fn has_common(schema: &Schema) -> bool
    ensures found { IsTrue result → HasCommon schema.now }
    ensures only { HasCommon schema.now → IsTrue result }
{
    has(schema, DeskPart::Desk)
        && has(schema, DeskPart::Messages)
        && has(schema, DeskPart::Names)
        && has(schema, DeskPart::Parked)
}

/// Tells what the schema has of a desk's tables, beside any others.
pub fn shape_of(schema: &Schema) -> Shape
    ensures { IsShape schema.now result }
{
    if is_vacant(schema) {
        return Shape::Free;
    }
    if !has_common(schema) {
        return Shape::Other;
    }
    if has(schema, DeskPart::Verdicts) {
        if lacks(schema, DeskPart::Marks) {
            return Shape::Desk;
        }
        if has(schema, DeskPart::Marks) {
            return Shape::Migrated;
        }
        return Shape::Other;
    }
    if lacks(schema, DeskPart::Verdicts) && has(schema, DeskPart::Marks) {
        return Shape::Old;
    }
    Shape::Other
}
