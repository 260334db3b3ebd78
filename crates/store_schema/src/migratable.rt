//! Whether an older desk's tables can become those of a desk of today.

ghost use Rattle.std.specs.Prelude.{◌↔◌, IsTrue};
ghost use Rattle.store_schema.specs.Migratable.{IsMigratable};

use crate::part::{DeskPart, part_name};
use crate::ready::{is_parent, lacks_sequence};
use crate::references::is_unreferred;
use sqlite_schema::schema::Schema;

/// Whether an older desk can become one of today: no foreign key refers to the tables that lose
/// rows, or waits for `verdicts`, and where a table counts by AUTOINCREMENT, the table of the
/// counts is there.
pub fn is_migratable(schema: &Schema) -> bool
    ensures { IsTrue result ↔ IsMigratable schema.now }
{
    is_unreferred(schema, DeskPart::Desk)
        && is_unreferred(schema, DeskPart::Names)
        && is_unreferred(schema, DeskPart::Marks)
        && is_unreferred(schema, DeskPart::Parked)
        && !is_parent(schema, part_name(DeskPart::Verdicts))
        && !lacks_sequence(schema)
}
