//! The statements that read a desk's tables.

ghost use Rattle.std.specs.Prelude.{◌≡◌, IfOk, OnOk};
ghost use Rattle.sqlite.specs.State.{HasCleanDisk};
ghost use Rattle.sqlite.specs.Held.{state};
ghost use Rattle.store_tables.specs.SqliteStates.{IsUp, Rests};
ghost use Rattle.store_schema.specs.Shapes.{FindsPart};
ghost use Rattle.store_opening.specs.Statements.{select_of};
ghost use Rattle.store_opening.specs.private.Selecting.{ShowsPart};
ghost use Rattle.store_opening.specs.Opened.{Reads};

use sqlite::{Alter, Connection, Error, Row};
use store_schema::DeskPart;

/// The statement that shows the rows of the table.
pub fn select_of(part: DeskPart) -> &'static str
    ensures { result.now ≡ select_of part }
{
    match part {
        DeskPart::Desk => "SELECT id, schema, roster FROM desk",
        DeskPart::Messages => "SELECT body FROM messages",
        DeskPart::Names => "SELECT rowid, asker, no, body, disputed FROM names",
        DeskPart::Marks => "SELECT rowid FROM marks",
        DeskPart::Verdicts => "SELECT rowid, asker, no, person, kind, at FROM verdicts",
        DeskPart::Parked => "SELECT rowid, body, asker, no FROM parked",
    }
}

/// The rows of the table. The database stays as it is.
pub(crate) fn rows_of<S: Alter>(conn: &mut Connection<S>, part: DeskPart) -> Result<Vec<Row>, Error>
    requires rests { Rests (state S.Store conn.old) }
    requires found { IsUp (state S.Store conn.old)
        → FindsPart (state S.Store conn.old).now.schema part }
    ensures reads { Reads (state S.Store conn.old) (state S.Store conn.new) }
    ensures up { HasCleanDisk (state S.Store conn.new)
        → OnOk result (IsUp (state S.Store conn.new)) }
    ensures shows { IsUp (state S.Store conn.new)
        → IfOk result (λ rows. ShowsPart part (state S.Store conn.old).now rows.items) }
{
    conn.query_all(select_of(part), &[])
}
