//! The rows of a desk's tables.

ghost use Rattle.std.specs.Prelude.{◌≡◌, IfOk, OnOk};
ghost use Rattle.sqlite.specs.State.{HasCleanDisk};
ghost use Rattle.sqlite.specs.Held.{state};
ghost use Rattle.store_tables.specs.SqliteStates.{IsUp, Rests};
ghost use Rattle.store_schema.specs.declared.part.DeskPart.TheVariants as part;
ghost use Rattle.store_schema.specs.Shapes.{FindsPart, HasCommon};
ghost use Rattle.store_opening.specs.private.Selecting.{ShowsRows, ShowsTexts};
ghost use Rattle.store_opening.specs.Opened.{Reads};

use crate::statements::rows_of;
use sqlite::{Alter, Connection, Error, Row};
use store_schema::DeskPart;

/// The rows of `desk` and of `messages`.
#[derive(Debug, Drop)]
pub(crate) struct Texts {
    pub(crate) desk: Vec<Row>,
    pub(crate) messages: Vec<Row>,
}

/// The rows that follow from the messages.
#[derive(Debug, Drop)]
pub(crate) struct Rows {
    pub(crate) names: Vec<Row>,
    pub(crate) verdicts: Vec<Row>,
    pub(crate) parked: Vec<Row>,
}

/// The rows of `desk` and of `messages`. The database stays as it is.
pub(crate) fn texts_of<S: Alter>(conn: &mut Connection<S>) -> Result<Texts, Error>
    requires rests { Rests (state S.Store conn.old) }
    requires found { IsUp (state S.Store conn.old) → HasCommon (state S.Store conn.old).now.schema }
    ensures reads { Reads (state S.Store conn.old) (state S.Store conn.new) }
    ensures up { HasCleanDisk (state S.Store conn.new)
        → OnOk result (IsUp (state S.Store conn.new)) }
    ensures shows { IsUp (state S.Store conn.new)
        → IfOk result (λ t. ShowsTexts (state S.Store conn.old).now t.desk.items t.messages.items) }
{
    let desk = rows_of(conn, DeskPart::Desk)?;
    let messages = rows_of(conn, DeskPart::Messages)?;
    Ok(Texts { desk, messages })
}

/// The rows that follow from the messages. The database stays as it is.
pub(crate) fn rows_beside<S: Alter>(conn: &mut Connection<S>) -> Result<Rows, Error>
    requires rests { Rests (state S.Store conn.old) }
    requires common { IsUp (state S.Store conn.old)
        → HasCommon (state S.Store conn.old).now.schema }
    requires verdicts { IsUp (state S.Store conn.old)
        → FindsPart (state S.Store conn.old).now.schema part.Verdicts }
    ensures reads { Reads (state S.Store conn.old) (state S.Store conn.new) }
    ensures up { HasCleanDisk (state S.Store conn.new)
        → OnOk result (IsUp (state S.Store conn.new)) }
    ensures shows { IsUp (state S.Store conn.new) → IfOk result (λ t.
        ShowsRows (state S.Store conn.old).now t.names.items t.verdicts.items t.parked.items) }
{
    let names = rows_of(conn, DeskPart::Names)?;
    let verdicts = rows_of(conn, DeskPart::Verdicts)?;
    let parked = rows_of(conn, DeskPart::Parked)?;
    Ok(Rows {
        names,
        verdicts,
        parked,
    })
}
