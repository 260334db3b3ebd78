//! The statements of a transaction on a desk's tables, each in a function of its own.

ghost use Rattle.std.specs.Prelude.{codes, IfErr, IfOk, IsTrue, OnOk};
ghost use Rattle.sqlite.specs.Held.{state};
ghost use Rattle.store_tables.specs.Rows.{OfName};
ghost use Rattle.store_tables.specs.Causes.{IsExplained};
ghost use Rattle.store_tables.specs.Kept.{IsKeyed, IsTidy};
ghost use Rattle.store_tables.specs.private.Changes.{Gains, Loses};
ghost use Rattle.store_tables.specs.Steps.{InStep, TakesStep};
ghost use Rattle.store_tables.specs.private.Stepping.{Finds, FindsParked, FindsText};
ghost use Rattle.store_tables.specs.Steps.{IsBare, Marked, Says};
ghost use Rattle.store_tables.specs.private.Stepping.{Wrote, WroteText};
ghost use Rattle.store_tables.specs.private.Stepping.{name_values, verdict_values, parked_values};
ghost use Rattle.store_tables.specs.declared.fault.Fault.TheVariants as fault;

use sqlite::{Alter, Error, Row, Transaction, params};

/// Whether the messages have the text. The database stays as it is.
pub(crate) fn has_text<S: Alter>(tx: &mut Transaction<'_, S>, text: &str) -> Result<bool, Error>
    ensures finds { InStep (state S.Store tx.old.conn.now) (state S.Store tx.new.conn.now)
        (λ a b. IfOk result (λ told. FindsText text.now told a b)) }
    ensures explained { InStep (state S.Store tx.old.conn.now) (state S.Store tx.new.conn.now)
        (λ a b. IfErr result (λ e. IsTrue a.is_open → IsTidy a.now
        → IsExplained a b (fault.Database e))) }
    ensures step { TakesStep S.Store tx.old tx.new }
{
    let rows = tx.query_all("SELECT body FROM messages WHERE body = ?1", params![text])?;
    Ok(!rows.is_empty())
}

/// Inserts the text of a message that the messages do not have.
pub(crate) fn put_text<S: Alter>(tx: &mut Transaction<'_, S>, text: &str) -> Result<usize, Error>
    ensures wrote { InStep (state S.Store tx.old.conn.now)
        (state S.Store tx.new.conn.now) (λ a b. OnOk result (WroteText text.now a b)) }
    ensures step { TakesStep S.Store tx.old tx.new }
{
    tx.execute("INSERT INTO messages (body) VALUES (?1)", params![text])
}

/// Inserts a name's row.
pub(crate) fn put_name<S: Alter>(
    tx: &mut Transaction<'_, S>,
    asker: &str,
    number: u32,
    body: &str,
    disputed: bool,
) -> Result<usize, Error>
    ensures wrote { InStep (state S.Store tx.old.conn.now) (state S.Store tx.new.conn.now)
        (λ a b. OnOk result
        (Wrote (codes "names") (Gains (name_values asker.now number body.now disputed)) a b)) }
    ensures step { TakesStep S.Store tx.old tx.new }
{
    tx.execute(
        "INSERT INTO names (asker, no, body, disputed) VALUES (?1, ?2, ?3, ?4)",
        params![asker, number, body, disputed],
    )
}

/// Inserts the row of a verdict whose name has a request.
pub(crate) fn put_verdict<S: Alter>(
    tx: &mut Transaction<'_, S>,
    asker: &str,
    number: u32,
    person: &str,
    kind: &str,
    at: u32,
) -> Result<usize, Error>
    ensures wrote { InStep (state S.Store tx.old.conn.now) (state S.Store tx.new.conn.now)
        (λ a b. OnOk result (Wrote (codes "verdicts")
        (Gains (verdict_values asker.now number person.now kind.now at)) a b)) }
    ensures step { TakesStep S.Store tx.old tx.new }
{
    tx.execute(
        "INSERT INTO verdicts (asker, no, person, kind, at) VALUES (?1, ?2, ?3, ?4, ?5)",
        params![asker, number, person, kind, at],
    )
}

/// Inserts the row of a verdict whose name has no request.
pub(crate) fn put_parked<S: Alter>(
    tx: &mut Transaction<'_, S>,
    body: &str,
    asker: &str,
    number: u32,
) -> Result<usize, Error>
    ensures wrote { InStep (state S.Store tx.old.conn.now) (state S.Store tx.new.conn.now)
        (λ a b. OnOk result
        (Wrote (codes "parked") (Gains (parked_values body.now asker.now number)) a b)) }
    ensures step { TakesStep S.Store tx.old tx.new }
{
    tx.execute(
        "INSERT INTO parked (body, asker, no) VALUES (?1, ?2, ?3)",
        params![body, asker, number],
    )
}

/// Deletes the name's row, if it has one.
pub(crate) fn take_name<S: Alter>(
    tx: &mut Transaction<'_, S>,
    asker: &str,
    number: u32,
) -> Result<usize, Error>
    ensures wrote { InStep (state S.Store tx.old.conn.now) (state S.Store tx.new.conn.now)
        (λ a b. OnOk result
        (Wrote (codes "names") (Loses (OfName 0 (record { by = asker.now; no = number }))) a b)) }
    ensures step { TakesStep S.Store tx.old tx.new }
{
    tx.execute(
        "DELETE FROM names WHERE asker = ?1 AND no = ?2",
        params![asker, number],
    )
}

/// Deletes the name's parked verdicts.
pub(crate) fn take_parked<S: Alter>(
    tx: &mut Transaction<'_, S>,
    asker: &str,
    number: u32,
) -> Result<usize, Error>
    ensures wrote { InStep (state S.Store tx.old.conn.now) (state S.Store tx.new.conn.now)
        (λ a b. OnOk result
        (Wrote (codes "parked") (Loses (OfName 1 (record { by = asker.now; no = number }))) a b)) }
    ensures step { TakesStep S.Store tx.old tx.new }
{
    tx.execute(
        "DELETE FROM parked WHERE asker = ?1 AND no = ?2",
        params![asker, number],
    )
}

/// Whether the name has a row. The database stays as it is.
pub(crate) fn has_name<S: Alter>(
    tx: &mut Transaction<'_, S>,
    asker: &str,
    number: u32,
) -> Result<bool, Error>
    ensures finds { InStep (state S.Store tx.old.conn.now) (state S.Store tx.new.conn.now)
        (λ a b. IfOk result (λ told. Finds (record { by = asker.now; no = number }) told a b)) }
    ensures step { TakesStep S.Store tx.old tx.new }
{
    let rows = tx.query_all(
        "SELECT body FROM names WHERE asker = ?1 AND no = ?2",
        params![asker, number],
    )?;
    Ok(!rows.is_empty())
}

/// The bodies of the name's parked verdicts. The database stays as it is.
pub(crate) fn parked_of<S: Alter>(
    tx: &mut Transaction<'_, S>,
    asker: &str,
    number: u32,
) -> Result<Vec<Row>, Error>
    ensures finds { InStep (state S.Store tx.old.conn.now) (state S.Store tx.new.conn.now) (λ a b.
        IfOk result (λ rows. FindsParked (record { by = asker.now; no = number }) rows.items a b)) }
    ensures step { TakesStep S.Store tx.old tx.new }
{
    tx.query_all(
        "SELECT body FROM parked WHERE asker = ?1 AND no = ?2",
        params![asker, number],
    )
}

/// Deletes the row of `desk`.
pub(crate) fn clear_desk<S: Alter>(tx: &mut Transaction<'_, S>) -> Result<usize, Error>
    ensures marked { InStep (state S.Store tx.old.conn.now)
        (state S.Store tx.new.conn.now) (λ a b. OnOk result (Marked IsKeyed IsBare a b)) }
    ensures step { TakesStep S.Store tx.old tx.new }
{
    tx.execute("DELETE FROM desk", &[])
}

/// Inserts the row of `desk`, with the roster's text, if there is none.
pub fn put_roster<S: Alter>(tx: &mut Transaction<'_, S>, roster: &str) -> Result<usize, Error>
    ensures marked { InStep (state S.Store tx.old.conn.now) (state S.Store tx.new.conn.now)
        (λ a b. OnOk result (Marked IsBare (Says roster.now) a b)) }
    ensures step { TakesStep S.Store tx.old tx.new }
{
    tx.execute(
        "INSERT INTO desk (id, schema, roster) VALUES (1, 2, ?1)",
        params![roster],
    )
}
