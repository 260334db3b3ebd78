//! How an arriving message changes a desk's tables, within a transaction.

ghost use Rattle.std.specs.Prelude.{◌≡◌, true, IfErr, IfOk, IsTrue, OnOk};
ghost use Rattle.sqlite.specs.Held.{state};
ghost use Rattle.messages.specs.Fields.{IsRequest};
ghost use Rattle.messages.specs.Names.{name_of};
ghost use Rattle.messages.specs.Wire.{wire};
ghost use Rattle.messages.specs.declared.message.Message.TheVariants as message_of;
ghost use Rattle.store_tables.specs.Rows.{verdict_row, parked_row};
ghost use Rattle.store_tables.specs.Arrivals.{IsTold};
ghost use Rattle.store_tables.specs.Causes.{IsExplained};
ghost use Rattle.store_tables.specs.Kept.{IsDeskDatabase};
ghost use Rattle.store_tables.specs.Stored.{IsWritten, content_of, has};
ghost use Rattle.store_tables.specs.private.Changes.{Gains};
ghost use Rattle.store_tables.specs.Steps.{InStep, TakesStep};
ghost use Rattle.store_tables.specs.private.Turning.{JoinedParked, JoinsAll, JoinsOne};
ghost use Rattle.store_tables.specs.private.Turning.{Received, Renames, Rowwise, Settled};
ghost use Rattle.store_tables.specs.private.Turning.{ShowsVerdict, Stays, Turned};

use crate::fault::Fault;
use crate::statements::{
    has_name, has_text, parked_of, put_name, put_parked, put_text, put_verdict, take_name,
    take_parked,
};
use messages::{Message, MessageFault, Request, Verdict, read_message};
use sqlite::{Alter, Row, Transaction};
use sqlite_value::value::ValueRef;
use std::alloc::Global;

/// What an arrival tells of its message.
#[derive(Clone, Copy, Debug, PartialEq, Eq)]
pub enum Arrival {
    /// The message was not there before.
    New,
    /// The message was there already, and nothing changed.
    Held,
}

/// Adds the verdict's row to `verdicts`.
fn count_verdict<S: Alter>(tx: &mut Transaction<'_, S>, verdict: &Verdict) -> Result<(), Fault>
    ensures turned { InStep (state S.Store tx.old.conn.now) (state S.Store tx.new.conn.now)
        (λ a b. OnOk result (Turned Stays (Rowwise (Gains (verdict_row verdict.now))) Stays a b)) }
    ensures step { TakesStep S.Store tx.old tx.new }
{
    let at = verdict.at().secs() as u32;
    put_verdict(
        tx,
        verdict.of().as_str(),
        verdict.no(),
        verdict.by().as_str(),
        verdict.kind().word(),
        at,
    )?;
    Ok(())
}

/// Adds the verdict's row to `parked`.
fn park<S: Alter>(tx: &mut Transaction<'_, S>, verdict: &Verdict, body: &str) -> Result<(), Fault>
    requires { body.now ≡ wire (message_of.Verdict verdict.now) }
    ensures turned { InStep (state S.Store tx.old.conn.now) (state S.Store tx.new.conn.now)
        (λ a b. OnOk result (Turned Stays Stays (Rowwise (Gains (parked_row verdict.now))) a b)) }
    ensures step { TakesStep S.Store tx.old tx.new }
{
    put_parked(tx, body, verdict.of().as_str(), verdict.no())?;
    Ok(())
}

/// Settles a new verdict: its row goes into `verdicts` if its name has a request, and into `parked`
/// if it has none.
fn settle_verdict<S: Alter>(
    tx: &mut Transaction<'_, S>,
    verdict: &Verdict,
    body: &str,
) -> Result<(), Fault>
    requires { body.now ≡ wire (message_of.Verdict verdict.now) }
    ensures settled { InStep (state S.Store tx.old.conn.now) (state S.Store tx.new.conn.now)
        (λ a b. OnOk result (Settled (message_of.Verdict verdict.now) a b)) }
    ensures step { TakesStep S.Store tx.old tx.new }
{
    if has_name(tx, verdict.of().as_str(), verdict.no())? {
        count_verdict(tx, verdict)
    } else {
        park(tx, verdict, body)
    }
}

/// Replaces the name's row, if the name has one, by the request's. The new row is disputed if there
/// was a row before.
fn rename<S: Alter>(tx: &mut Transaction<'_, S>, request: &Request, body: &str) -> Result<(), Fault>
    requires { body.now ≡ wire (message_of.Request request.now) }
    ensures turned { InStep (state S.Store tx.old.conn.now) (state S.Store tx.new.conn.now)
        (λ a b. OnOk result (Turned (Rowwise (Renames request.now)) Stays Stays a b)) }
    ensures request { IsRequest request.now }
    ensures step { TakesStep S.Store tx.old tx.new }
{
    let disputed = has_name(tx, request.by().as_str(), request.no())?;
    take_name(tx, request.by().as_str(), request.no())?;
    put_name(tx, request.by().as_str(), request.no(), body, disputed)?;
    Ok(())
}

/// The verdict whose text the row shows.
fn verdict_in(alloc: Global, row: &Row) -> Result<Verdict, Fault>
    ensures { IfOk result (ShowsVerdict row.now) }
{
    let Ok(ValueRef::Text(bytes)) = row.get_ref(0) else {
        return Err(Fault::Stray);
    };
    match read_message(alloc, bytes) {
        Ok(Message::Verdict(verdict)) => Ok(verdict),
        Ok(Message::Request(_)) => Err(Fault::Stray),
        Err(MessageFault::NoMemory) => Err(Fault::NoMemory),
        Err(_) => Err(Fault::Stray),
    }
}

/// Adds to `verdicts` the row of the verdict whose text this row shows.
fn join_one<S: Alter>(alloc: Global, tx: &mut Transaction<'_, S>, row: &Row) -> Result<(), Fault>
    ensures turned { InStep (state S.Store tx.old.conn.now) (state S.Store tx.new.conn.now)
        (λ a b. OnOk result (Turned Stays (Rowwise (JoinsOne row.now)) Stays a b)) }
    ensures step { TakesStep S.Store tx.old tx.new }
{
    let verdict = verdict_in(alloc, row)?;
    count_verdict(tx, &verdict)
}

/// Adds to `verdicts` the rows of the verdicts whose texts these rows show.
fn join<S: Alter>(alloc: Global, tx: &mut Transaction<'_, S>, rows: &[Row]) -> Result<(), Fault>
    ensures turned { InStep (state S.Store tx.old.conn.now) (state S.Store tx.new.conn.now)
        (λ a b. OnOk result (Turned Stays (Rowwise (JoinsAll rows.now)) Stays a b)) }
    ensures step { TakesStep S.Store tx.old tx.new }
{
    for row in rows {
        join_one(alloc, tx, row)?;
    }
    Ok(())
}

/// Moves the name's parked verdicts to `verdicts`.
fn join_parked<S: Alter>(
    alloc: Global,
    tx: &mut Transaction<'_, S>,
    request: &Request,
) -> Result<(), Fault>
    ensures joined { InStep (state S.Store tx.old.conn.now) (state S.Store tx.new.conn.now)
        (λ a b. OnOk result (JoinedParked (name_of request.now) a b)) }
    ensures step { TakesStep S.Store tx.old tx.new }
{
    let rows = parked_of(tx, request.by().as_str(), request.no())?;
    join(alloc, tx, rows.as_slice())?;
    take_parked(tx, request.by().as_str(), request.no())?;
    Ok(())
}

/// Settles a new request: its name gets its row, and the verdicts that waited for it move to
/// `verdicts`.
fn settle_request<S: Alter>(
    alloc: Global,
    tx: &mut Transaction<'_, S>,
    request: &Request,
    body: &str,
) -> Result<(), Fault>
    requires { body.now ≡ wire (message_of.Request request.now) }
    ensures settled { InStep (state S.Store tx.old.conn.now) (state S.Store tx.new.conn.now)
        (λ a b. OnOk result (Settled (message_of.Request request.now) a b)) }
    ensures step { TakesStep S.Store tx.old tx.new }
{
    rename(tx, request, body)?;
    join_parked(alloc, tx, request)
}

/// Settles a new message: the rows become those of all the messages, including this one.
pub(crate) fn settle<S: Alter>(
    alloc: Global,
    tx: &mut Transaction<'_, S>,
    message: &Message,
    body: &str,
) -> Result<(), Fault>
    requires { body.now ≡ wire message.now }
    ensures settled { InStep (state S.Store tx.old.conn.now)
        (state S.Store tx.new.conn.now) (λ a b. OnOk result (Settled message.now a b)) }
    ensures step { TakesStep S.Store tx.old tx.new }
{
    match message {
        Message::Request(request) => settle_request(alloc, tx, request, body),
        Message::Verdict(verdict) => settle_verdict(tx, verdict, body),
    }
}

/// Takes a message in. A message that is there already changes nothing.
pub(crate) fn receive<S: Alter>(
    alloc: Global,
    tx: &mut Transaction<'_, S>,
    message: &Message,
    body: &str,
) -> Result<Arrival, Fault>
    requires text { body.now ≡ wire message.now }
    requires written { IsWritten body.now }
    ensures received { InStep (state S.Store tx.old.conn.now)
        (state S.Store tx.new.conn.now) (λ a b. OnOk result (Received body.now a b)) }
    ensures told { InStep (state S.Store tx.old.conn.now) (state S.Store tx.new.conn.now)
        (λ a b. IfOk result (λ arrival. IsDeskDatabase a.now
        → IsTold (has (content_of a.now) body.now ≡ true) arrival)) }
    // Why a message that is there already is refused.
    ensures explained { InStep (state S.Store tx.old.conn.now) (state S.Store tx.new.conn.now)
        (λ a b. IfErr result (λ e. IsTrue a.is_open → IsDeskDatabase a.now
        → has (content_of a.now) body.now ≡ true → IsExplained a b e)) }
    ensures step { TakesStep S.Store tx.old tx.new }
{
    if has_text(tx, body)? {
        return Ok(Arrival::Held);
    }
    put_text(tx, body)?;
    settle(alloc, tx, message, body)?;
    Ok(Arrival::New)
}
