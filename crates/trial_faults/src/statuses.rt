//! What a request comes to.

use desk::{Desk, MemoryKeeper};
use std::alloc::Global;
use std::fmt::Write as _;
use trial::asking::{ask_rules, ask_status};
use trial::calls::{Ended, deliver};
use trial::texts::{REQUEST, Rules, parts};
use trial::trouble::Trouble;

/// Verdicts on the request, each of a kind, a person and a moment, with a comma between; and a bar
/// between the rows.
const VERDICTS: &str =
    "|approve bob 20260105083000Z|refuse dave 20260105083000Z,approve bob 20260105083000Z|approve bob 20260105083000Z,refuse dave 20260105083001Z|approve bob 20260105083000Z,refuse carol 20260105080000Z|revoke carol 20260105100000Z,approve bob 20260105083000Z|approve bob 20260105083000Z,revoke ann 19700101000000Z|approve bob 20260105110001Z|approve ann 20260105080000Z";

/// A desk in memory that holds nothing.
fn fresh(alloc: Global) -> Result<Desk<MemoryKeeper>, Trouble> {
    let (roster, base) = parts(alloc, Rules::Full)?;
    match Desk::open(alloc, roster, base, MemoryKeeper::new(alloc)) {
        Ok(desk) => Ok(desk),
        Err((_, keeper)) => {
            drop(keeper);
            Err(Trouble::Refused)
        }
    }
}

/// The text of a verdict.
fn verdict(alloc: Global, row: &str) -> Result<String, Trouble> {
    let mut words = row.split(' ');
    let (Some(kind), Some(by), Some(at)) = (words.next(), words.next(), words.next()) else {
        return Err(Trouble::BadText);
    };
    Ok(format!(in alloc;
        "{{\"at\":\"{at}\",\"by\":\"{by}\",\"kind\":\"{kind}\",\"no\":7,\"of\":\"ann\"}}"
    )?)
}

/// Delivers a message that is to be acknowledged.
fn deliver_well(desk: &mut Desk<MemoryKeeper>, body: &str) -> Result<(), Trouble> {
    match deliver(desk, body) {
        Ended::Done => Ok(()),
        Ended::Refused(_) | Ended::NotOpened => Err(Trouble::Refused),
    }
}

/// Delivers a verdict.
fn deliver_verdict(alloc: Global, desk: &mut Desk<MemoryKeeper>, row: &str) -> Result<(), Trouble> {
    let text = verdict(alloc, row)?;
    let done = deliver_well(desk, text.as_str());
    drop(text);
    done
}

/// Delivers the request and these verdicts on it, and adds what the request comes to, and how many
/// rules it gives.
fn deliver_row(
    alloc: Global,
    said: &mut String,
    desk: &mut Desk<MemoryKeeper>,
    row: &str,
) -> Result<(), Trouble> {
    deliver_well(desk, REQUEST)?;
    for given in row.split(',') {
        if !given.is_empty() {
            deliver_verdict(alloc, desk, given)?;
        }
    }
    write!(said, "  {row}: ")?;
    ask_status(alloc, said, desk, 7)?;
    ask_rules(alloc, said, desk)?;
    said.push_str("\n")?;
    Ok(())
}

/// Adds what the request comes to with these verdicts.
fn say_row(alloc: Global, said: &mut String, row: &str) -> Result<(), Trouble> {
    let mut desk = fresh(alloc)?;
    let done = deliver_row(alloc, said, &mut desk, row);
    drop(desk.into_keeper());
    done
}

/// Adds what the request comes to with each list of verdicts.
pub(crate) fn say_statuses(alloc: Global, said: &mut String) -> Result<(), Trouble> {
    said.push_str("What the request comes to with these verdicts\n")?;
    for row in VERDICTS.split('|') {
        say_row(alloc, said, row)?;
    }
    Ok(())
}
