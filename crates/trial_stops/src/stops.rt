//! A stop at each call of a store's files.

use crate::left::{are_whole, closed_at, files_at, synced_in, written_in};
use desk::Refusal;
use desk_store::SqliteKeeper;
use sqlite::Alter;
use sqlite_disk::{Disk, Files};
use sqlite_store::FileStore;
use std::alloc::Global;
use std::fmt::Write as _;
use trial::calls::{Call, Ended, make_call};
use trial::deliveries::{Both, are_delivered, are_well, make_both, may_be_found};
use trial::files::{Fused, Fuses, Pair, Stopping, WHOLE, are_same, opened, opened_whole};
use trial::seeing::{Seen, seen_over};
use trial::states::State;
use trial::trouble::Trouble;

/// More calls of a file than any call here makes.
const MOST: u64 = 1_024;

/// A call, and the states in which the next opening may find the store.
#[derive(Clone, Copy)]
pub(crate) struct Case {
    pub(crate) call: Call,
    /// The state before the call.
    pub(crate) first: State,
    /// The state after the call's first commit.
    pub(crate) committed: State,
    /// The state after the whole call.
    pub(crate) second: State,
}

/// Which of the two files stops.
#[derive(Clone, Copy)]
enum Side {
    Log,
    Database,
}

/// How a call ended under which a file may have stopped.
#[derive(Clone, Copy, PartialEq, Eq)]
enum Made {
    /// One call, or the opening before it.
    Called(Ended),
    /// Two deliveries to one desk.
    Delivered(Both),
}

/// What one stop came to.
#[derive(Clone, Copy, PartialEq, Eq)]
struct Outcome {
    made: Made,
    /// The call ended before the fuse was blown.
    is_whole: bool,
    /// What is found in all that was written: the process ended.
    killed: Seen,
    /// What is found in what was synced: the power failed.
    cut: Seen,
}

/// What the stops after these numbers of calls came to.
#[derive(Clone, Copy)]
struct Row {
    from: u64,
    to: u64,
    outcome: Outcome,
}

/// How a call ended under which a file may have stopped, and what is left.
#[derive(Drop)]
struct Stop {
    made: Made,
    is_whole: bool,
    killed: Pair,
    cut: Pair,
}

/// What was looked at last, and what was found there.
#[derive(Drop)]
struct Last {
    left: Pair,
    seen: Seen,
}

/// What was looked at last after the process ended, and after the power failed.
#[derive(Drop)]
struct Lasts {
    killed: Last,
    cut: Last,
}

/// How many calls each file passes on where this one stops after so many.
fn fuses(side: Side, calls: u64) -> Fuses {
    match side {
        Side::Log => Fuses {
            log: calls,
            ..WHOLE
        },
        Side::Database => Fuses { db: calls, ..WHOLE },
    }
}

/// How the call ended, and what the files have.
fn stop_of(alloc: Global, made: Made, mut files: Files<Fused>) -> Result<Stop, Trouble> {
    let is_whole = are_whole(&mut files);
    let written = written_in(alloc, &files);
    let synced = synced_in(alloc, files);
    match (written, synced) {
        (Ok(killed), Ok(cut)) => Ok(Stop {
            made,
            is_whole,
            killed,
            cut,
        }),
        (one, other) => {
            drop(one);
            drop(other);
            Err(Trouble::NoMemory)
        }
    }
}

/// Makes both deliveries over the keeper.
fn both_over<S: Alter>(
    alloc: Global,
    keeper: SqliteKeeper<S>,
) -> (Result<Made, Trouble>, SqliteKeeper<S>) {
    let (both, keeper) = make_both(alloc, keeper);
    let made = match both {
        Ok(Ok(both)) => Ok(Made::Delivered(both)),
        Ok(Err(refusal)) => Ok(Made::Called(Ended::Refused(refusal))),
        Err(trouble) => Err(trouble),
    };
    (made, keeper)
}

/// Makes one call over the keeper.
fn one_over<S: Alter>(
    alloc: Global,
    keeper: SqliteKeeper<S>,
    call: Call,
) -> (Result<Made, Trouble>, SqliteKeeper<S>) {
    let (answer, keeper) = make_call(alloc, call, keeper);
    let made = match answer {
        Ok(answer) => Ok(Made::Called(answer)),
        Err(trouble) => Err(trouble),
    };
    (made, keeper)
}

/// Makes the call over the keeper, and gives its files up.
fn called<D: Disk + Drop>(
    alloc: Global,
    keeper: SqliteKeeper<FileStore<D>>,
    call: Call,
) -> (Result<Made, Trouble>, Files<D>) {
    let (made, keeper) = match call {
        Call::Both => both_over(alloc, keeper),
        _ => one_over(alloc, keeper, call),
    };
    (made, files_at(keeper))
}

/// Makes the call over the keeper, and ends there.
fn call_over(alloc: Global, keeper: Stopping, call: Call) -> Result<Stop, Trouble> {
    let (made, files) = called(alloc, keeper, call);
    match made {
        Ok(made) => stop_of(alloc, made, files),
        Err(trouble) => {
            drop(files);
            Err(trouble)
        }
    }
}

/// Makes the call over files of these bytes, which stop after so many calls.
fn stopped(alloc: Global, start: &Pair, call: Call, fuses: Fuses) -> Result<Stop, Trouble> {
    match opened(alloc, start, fuses)? {
        Ok(keeper) => call_over(alloc, keeper, call),
        Err(files) => stop_of(alloc, Made::Called(Ended::NotOpened), files),
    }
}

/// What a keeper over a database keeps, before and after the call: one function over any store.
fn seen_stored<S: Alter + Drop>(
    alloc: Global,
    keeper: SqliteKeeper<S>,
    call: Call,
) -> Result<Seen, Trouble> {
    seen_over(alloc, keeper, call)
}

/// What is found in a store of these bytes.
fn seen_in(alloc: Global, left: &Pair, call: Call) -> Result<Seen, Trouble> {
    match opened(alloc, left, WHOLE)? {
        Ok(keeper) => seen_stored(alloc, keeper, call),
        Err(files) => {
            drop(files);
            Ok(Seen {
                found: State::Other,
                again: Ended::NotOpened,
                then: State::Other,
            })
        }
    }
}

/// What is found in the bytes, which is known already if they were looked at last.
fn looked_at(alloc: Global, last: &mut Last, left: Pair, call: Call) -> Result<Seen, Trouble> {
    if are_same(&last.left, &left) {
        drop(left);
        return Ok(last.seen);
    }
    let seen = seen_in(alloc, &left, call);
    last.left = left;
    last.seen = seen?;
    Ok(last.seen)
}

/// What one stop comes to.
fn stop_once(
    alloc: Global,
    start: &Pair,
    call: Call,
    fuses: Fuses,
    lasts: &mut Lasts,
) -> Result<Outcome, Trouble> {
    let Stop {
        made,
        is_whole,
        killed,
        cut,
    } = stopped(alloc, start, call, fuses)?;
    let killed = looked_at(alloc, &mut lasts.killed, killed, call);
    let cut = looked_at(alloc, &mut lasts.cut, cut, call);
    Ok(Outcome {
        made,
        is_whole,
        killed: killed?,
        cut: cut?,
    })
}

/// Adds the outcome to the rows.
fn add_outcome(rows: &mut Vec<Row>, calls: u64, outcome: Outcome) -> Result<(), Trouble> {
    if let Some(row) = rows.last_mut() {
        if row.outcome == outcome {
            row.to = calls;
            return Ok(());
        }
    }
    rows.push(Row {
        from: calls,
        to: calls,
        outcome,
    })?;
    Ok(())
}

/// Adds what the stops after each number of calls of the file come to, until the call ends
/// untouched.
fn add_stops(
    alloc: Global,
    rows: &mut Vec<Row>,
    start: &Pair,
    call: Call,
    side: Side,
    lasts: &mut Lasts,
) -> Result<(), Trouble> {
    for calls in 0..MOST {
        let outcome = stop_once(alloc, start, call, fuses(side, calls), lasts)?;
        add_outcome(rows, calls, outcome)?;
        if outcome.is_whole {
            return Ok(());
        }
    }
    Ok(())
}

/// Whether the next opening may find this state: after a refused call, the state before it or after
/// its first commit; after two deliveries, a state that goes with their answers.
fn may_find(made: Made, found: State, case: Case) -> bool {
    match made {
        Made::Called(Ended::Done) => found == case.second,
        Made::Called(Ended::NotOpened) => found == case.first,
        Made::Called(Ended::Refused(Refusal::Storage)) => {
            found == case.first || found == case.committed
        }
        Made::Called(Ended::Refused(_)) => false,
        Made::Delivered(both) => may_be_found(both, found),
    }
}

/// Whether what was found may be found, and the same call once more is acknowledged and leads to
/// the second state.
fn is_seen_right(made: Made, seen: Seen, case: Case) -> bool {
    may_find(made, seen.found, case) && seen.again == Ended::Done && seen.then == case.second
}

/// Whether the call ended as it may. Where it ended untouched, it must end as without a fuse.
fn is_made_right(made: Made, is_whole: bool) -> bool {
    match made {
        Made::Called(answer) => !is_whole || answer == Ended::Done,
        Made::Delivered(both) => are_delivered(both) && (!is_whole || are_well(both)),
    }
}

/// Whether the call ended as it may, and what was found may be found then.
fn is_right(outcome: Outcome, case: Case) -> bool {
    let made = outcome.made;
    is_made_right(made, outcome.is_whole)
        && is_seen_right(made, outcome.killed, case)
        && is_seen_right(made, outcome.cut, case)
}

/// Adds how the call ended.
fn say_made(said: &mut String, made: Made) -> Result<(), Trouble> {
    match made {
        Made::Called(answer) => write!(said, "{answer}")?,
        Made::Delivered(both) => write!(said, "{both}")?,
    }
    Ok(())
}

/// Adds a row.
fn say_row(said: &mut String, row: Row, case: Case) -> Result<(), Trouble> {
    let Outcome {
        made,
        is_whole,
        killed,
        cut,
    } = row.outcome;
    write!(said, "    {} to {}: ", row.from, row.to)?;
    say_made(said, made)?;
    write!(
        said,
        "; killed: {}; power cut: {}; once more: {}, {}",
        killed.found, cut.found, killed.again, killed.then
    )?;
    if is_whole {
        said.push_str("; untouched")?;
    }
    said.push_str(if is_right(row.outcome, case) {
        "\n"
    } else {
        "; OTHERWISE\n"
    })?;
    Ok(())
}

/// Adds the rows. The last is to be that of a call that ends untouched.
fn say_rows(said: &mut String, rows: &[Row], case: Case) -> Result<(), Trouble> {
    for row in rows {
        say_row(said, *row, case)?;
    }
    if !rows.last().is_some_and(|row| row.outcome.is_whole) {
        said.push_str("    OTHERWISE: none ended untouched\n")?;
    }
    Ok(())
}

/// The bytes that were looked at last are those of the store at the start, in which this was found.
fn last_of(alloc: Global, start: &Pair, seen: Seen) -> Result<Last, Trouble> {
    Ok(Last {
        left: start.copy(alloc)?,
        seen,
    })
}

/// The same for the end of the process and for the power failure.
fn lasts_of(alloc: Global, start: &Pair, seen: Seen) -> Result<Lasts, Trouble> {
    let killed = last_of(alloc, start, seen)?;
    match last_of(alloc, start, seen) {
        Ok(cut) => Ok(Lasts { killed, cut }),
        Err(trouble) => {
            drop(killed);
            Err(trouble)
        }
    }
}

/// Adds what the stops of the file come to.
fn say_side(
    alloc: Global,
    said: &mut String,
    start: &Pair,
    case: Case,
    seen: Seen,
    side: Side,
) -> Result<(), Trouble> {
    said.push_str(match side {
        Side::Log => "  the log stops after so many calls\n",
        Side::Database => "  the database stops after so many calls\n",
    })?;
    let mut lasts = lasts_of(alloc, start, seen)?;
    let mut rows = Vec::new(alloc);
    let done = add_stops(alloc, &mut rows, start, case.call, side, &mut lasts);
    drop(lasts);
    let told = say_rows(said, rows.as_slice(), case);
    drop(rows);
    done?;
    told
}

/// Adds what is found after each stop of each file under the call.
pub(crate) fn say_stops(
    alloc: Global,
    said: &mut String,
    name: &str,
    start: &Pair,
    case: Case,
) -> Result<(), Trouble> {
    let seen = seen_in(alloc, start, case.call)?;
    let is_right = seen.found == case.first
        && seen.again == Ended::Done
        && seen.then == case.second;
    let mark = if is_right { "" } else { "; OTHERWISE" };
    write!(
        said,
        "{name}\n  before: {}; after: {}{mark}\n",
        seen.found, seen.then
    )?;
    say_side(alloc, said, start, case, seen, Side::Log)?;
    say_side(alloc, said, start, case, seen, Side::Database)
}

/// The bytes after the call, made without a stop, once the log is copied into the database.
pub(crate) fn after(alloc: Global, start: &Pair, call: Call) -> Result<Pair, Trouble> {
    let (answer, keeper) = make_call(alloc, call, opened_whole(alloc, start)?);
    let left = closed_at(alloc, keeper);
    match (answer, left) {
        (Ok(Ended::Done), left) => left,
        (_, left) => {
            drop(left);
            Err(Trouble::Refused)
        }
    }
}
