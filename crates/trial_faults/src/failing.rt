//! Two deliveries over a keeper that fails from some call on.

use desk::{Keeper, MemoryKeeper, Refusal};
use desk_store::{FailingKeeper, SqliteKeeper};
use sqlite::Alter;
use std::alloc::Global;
use std::fmt::Write as _;
use trial::calls::{Call, Ended};
use trial::deliveries::{Both, are_delivered, are_well, make_both};
use trial::files::{empty, opened_whole};
use trial::seeing::{Seen, seen_over};
use trial::states::State;
use trial::trouble::Trouble;

/// More calls of a keeper than the two deliveries make.
const MOST: u64 = 32;

/// What the deliveries came to over a keeper that fails after so many calls.
#[derive(Clone, Copy)]
struct Outcome {
    /// Both deliveries, or how the opening was refused.
    made: Result<Both, Refusal>,
    failures: u64,
    /// What is kept, and what is kept after the same deliveries once more, without a fault.
    kept: Seen,
}

/// What the deliveries come to where the keeper fails after so many calls.
fn outcome_of<K: Keeper + Drop>(alloc: Global, calls: u64, keeper: K) -> Result<Outcome, Trouble> {
    let (made, failing) = make_both(alloc, FailingKeeper::new(keeper, calls));
    let failures = failing.failures();
    let kept = seen_over(alloc, failing.into_inner(), Call::Both);
    Ok(Outcome {
        made: made?,
        failures,
        kept: kept?,
    })
}

/// Whether the keeper keeps what was acknowledged, and nothing else.
fn is_kept(made: Result<Both, Refusal>, kept: State) -> bool {
    match made {
        Err(refusal) => {
            refusal == Refusal::Storage && (kept == State::Nothing || kept == State::Fresh)
        }
        Ok(both) => {
            are_delivered(both)
                && kept
                    == if both.request.answer == Ended::Done {
                        State::Granted
                    } else if both.approval.answer == Ended::Done {
                        State::Parked
                    } else {
                        State::Fresh
                    }
        }
    }
}

/// Whether both deliveries were acknowledged and answered, if no call of the keeper failed.
fn is_well(outcome: Outcome) -> bool {
    match outcome.made {
        Ok(both) => are_well(both) || outcome.failures > 0,
        Err(_) => outcome.failures > 0,
    }
}

/// Whether only what was acknowledged is kept, nothing was refused without a failed call, and both
/// deliveries once more are acknowledged and lead to what they come to without a fault.
fn is_right(outcome: Outcome) -> bool {
    let kept = outcome.kept;
    is_kept(outcome.made, kept.found)
        && is_well(outcome)
        && kept.again == Ended::Done
        && kept.then == State::Granted
}

/// Adds how both deliveries ended.
fn say_made(said: &mut String, made: Result<Both, Refusal>) -> Result<(), Trouble> {
    match made {
        Err(refusal) => write!(said, "not opened, {refusal}")?,
        Ok(both) => write!(said, "{both}")?,
    }
    Ok(())
}

/// Adds what the deliveries came to.
fn say_outcome(said: &mut String, calls: u64, outcome: Outcome) -> Result<(), Trouble> {
    write!(said, "  {calls}: ")?;
    say_made(said, outcome.made)?;
    let Seen { found, again, then } = outcome.kept;
    write!(
        said,
        "; failures {}; kept: {found}; both once more: {again}, then {then}",
        outcome.failures
    )?;
    said.push_str(if is_right(outcome) {
        "\n"
    } else {
        "; OTHERWISE\n"
    })?;
    Ok(())
}

/// Adds what the deliveries come to where the keeper fails after so many calls; answers whether no
/// call failed.
fn say_failing<K: Keeper + Drop>(
    alloc: Global,
    said: &mut String,
    calls: u64,
    keeper: K,
) -> Result<bool, Trouble> {
    let outcome = outcome_of(alloc, calls, keeper)?;
    say_outcome(said, calls, outcome)?;
    Ok(outcome.failures == 0)
}

/// Adds what the two deliveries come to over a keeper in memory that fails after each number of
/// calls, until none fails.
pub(crate) fn say_in_memory(alloc: Global, said: &mut String) -> Result<(), Trouble> {
    said.push_str("A keeper in memory fails after so many calls\n")?;
    for calls in 0..MOST {
        if say_failing(alloc, said, calls, MemoryKeeper::new(alloc))? {
            return Ok(());
        }
    }
    said.push_str("  OTHERWISE: each run fails\n")?;
    Ok(())
}

/// Adds what the two deliveries come to over a database that fails after so many calls: one
/// function over any store.
fn say_stored<S: Alter + Drop>(
    alloc: Global,
    said: &mut String,
    calls: u64,
    keeper: SqliteKeeper<S>,
) -> Result<bool, Trouble> {
    say_failing(alloc, said, calls, keeper)
}

/// Adds what the two deliveries come to over a database, in the same way.
pub(crate) fn say_in_database(alloc: Global, said: &mut String) -> Result<(), Trouble> {
    said.push_str("A keeper over a database fails after so many calls\n")?;
    for calls in 0..MOST {
        let keeper = opened_whole(alloc, &empty(alloc))?;
        if say_stored(alloc, said, calls, keeper)? {
            return Ok(());
        }
    }
    said.push_str("  OTHERWISE: each run fails\n")?;
    Ok(())
}
