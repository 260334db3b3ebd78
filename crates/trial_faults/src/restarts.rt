//! What a desk answers once it was given up and opened again.

use desk::{Ack, Desk, Keeper, MemoryKeeper, Refusal, restart, restart_over};
use desk_store::SqliteKeeper;
use roster::Roster;
use sqlite::Alter;
use std::alloc::Global;
use std::fmt::Write as _;
use sudo_syntax::Policy;
use trial::asking::{
    ask_file_after, ask_holdings, ask_live, ask_status, ask_summaries, ask_texts, say_all,
};
use trial::calls::{Call, Ended, make_call};
use trial::files::{empty, opened_whole};
use trial::seeing::seen_over;
use trial::states::State;
use trial::texts::{APPROVAL, REQUEST, Rules, parts};
use trial::trouble::Trouble;

/// A verdict on a request that nobody makes.
const PARKED: &str =
    "{\"at\":\"20260105083000Z\",\"by\":\"dave\",\"kind\":\"refuse\",\"no\":9,\"of\":\"ann\"}";

/// What is delivered, in this order.
#[derive(Clone, Copy)]
enum Given {
    ApprovalFirst,
    NobodyAsks,
    Request,
    NoMessage,
    Repeat,
    UnknownRelay,
}

/// The relay that brings the delivery.
fn relay_of(given: Given) -> &'static str {
    match given {
        Given::UnknownRelay => "mail",
        _ => "web",
    }
}

/// The body that is brought.
fn body_of(given: Given) -> &'static str {
    match given {
        Given::ApprovalFirst => APPROVAL,
        Given::NobodyAsks => PARKED,
        Given::Request | Given::Repeat | Given::UnknownRelay => REQUEST,
        Given::NoMessage => "{}",
    }
}

/// A delivery.
fn delivery(alloc: Global, given: Given) -> Result<(String, Vec<u8>), Trouble> {
    let relay = String::from_str(alloc, relay_of(given))?;
    match Vec::from_slice(alloc, body_of(given).as_bytes()) {
        Ok(body) => Ok((relay, body)),
        Err(_) => {
            drop(relay);
            Err(Trouble::NoMemory)
        }
    }
}

/// An approval before its request, a verdict that nobody asks for, the request, a body that is not
/// a message, a repeat, and an unknown relay.
fn deliveries(alloc: Global) -> Result<Vec<(String, Vec<u8>)>, Trouble> {
    let mut list = Vec::new(alloc);
    for given in [
        Given::ApprovalFirst,
        Given::NobodyAsks,
        Given::Request,
        Given::NoMessage,
        Given::Repeat,
        Given::UnknownRelay,
    ] {
        list.push(delivery(alloc, given)?)?;
    }
    Ok(list)
}

/// Adds the answers.
fn say_answers(said: &mut String, answers: &[Result<Ack, Refusal>]) -> Result<(), Trouble> {
    said.push_str("  answers:")?;
    for answer in answers {
        match answer {
            Ok(_) => said.push_str(" ack,")?,
            Err(refusal) => write!(said, " {refusal},")?,
        }
    }
    said.push_str("\n")?;
    Ok(())
}

/// Delivers many at once, and adds the answers.
fn deliver_many<K: Keeper>(
    alloc: Global,
    said: &mut String,
    desk: &mut Desk<K>,
) -> Result<(), Trouble> {
    let list = deliveries(alloc)?;
    let answers = desk.deliver_all(list.as_slice());
    drop(list);
    match answers {
        Ok(answers) => {
            let done = say_answers(said, answers.as_slice());
            drop(answers);
            done
        }
        Err(_) => Err(Trouble::NoMemory),
    }
}

/// Adds what the desk answers for a number under which nobody asks, and which grants are in force,
/// and which lines are left, as the window ends and a second later.
fn say_edges<K: Keeper>(
    alloc: Global,
    said: &mut String,
    desk: &mut Desk<K>,
) -> Result<(), Trouble> {
    said.push_str("; 9: ")?;
    ask_status(alloc, said, desk, 9)?;
    said.push_str("; as the window ends")?;
    ask_live(said, desk, "20260105110000Z")?;
    ask_file_after(alloc, said, desk, "20260105110000Z")?;
    said.push_str("; a second later")?;
    ask_live(said, desk, "20260105110001Z")?;
    ask_file_after(alloc, said, desk, "20260105110001Z")
}

/// Adds what the desk answers to each question, how much it holds, and which messages.
fn say_more<K: Keeper>(
    alloc: Global,
    said: &mut String,
    desk: &mut Desk<K>,
) -> Result<(), Trouble> {
    said.push_str("  ")?;
    say_all(alloc, said, desk)?;
    ask_summaries(said, desk)?;
    ask_holdings(said, desk)?;
    said.push_str("; messages")?;
    ask_texts(said, desk)?;
    say_edges(alloc, said, desk)?;
    said.push_str("\n")?;
    Ok(())
}

/// Delivers many at once over a desk that is new, and adds what it answers.
fn deliver_first<K: Keeper>(
    alloc: Global,
    said: &mut String,
    desk: &mut Desk<K>,
) -> Result<(), Trouble> {
    deliver_many(alloc, said, desk)?;
    say_more(alloc, said, desk)
}

/// Adds what a desk that was opened again answers, or why it was not; and gives the keeper up.
fn say_again<K: Keeper>(
    alloc: Global,
    said: &mut String,
    opened: Result<Desk<K>, (Refusal, K)>,
) -> (Result<(), Trouble>, K) {
    match opened {
        Ok(mut desk) => {
            let done = say_more(alloc, said, &mut desk);
            (done, desk.into_keeper())
        }
        Err((refusal, keeper)) => (say_refusal(said, refusal), keeper),
    }
}

/// Opens a desk of the first roster over the keeper that was given back, and adds what it answers.
fn say_given_back<K: Keeper>(
    alloc: Global,
    said: &mut String,
    keeper: K,
) -> (Result<(), Trouble>, K) {
    match parts(alloc, Rules::Full) {
        Ok((roster, base)) => say_again(alloc, said, Desk::open(alloc, roster, base, keeper)),
        Err(trouble) => (Err(trouble), keeper),
    }
}

/// Adds a refusal.
fn say_refusal(said: &mut String, refusal: Refusal) -> Result<(), Trouble> {
    write!(said, "  {refusal}\n")?;
    Ok(())
}

/// The roster and the base of a desk, and the roster and the base of the desk that is opened again.
fn both_parts(
    alloc: Global,
    rules: Rules,
) -> Result<((Roster, Policy), (Roster, Policy)), Trouble> {
    let before = parts(alloc, Rules::Full)?;
    match parts(alloc, rules) {
        Ok(after) => Ok((before, after)),
        Err(trouble) => {
            drop(before);
            Err(trouble)
        }
    }
}

/// Adds what a desk in memory answers after the deliveries, and what a desk of these parts over its
/// keeper answers.
fn again_in_memory(
    alloc: Global,
    said: &mut String,
    mut desk: Desk<MemoryKeeper>,
    parts: (Roster, Policy),
) -> Result<(), Trouble> {
    let first = deliver_first(alloc, said, &mut desk);
    let (second, keeper) = say_again(alloc, said, restart(alloc, desk, parts.0, parts.1));
    let (third, keeper) = say_given_back(alloc, said, keeper);
    drop(keeper);
    first?;
    second?;
    third
}

/// Adds what a desk over a database answers after the deliveries, and what a desk of these parts
/// over the same connection answers.
fn again_in_database<S: Alter + Drop>(
    alloc: Global,
    said: &mut String,
    mut desk: Desk<SqliteKeeper<S>>,
    parts: (Roster, Policy),
) -> Result<(), Trouble> {
    let first = deliver_first(alloc, said, &mut desk);
    let (second, keeper) = say_again(alloc, said, restart_over(alloc, desk, parts.0, parts.1));
    let (third, keeper) = say_given_back(alloc, said, keeper);
    drop(keeper);
    first?;
    second?;
    third
}

/// Adds what a desk in memory answers, and what a desk of this roster over its keeper answers.
fn say_in_memory(alloc: Global, said: &mut String, rules: Rules) -> Result<(), Trouble> {
    let (before, after) = both_parts(alloc, rules)?;
    match Desk::open(alloc, before.0, before.1, MemoryKeeper::new(alloc)) {
        Ok(desk) => again_in_memory(alloc, said, desk, after),
        Err((_, keeper)) => {
            drop(keeper);
            drop(after);
            Err(Trouble::Refused)
        }
    }
}

/// Adds what a desk over the keeper answers, and what a desk of these parts over the same
/// connection answers.
fn say_over<S: Alter + Drop>(
    alloc: Global,
    said: &mut String,
    both: ((Roster, Policy), (Roster, Policy)),
    keeper: SqliteKeeper<S>,
) -> Result<(), Trouble> {
    let (before, after) = both;
    match Desk::open(alloc, before.0, before.1, keeper) {
        Ok(desk) => again_in_database(alloc, said, desk, after),
        Err((_, keeper)) => {
            drop(keeper);
            drop(after);
            Err(Trouble::Refused)
        }
    }
}

/// Adds what a desk over a database answers, and what a desk of this roster over the same
/// connection answers.
fn say_in_database(alloc: Global, said: &mut String, rules: Rules) -> Result<(), Trouble> {
    let both = both_parts(alloc, rules)?;
    match opened_whole(alloc, &empty(alloc)) {
        Ok(keeper) => say_over(alloc, said, both, keeper),
        Err(trouble) => {
            drop(both);
            Err(trouble)
        }
    }
}

/// Adds what a desk answers before and after a restart, with the same roster and with another.
pub(crate) fn say_restarts(alloc: Global, said: &mut String) -> Result<(), Trouble> {
    said.push_str("A desk in memory is opened again\n")?;
    say_in_memory(alloc, said, Rules::Full)?;
    said.push_str("A desk in memory is opened again with another roster\n")?;
    say_in_memory(alloc, said, Rules::Short)?;
    said.push_str("A desk over a database is opened again\n")?;
    say_in_database(alloc, said, Rules::Full)?;
    said.push_str("A desk over a database is opened again with another roster\n")?;
    say_in_database(alloc, said, Rules::Short)
}

/// Adds what a desk in memory that is rebuilt with another roster comes to.
pub(crate) fn say_rebuilding(alloc: Global, said: &mut String) -> Result<(), Trouble> {
    let (filled, keeper) = make_call(alloc, Call::Both, MemoryKeeper::new(alloc));
    let seen = seen_over(alloc, keeper, Call::Rebuild(Rules::Short))?;
    let is_right = filled? == Ended::Done
        && seen.found == State::Granted
        && seen.again == Ended::Done
        && seen.then == State::Lapsed;
    let mark = if is_right { "" } else { "; OTHERWISE" };
    write!(
        said,
        "A desk in memory is rebuilt with another roster\n  before: {}; {}; after: {}{mark}\n",
        seen.found, seen.again, seen.then
    )?;
    Ok(())
}
