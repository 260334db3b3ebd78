//! What is left of a desk where one of its store's files stops at each call in turn.
#![tactic(auto)]

mod left;
mod older;
mod stops;

use crate::older::older;
use crate::stops::{Case, after, say_stops};
use std::alloc::Global;
use std::process::ExitCode;
use trial::calls::Call;
use trial::files::empty;
use trial::states::State;
use trial::telling::write_told;
use trial::texts::Rules;
use trial::trouble::Trouble;

/// What the program tells, in this order.
#[derive(Clone, Copy)]
enum Part {
    Request,
    Approval,
    Opening,
    Rebuilding,
    Taking,
    Migration,
    Both,
}

/// Adds what is found after each stop of a call over a store to which these calls were made before.
fn say_stops_after(
    alloc: Global,
    said: &mut String,
    name: &str,
    before: &[Call],
    case: Case,
) -> Result<(), Trouble> {
    let mut start = empty(alloc);
    for made in before {
        start = after(alloc, &start, *made)?;
    }
    say_stops(alloc, said, name, &start, case)
}

/// The request is delivered over a store that holds the approval.
fn say_request(alloc: Global, said: &mut String) -> Result<(), Trouble> {
    let case = Case {
        call: Call::Request,
        first: State::Parked,
        committed: State::Granted,
        second: State::Granted,
    };
    let name = "The request is delivered after the approval";
    say_stops_after(alloc, said, name, &[Call::Approval], case)
}

/// The approval is delivered over a store that holds the request.
fn say_approval(alloc: Global, said: &mut String) -> Result<(), Trouble> {
    let case = Case {
        call: Call::Approval,
        first: State::Waiting,
        committed: State::Granted,
        second: State::Granted,
    };
    let name = "The approval is delivered after the request";
    say_stops_after(alloc, said, name, &[Call::Request], case)
}

/// A desk is opened over an empty store.
fn say_opening(alloc: Global, said: &mut String) -> Result<(), Trouble> {
    let case = Case {
        call: Call::Open,
        first: State::Nothing,
        committed: State::Fresh,
        second: State::Fresh,
    };
    say_stops_after(
        alloc,
        said,
        "A desk is opened over an empty store",
        &[],
        case,
    )
}

/// A desk that holds both is rebuilt with a roster that does not admit the request.
fn say_rebuilding(alloc: Global, said: &mut String) -> Result<(), Trouble> {
    let case = Case {
        call: Call::Rebuild(Rules::Short),
        first: State::Granted,
        committed: State::Lapsed,
        second: State::Lapsed,
    };
    let name = "A desk is rebuilt with another roster";
    say_stops_after(alloc, said, name, &[Call::Request, Call::Approval], case)
}

/// An open desk that holds both takes a roster that does not admit the request.
fn say_taking(alloc: Global, said: &mut String) -> Result<(), Trouble> {
    let case = Case {
        call: Call::Take(Rules::Short),
        first: State::Granted,
        committed: State::Lapsed,
        second: State::Lapsed,
    };
    let name = "An open desk takes another roster";
    say_stops_after(alloc, said, name, &[Call::Request, Call::Approval], case)
}

/// A desk of an older form that holds both is rebuilt.
fn say_migration(alloc: Global, said: &mut String) -> Result<(), Trouble> {
    let case = Case {
        call: Call::Rebuild(Rules::Full),
        first: State::Older,
        committed: State::Granted,
        second: State::Granted,
    };
    let start = older(alloc)?;
    say_stops(
        alloc,
        said,
        "A desk of an older form is rebuilt",
        &start,
        case,
    )
}

/// Both messages are delivered to one desk over an empty store.
fn say_both(alloc: Global, said: &mut String) -> Result<(), Trouble> {
    let case = Case {
        call: Call::Both,
        first: State::Nothing,
        committed: State::Fresh,
        second: State::Granted,
    };
    let name = "The approval and then the request are delivered to one desk";
    say_stops_after(alloc, said, name, &[], case)
}

/// Adds a part.
fn say_part(alloc: Global, said: &mut String, part: Part) -> Result<(), Trouble> {
    match part {
        Part::Request => say_request(alloc, said),
        Part::Approval => say_approval(alloc, said),
        Part::Opening => say_opening(alloc, said),
        Part::Rebuilding => say_rebuilding(alloc, said),
        Part::Taking => say_taking(alloc, said),
        Part::Migration => say_migration(alloc, said),
        Part::Both => say_both(alloc, said),
    }
}

/// Writes a part on the standard output; answers whether it is written and has no `OTHERWISE`.
fn write_part(rt: &HostRuntime, part: Part) -> bool {
    let alloc = rt.alloc();
    let mut said = String::new(alloc);
    let done = say_part(alloc, &mut said, part);
    write_told(&mut rt.stdout(), said, done)
}

fn main(rt: HostRuntime) -> ExitCode {
    let mut is_right = true;
    for part in [
        Part::Request,
        Part::Approval,
        Part::Opening,
        Part::Rebuilding,
        Part::Taking,
        Part::Migration,
        Part::Both,
    ] {
        is_right = write_part(&rt, part) && is_right;
    }
    if is_right {
        ExitCode::SUCCESS
    } else {
        ExitCode::FAILURE
    }
}
