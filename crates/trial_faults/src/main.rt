//! What a desk answers where its keeper fails at each call in turn, and what it answers to the
//! calls that the product's programs do not make.
#![tactic(auto)]

mod failing;
mod restarts;
mod statuses;

use crate::failing::{say_in_database, say_in_memory};
use crate::restarts::{say_rebuilding, say_restarts};
use crate::statuses::say_statuses;
use std::alloc::Global;
use std::fmt::Write as _;
use std::process::ExitCode;
use trial::states::KNOWN;
use trial::telling::write_told;
use trial::trouble::Trouble;

/// What the program tells, in this order.
#[derive(Clone, Copy)]
enum Part {
    States,
    Statuses,
    Restarts,
    Rebuilding,
    FailsInMemory,
    FailsInDatabase,
}

/// Adds what a desk answers in each state.
fn say_states(said: &mut String) -> Result<(), Trouble> {
    said.push_str("What a desk answers\n")?;
    for state in KNOWN {
        write!(said, "  {state}: {}\n", state.text())?;
    }
    Ok(())
}

/// Adds a part.
fn say_part(alloc: Global, said: &mut String, part: Part) -> Result<(), Trouble> {
    match part {
        Part::States => say_states(said),
        Part::Statuses => say_statuses(alloc, said),
        Part::Restarts => say_restarts(alloc, said),
        Part::Rebuilding => say_rebuilding(alloc, said),
        Part::FailsInMemory => say_in_memory(alloc, said),
        Part::FailsInDatabase => say_in_database(alloc, said),
    }
}

/// Writes a part on the standard output; answers whether it is written and has no `OTHERWISE`.
fn write_part(rt: &HostRuntime, part: Part) -> bool {
    let alloc = rt.alloc();
    let mut said = String::new(alloc);
    let done = say_part(alloc, &mut said, part);
    write_told(&mut rt.stdout(), said, done)
}

fn main(rt: HostRuntime) -> ExitCode {
    let mut is_right = true;
    for part in [
        Part::States,
        Part::Statuses,
        Part::Restarts,
        Part::Rebuilding,
        Part::FailsInMemory,
        Part::FailsInDatabase,
    ] {
        is_right = write_part(&rt, part) && is_right;
    }
    if is_right {
        ExitCode::SUCCESS
    } else {
        ExitCode::FAILURE
    }
}
