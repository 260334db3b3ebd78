//! The calls that are made while storage fails, and what is found after them.

use crate::asking::state_kept;
use crate::states::State;
use crate::texts::{APPROVAL, REQUEST, Rules, parts, rules_of};
use crate::trouble::Trouble;
use desk::{Desk, Keeper, Refusal};
use desk_store::{Found, KeeperError};
use roster::Roster;
use std::alloc::Global;
use std::fmt;
use sudo_syntax::Policy;

/// A call of a desk.
#[derive(Clone, Copy)]
pub enum Call {
    /// The desk is opened.
    Open,
    /// The desk is opened, and the request is delivered.
    Request,
    /// The desk is opened, and the approval is delivered.
    Approval,
    /// The desk is opened, and the approval is delivered, and then the request.
    Both,
    /// The desk is rebuilt with this roster.
    Rebuild(Rules),
    /// The desk is opened with the roster that it has, and takes this one.
    Take(Rules),
}

/// How a call ended.
#[derive(Clone, Copy, PartialEq, Eq)]
pub enum Ended {
    Done,
    Refused(Refusal),
    /// The database was not opened.
    NotOpened,
}

impl fmt::Display for Ended {
    fn fmt<W: fmt::Write>(&self, f: &mut fmt::Formatter<W>) -> fmt::Result {
        match self {
            Ended::Done => f.write_str("ack"),
            Ended::Refused(refusal) => refusal.fmt(f),
            Ended::NotOpened => f.write_str("not opened"),
        }
    }
}

/// Delivers the body through the relay of the roster.
pub fn deliver<K: Keeper>(desk: &mut Desk<K>, body: &str) -> Ended {
    match desk.deliver("web", body.as_bytes()) {
        Ok(_) => Ended::Done,
        Err(refusal) => Ended::Refused(refusal),
    }
}

/// Delivers the bodies in order, until one is not acknowledged, and gives the keeper up. The answer
/// is that of the last delivery.
fn delivered<K: Keeper>(mut desk: Desk<K>, bodies: &[&str]) -> (Ended, K) {
    let mut answer = Ended::Done;
    for body in bodies {
        if answer == Ended::Done {
            answer = deliver(&mut desk, body);
        }
    }
    (answer, desk.into_keeper())
}

/// Opens a desk over the keeper, and delivers the bodies.
fn opened<K: Keeper>(
    alloc: Global,
    parts: (Roster, Policy),
    bodies: &[&str],
    keeper: K,
) -> (Ended, K) {
    match Desk::open(alloc, parts.0, parts.1, keeper) {
        Ok(desk) => delivered(desk, bodies),
        Err((refusal, keeper)) => (Ended::Refused(refusal), keeper),
    }
}

/// Rebuilds the desk that the keeper keeps.
fn rebuilt<K: Keeper>(alloc: Global, parts: (Roster, Policy), keeper: K) -> (Ended, K) {
    match Desk::rebuild(alloc, parts.0, parts.1, keeper) {
        Ok(desk) => (Ended::Done, desk.into_keeper()),
        Err((refusal, keeper)) => (Ended::Refused(refusal), keeper),
    }
}

/// The desk takes the roster, and gives its keeper up.
fn takes<K: Keeper>(mut desk: Desk<K>, roster: Roster) -> (Ended, K) {
    let answer = match desk.take_roster(roster) {
        Ok(()) => Ended::Done,
        Err(refusal) => Ended::Refused(refusal),
    };
    (answer, desk.into_keeper())
}

/// Opens a desk over the keeper, which then takes another roster.
fn taken<K: Keeper>(
    alloc: Global,
    parts: (Roster, Policy),
    other: Roster,
    keeper: K,
) -> (Ended, K) {
    match Desk::open(alloc, parts.0, parts.1, keeper) {
        Ok(desk) => takes(desk, other),
        Err((refusal, keeper)) => {
            drop(other);
            (Ended::Refused(refusal), keeper)
        }
    }
}

/// Opens a desk of the full roster over the keeper, and delivers the bodies.
fn opened_over<K: Keeper>(
    alloc: Global,
    bodies: &[&str],
    keeper: K,
) -> (Result<Ended, Trouble>, K) {
    match parts(alloc, Rules::Full) {
        Ok(parts) => {
            let (answer, keeper) = opened(alloc, parts, bodies, keeper);
            (Ok(answer), keeper)
        }
        Err(trouble) => (Err(trouble), keeper),
    }
}

/// Rebuilds the desk that the keeper keeps with this roster.
fn rebuilt_over<K: Keeper>(alloc: Global, rules: Rules, keeper: K) -> (Result<Ended, Trouble>, K) {
    match parts(alloc, rules) {
        Ok(parts) => {
            let (answer, keeper) = rebuilt(alloc, parts, keeper);
            (Ok(answer), keeper)
        }
        Err(trouble) => (Err(trouble), keeper),
    }
}

/// Opens the desk that the keeper keeps with the roster that it has, and has it take another one.
fn taken_over<K: Keeper>(
    alloc: Global,
    rules: Rules,
    mut keeper: K,
) -> (Result<Ended, Trouble>, K) {
    let own = match thing_of(keeper.look()) {
        Thing::Desk(own) => own,
        Thing::State(_) => Rules::Full,
    };
    match (parts(alloc, own), parts(alloc, rules)) {
        (Ok(own), Ok((other, base))) => {
            drop(base);
            let (answer, keeper) = taken(alloc, own, other, keeper);
            (Ok(answer), keeper)
        }
        (own, other) => {
            drop(own);
            drop(other);
            (Err(Trouble::NoMemory), keeper)
        }
    }
}

/// Makes the call over what the keeper keeps, and hands the keeper on.
pub fn make_call<K: Keeper>(alloc: Global, call: Call, keeper: K) -> (Result<Ended, Trouble>, K) {
    match call {
        Call::Open => opened_over(alloc, &[], keeper),
        Call::Request => opened_over(alloc, &[REQUEST], keeper),
        Call::Approval => opened_over(alloc, &[APPROVAL], keeper),
        Call::Both => opened_over(alloc, &[APPROVAL, REQUEST], keeper),
        Call::Rebuild(rules) => rebuilt_over(alloc, rules, keeper),
        Call::Take(rules) => taken_over(alloc, rules, keeper),
    }
}

/// What a keeper says that it keeps.
#[derive(Clone, Copy)]
enum Thing {
    /// A desk of one of the rosters.
    Desk(Rules),
    /// Something else.
    State(State),
}

/// What a keeper's answer says that it keeps.
fn thing_of(found: Result<Found, KeeperError>) -> Thing {
    match found {
        Ok(Found::Desk(desk)) => {
            let rules = rules_of(desk.roster.as_str());
            drop(desk);
            match rules {
                Some(rules) => Thing::Desk(rules),
                None => Thing::State(State::Other),
            }
        }
        Ok(Found::Empty) => Thing::State(State::Nothing),
        Ok(Found::OldDesk) => Thing::State(State::Older),
        Ok(Found::NotADesk) | Err(_) => Thing::State(State::Other),
    }
}

/// The state of the desk of this roster and base that the keeper keeps.
fn asked<K: Keeper>(
    alloc: Global,
    parts: (Roster, Policy),
    keeper: K,
) -> (Result<State, Trouble>, K) {
    match Desk::open(alloc, parts.0, parts.1, keeper) {
        Ok(mut desk) => {
            let state = state_kept(alloc, &mut desk);
            (state, desk.into_keeper())
        }
        Err((_, keeper)) => (Ok(State::Other), keeper),
    }
}

/// The state of the desk of this roster that the keeper keeps.
fn desk_at<K: Keeper>(alloc: Global, rules: Rules, keeper: K) -> (Result<State, Trouble>, K) {
    match parts(alloc, rules) {
        Ok(parts) => asked(alloc, parts, keeper),
        Err(trouble) => (Err(trouble), keeper),
    }
}

/// The state of what the keeper keeps. The keeper is one without faults.
pub fn kept_at<K: Keeper>(alloc: Global, mut keeper: K) -> (Result<State, Trouble>, K) {
    match thing_of(keeper.look()) {
        Thing::Desk(rules) => desk_at(alloc, rules, keeper),
        Thing::State(state) => (Ok(state), keeper),
    }
}
