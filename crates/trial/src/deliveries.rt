//! Two deliveries to one desk, one after the other: the approval, and then the request.

use crate::asking::state_at;
use crate::calls::{Ended, deliver};
use crate::states::State;
use crate::texts::{APPROVAL, REQUEST, Rules, parts};
use crate::trouble::Trouble;
use desk::{Desk, Keeper, Refusal};
use roster::Roster;
use std::alloc::Global;
use std::fmt;
use sudo_syntax::Policy;

/// How a delivery ended, and what the desk answers then.
#[derive(Clone, Copy, PartialEq, Eq)]
pub struct Delivered {
    pub answer: Ended,
    pub then: State,
}

/// How both deliveries ended.
#[derive(Clone, Copy, PartialEq, Eq)]
pub struct Both {
    pub approval: Delivered,
    pub request: Delivered,
}

impl fmt::Display for Both {
    fn fmt<W: fmt::Write>(&self, f: &mut fmt::Formatter<W>) -> fmt::Result {
        let Both { approval, request } = *self;
        write!(
            f,
            "the approval {}, then {}; the request {}, then {}",
            approval.answer, approval.then, request.answer, request.then
        )
    }
}

/// Delivers the body, and asks every question then.
fn deliver_and_ask<K: Keeper>(
    alloc: Global,
    desk: &mut Desk<K>,
    body: &str,
) -> Result<Delivered, Trouble> {
    let answer = deliver(desk, body);
    Ok(Delivered {
        answer,
        then: state_at(alloc, desk)?,
    })
}

/// Delivers the approval and then the request.
fn deliver_both<K: Keeper>(alloc: Global, desk: &mut Desk<K>) -> Result<Both, Trouble> {
    let approval = deliver_and_ask(alloc, desk, APPROVAL)?;
    let request = deliver_and_ask(alloc, desk, REQUEST)?;
    Ok(Both { approval, request })
}

/// Opens a desk of these parts over the keeper, and delivers both messages to the desk.
fn open_and_deliver<K: Keeper>(
    alloc: Global,
    parts: (Roster, Policy),
    keeper: K,
) -> (Result<Result<Both, Refusal>, Trouble>, K) {
    match Desk::open(alloc, parts.0, parts.1, keeper) {
        Ok(mut desk) => {
            let both = deliver_both(alloc, &mut desk);
            let made = match both {
                Ok(both) => Ok(Ok(both)),
                Err(trouble) => Err(trouble),
            };
            (made, desk.into_keeper())
        }
        Err((refusal, keeper)) => (Ok(Err(refusal)), keeper),
    }
}

/// Opens a desk over the keeper, and delivers both messages to the desk: how the deliveries ended,
/// or how the opening was refused.
pub fn make_both<K: Keeper>(
    alloc: Global,
    keeper: K,
) -> (Result<Result<Both, Refusal>, Trouble>, K) {
    match parts(alloc, Rules::Full) {
        Ok(parts) => open_and_deliver(alloc, parts, keeper),
        Err(trouble) => (Err(trouble), keeper),
    }
}

/// Whether a delivery over a desk in the state `before` ended as it may: acknowledged, and it leads
/// to `after`; or refused over the storage, and nothing changed. The questions after it find that
/// state, or are refused over the storage.
fn is_delivered(delivered: Delivered, before: State, after: State) -> bool {
    let (is_known, state) = match delivered.answer {
        Ended::Done => (true, after),
        Ended::Refused(Refusal::Storage) => (true, before),
        Ended::Refused(_) | Ended::NotOpened => (false, before),
    };
    is_known && (delivered.then == state || delivered.then == State::Silent)
}

/// Whether both deliveries ended as they may.
pub fn are_delivered(both: Both) -> bool {
    let Both { approval, request } = both;
    let is_second_right = if approval.answer == Ended::Done {
        is_delivered(request, State::Parked, State::Granted)
    } else {
        is_delivered(request, State::Fresh, State::Waiting)
    };
    is_delivered(approval, State::Fresh, State::Parked) && is_second_right
}

/// Whether both deliveries were acknowledged, and all questions after each were answered.
pub fn are_well(both: Both) -> bool {
    let Both { approval, request } = both;
    approval.answer == Ended::Done
        && approval.then == State::Parked
        && request.answer == Ended::Done
        && request.then == State::Granted
}

/// Whether the next opening may find the message there, or missing, after its delivery. An
/// acknowledged message is there. A refused message is missing where the desk went on to answer;
/// otherwise it may be there.
fn may_be(delivered: Delivered, is_there: bool) -> bool {
    if delivered.answer == Ended::Done {
        is_there
    } else {
        !is_there || delivered.then == State::Silent
    }
}

/// Whether the next opening may find the desk in this state after both deliveries.
pub fn may_be_found(both: Both, found: State) -> bool {
    let (has_approval, has_request) = match found {
        State::Fresh => (false, false),
        State::Parked => (true, false),
        State::Waiting => (false, true),
        State::Granted => (true, true),
        _ => return false,
    };
    may_be(both.approval, has_approval) && may_be(both.request, has_request)
}
