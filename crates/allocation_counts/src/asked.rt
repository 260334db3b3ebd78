//! The calls, each of which takes no memory.

use crate::given::Given;
use crate::trouble::Trouble;
use grants::{Status, Summary, admit, completed_at, fits_base, status};
use messages::Message;
use std::alloc::Global;
use sudo_decide::{Decision, Invocation, decide};
use sudo_words::{Cmnd, Moment, cmnd_len, is_lawful};

/// A call's answer as a number: 1 for a yes, and 0 for a no.
fn one(yes: bool) -> u64 {
    if yes { 1 } else { 0 }
}

/// The calls on a command: whether it is lawful, how long it is, and whether it is the one that is
/// invoked.
fn of_command(cmnd: &Cmnd, invocation: &Invocation) -> u64 {
    let said = one(cmnd.matches(&invocation.path, invocation.args.as_slice()));
    if is_lawful(cmnd) {
        said.saturating_add(cmnd_len(cmnd) as u64)
    } else {
        said
    }
}

/// The calls on a message: whether the roster admits it, and whether it says the same as each of
/// these.
fn of_message(given: &Given, message: &Message) -> u64 {
    let mut said = one(admit(given.roster, message).is_ok());
    for other in given.messages {
        said = said.saturating_add(one(message.is_same(other)));
    }
    if let Message::Request(request) = message {
        for cmnd in request.cmnds() {
            said = said.saturating_add(of_command(cmnd, given.invocation));
        }
    }
    said
}

/// The calls on what is known of a name: when it was approved, and what it has come to.
fn of_summary(given: &Given, summary: &Summary) -> u64 {
    let is_approved = one(completed_at(given.roster, summary).is_some());
    let is_granted = one(matches!(status(given.roster, summary), Status::Granted(_)));
    is_approved.saturating_add(is_granted)
}

/// The calls on the base: whether it is within the limits, and what it allows.
fn of_base(given: &Given) -> u64 {
    let fits = one(fits_base(given.base));
    let followed = one(decide(given.base, given.invocation) != Decision::Deny);
    let compiled = one(given.compiled.decide(given.invocation) != Decision::Deny);
    fits.saturating_add(followed).saturating_add(compiled)
}

/// The calls on a moment's text: which moment it is, and its seconds.
fn of_moment(given: &Given) -> u64 {
    let read = match Moment::read(given.stamp) {
        Some(at) => at.secs() % 7,
        None => 0,
    };
    let stamped = match Moment::read_stamp(given.stamp) {
        Some(at) => at.secs() % 7,
        None => 0,
    };
    read.saturating_add(stamped)
}

/// All calls once, and how much they say together.
pub fn asked(given: &Given) -> u64 {
    let mut said = of_moment(given).saturating_add(of_base(given));
    for message in given.messages {
        said = said.saturating_add(of_message(given, message));
    }
    for summary in given.summaries {
        said = said.saturating_add(of_summary(given, summary));
    }
    said
}

/// All calls once, and a copy of a text, which takes memory once.
pub fn copied(alloc: Global, given: &Given) -> Result<u64, Trouble> {
    let copy = String::from_str(alloc, given.stamp)?;
    Ok(asked(given).saturating_add(copy.len() as u64))
}
