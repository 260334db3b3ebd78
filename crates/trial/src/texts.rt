//! The rosters, the base and the messages that the program tries.

use crate::trouble::Trouble;
use roster::Roster;
use std::alloc::Global;
use sudo_syntax::{Policy, read_policy};

/// A roster without its last line, which is the longest time that its ceiling allows.
const ROSTER: &str =
    "relays = [\"web\"]\nhosts = [\"db1\"]\nduties = [\"approve-db\", \"audit\", \"operate-db\"]\nconflicts = [[\"approve-db\", \"audit\"]]\n[people]\nann = [\"operate-db\"]\nbob = [\"approve-db\"]\ncarol = [\"approve-db\", \"audit\"]\ndave = [\"approve-db\"]\n[ceilings.db-root]\nask = \"operate-db\"\napprove = \"approve-db\"\nneeds = 1\nhosts = [\"db1\"]\nrunas = [\"root\"]\ncommands = [\"/bin/\"]\n";

/// A request for two hours.
pub const REQUEST: &str =
    "{\"at\":\"20260105060000Z\",\"by\":\"ann\",\"ceiling\":\"db-root\",\"cmnds\":[\"/bin/ls\"],\"from\":\"20260105090000Z\",\"hosts\":[\"db1\"],\"kind\":\"request\",\"no\":7,\"runas\":\"root\",\"until\":\"20260105110000Z\"}";

/// An approval of that request.
pub const APPROVAL: &str =
    "{\"at\":\"20260105083000Z\",\"by\":\"bob\",\"kind\":\"approve\",\"no\":7,\"of\":\"ann\"}";

/// One of the two rosters.
#[derive(Clone, Copy, PartialEq, Eq)]
pub enum Rules {
    /// The roster under which the request is admitted: its longest time is two hours.
    Full,
    /// A roster whose longest time is a second shorter, so that the request is not admitted.
    Short,
}

/// The last line of the roster's text.
fn longest(rules: Rules) -> &'static str {
    match rules {
        Rules::Full => "longest = 7200\n",
        Rules::Short => "longest = 7199\n",
    }
}

/// The roster's text.
pub fn roster_text(alloc: Global, rules: Rules) -> Result<String, Trouble> {
    let mut text = String::from_str(alloc, ROSTER)?;
    text.push_str(longest(rules))?;
    Ok(text)
}

/// The roster whose text this is, if it is one of these.
pub fn rules_of(text: &str) -> Option<Rules> {
    let rest = text.strip_prefix(ROSTER)?;
    if rest == longest(Rules::Full) {
        Some(Rules::Full)
    } else if rest == longest(Rules::Short) {
        Some(Rules::Short)
    } else {
        None
    }
}

/// The roster of the text.
fn read_roster(alloc: Global, text: &str) -> Result<Roster, Trouble> {
    match Roster::read(alloc, text) {
        Ok(roster) => Ok(roster),
        Err(_) => Err(Trouble::BadText),
    }
}

/// The base.
fn base(alloc: Global) -> Result<Policy, Trouble> {
    match read_policy(alloc, b"bob db1 = ALL\n") {
        Ok(base) => Ok(base),
        Err(_) => Err(Trouble::BadText),
    }
}

/// The roster and the base.
pub fn parts(alloc: Global, rules: Rules) -> Result<(Roster, Policy), Trouble> {
    let text = roster_text(alloc, rules)?;
    let roster = read_roster(alloc, text.as_str())?;
    match base(alloc) {
        Ok(base) => Ok((roster, base)),
        Err(trouble) => {
            drop(roster);
            Err(trouble)
        }
    }
}
