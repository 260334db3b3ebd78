//! What a desk answers, as text.

use crate::states::{State, state_of};
use crate::texts::{APPROVAL, REQUEST, Rules, rules_of};
use crate::trouble::Trouble;
use desk::{Desk, Keeper, Refusal, RequestName};
use grants::{Status, Summary, rules_of as rules_given};
use outcomes::Live;
use roster::Roster;
use std::alloc::Global;
use std::fmt::Write as _;
use sudo_words::{HostName, Moment, Name};

/// Adds what a request came to.
pub fn say_status(said: &mut String, status: Option<Status>) -> Result<(), Trouble> {
    let word = match status {
        None => "nobody asks",
        Some(Status::Disputed) => "Disputed",
        Some(Status::Lapsed) => "Lapsed",
        Some(Status::Refused) => "Refused",
        Some(Status::Waiting) => "Waiting",
        Some(Status::Void) => "Void",
        Some(Status::Granted(window)) => {
            write!(said, "Granted {} {}", window.start, window.end)?;
            return Ok(());
        }
    };
    said.push_str(word)?;
    Ok(())
}

/// Asks for the status of ann's request of this number, and adds it.
pub fn ask_status<K: Keeper>(
    alloc: Global,
    said: &mut String,
    desk: &mut Desk<K>,
    no: u32,
) -> Result<(), Trouble> {
    let Ok(by) = Name::read(alloc, "ann") else {
        return Err(Trouble::BadText);
    };
    let name = RequestName { by, no };
    let answer = desk.status_of(&name);
    drop(name);
    match answer {
        Ok(status) => say_status(said, status),
        Err(refusal) => {
            write!(said, "{refusal}")?;
            Ok(())
        }
    }
}

/// Adds a grant that is in force.
fn say_grant(said: &mut String, live: &Live) -> Result<(), Trouble> {
    let (by, no, ceiling) = (live.name.by.as_str(), live.name.no, live.ceiling.as_str());
    write!(
        said,
        ", in force {by} {no} {ceiling} {} {}",
        live.window.start, live.window.end
    )?;
    Ok(())
}

/// Adds the grants that are in force.
fn say_live(said: &mut String, list: &[Live]) -> Result<(), Trouble> {
    for live in list {
        say_grant(said, live)?;
    }
    Ok(())
}

/// Asks for the grants in force at the moment, and adds them.
pub fn ask_live<K: Keeper>(said: &mut String, desk: &mut Desk<K>, at: &str) -> Result<(), Trouble> {
    let Some(at) = Moment::read(at) else {
        return Err(Trouble::BadText);
    };
    match desk.live_at(at) {
        Ok(list) => {
            let done = say_live(said, list.as_slice());
            drop(list);
            done
        }
        Err(refusal) => {
            write!(said, ", {refusal}")?;
            Ok(())
        }
    }
}

/// Adds the verdicts that wait.
fn say_parked(said: &mut String, texts: &[String]) -> Result<(), Trouble> {
    for text in texts {
        said.push_str(if text.as_str() == APPROVAL {
            ", the approval waits"
        } else {
            ", another verdict waits"
        })?;
    }
    Ok(())
}

/// Asks for the verdicts that wait, and adds them.
pub fn ask_parked<K: Keeper>(said: &mut String, desk: &mut Desk<K>) -> Result<(), Trouble> {
    match desk.parked() {
        Ok(texts) => {
            let done = say_parked(said, texts.as_slice());
            drop(texts);
            done
        }
        Err(refusal) => {
            write!(said, ", {refusal}")?;
            Ok(())
        }
    }
}

/// Adds the lines of a file, with a bar between.
fn say_lines(said: &mut String, file: &str) -> Result<(), Trouble> {
    said.push_str(", file: ")?;
    let mut is_first = true;
    for line in file.split('\n') {
        if !line.is_empty() {
            if !is_first {
                said.push_str(" | ")?;
            }
            said.push_str(line)?;
            is_first = false;
        }
    }
    Ok(())
}

/// Adds the file that was asked for.
fn say_file(said: &mut String, answer: Result<String, Refusal>) -> Result<(), Trouble> {
    match answer {
        Ok(file) => {
            let done = say_lines(said, file.as_str());
            drop(file);
            done
        }
        Err(refusal) => {
            write!(said, ", {refusal}")?;
            Ok(())
        }
    }
}

/// Asks for the host's file, and adds it.
fn ask_file<K: Keeper>(
    alloc: Global,
    said: &mut String,
    desk: &mut Desk<K>,
) -> Result<(), Trouble> {
    let Ok(host) = HostName::read(alloc, "db1") else {
        return Err(Trouble::BadText);
    };
    let answer = desk.host_file(&host);
    drop(host);
    say_file(said, answer)
}

/// Asks for the host's file without the lines that end before the moment, and adds it.
pub fn ask_file_after<K: Keeper>(
    alloc: Global,
    said: &mut String,
    desk: &mut Desk<K>,
    at: &str,
) -> Result<(), Trouble> {
    let Some(at) = Moment::read(at) else {
        return Err(Trouble::BadText);
    };
    let Ok(host) = HostName::read(alloc, "db1") else {
        return Err(Trouble::BadText);
    };
    let answer = desk.host_file_after(&host, at);
    drop(host);
    say_file(said, answer)
}

/// Adds which roster the desk has, by its longest time.
fn say_roster(said: &mut String, text: &str) -> Result<(), Trouble> {
    said.push_str(match rules_of(text) {
        Some(Rules::Full) => "7200 seconds, ",
        Some(Rules::Short) => "7199 seconds, ",
        None => "another roster, ",
    })?;
    Ok(())
}

/// What the desk answers to each question: which roster it has, what request 7 came to, which
/// grants are in force within its window, what waits, and the host's file.
pub fn say_all<K: Keeper>(
    alloc: Global,
    said: &mut String,
    desk: &mut Desk<K>,
) -> Result<(), Trouble> {
    say_roster(said, desk.roster().text())?;
    ask_status(alloc, said, desk, 7)?;
    ask_live(said, desk, "20260105093000Z")?;
    ask_parked(said, desk)?;
    ask_file(alloc, said, desk)
}

/// The state of the desk, by all that it answers.
pub fn state_at<K: Keeper>(alloc: Global, desk: &mut Desk<K>) -> Result<State, Trouble> {
    let mut said = String::new(alloc);
    let done = say_all(alloc, &mut said, desk);
    let state = state_of(said.as_str());
    drop(said);
    match done {
        Ok(()) => Ok(state),
        Err(trouble) => Err(trouble),
    }
}

/// Adds how many summaries there are, and how many approvals they have.
fn say_summaries(said: &mut String, summaries: &[Summary]) -> Result<(), Trouble> {
    write!(said, ", summaries {}", summaries.len())?;
    for summary in summaries {
        match summary.approvals() {
            Ok(list) => {
                let approvals = list.len();
                drop(list);
                write!(said, ", approvals {approvals}")?;
            }
            Err(_) => return Err(Trouble::NoMemory),
        }
    }
    Ok(())
}

/// Asks for the summaries, and adds how many there are.
pub fn ask_summaries<K: Keeper>(said: &mut String, desk: &mut Desk<K>) -> Result<(), Trouble> {
    match desk.summaries() {
        Ok(list) => {
            let done = say_summaries(said, list.as_slice());
            drop(list);
            done
        }
        Err(refusal) => {
            write!(said, ", {refusal}")?;
            Ok(())
        }
    }
}

/// Adds how many rules each of the summaries gives the host under the roster.
fn say_rules(
    alloc: Global,
    said: &mut String,
    roster: &Roster,
    summaries: &[Summary],
    host: &HostName,
) -> Result<(), Trouble> {
    for summary in summaries {
        let Ok(rules) = rules_given(alloc, roster, summary, host) else {
            return Err(Trouble::NoMemory);
        };
        let many = rules.len();
        drop(rules);
        write!(said, ", rules {many}")?;
    }
    Ok(())
}

/// Adds how many rules the desk's messages give db1.
pub fn ask_rules<K: Keeper>(
    alloc: Global,
    said: &mut String,
    desk: &mut Desk<K>,
) -> Result<(), Trouble> {
    let Ok(host) = HostName::read(alloc, "db1") else {
        return Err(Trouble::NoMemory);
    };
    match desk.summaries() {
        Ok(list) => {
            let done = say_rules(alloc, said, desk.roster(), list.as_slice(), &host);
            drop(list);
            done
        }
        Err(refusal) => {
            write!(said, ", {refusal}")?;
            Ok(())
        }
    }
}

/// Asks for the summaries and the verdicts that wait, at once, and adds how many there are.
pub fn ask_holdings<K: Keeper>(said: &mut String, desk: &mut Desk<K>) -> Result<(), Trouble> {
    match desk.holdings() {
        Ok(held) => {
            let (summaries, parked) = (held.summaries.len(), held.parked.len());
            drop(held);
            write!(said, ", holdings {summaries} and {parked}")?;
            Ok(())
        }
        Err(refusal) => {
            write!(said, ", {refusal}")?;
            Ok(())
        }
    }
}

/// Adds the messages whose texts these are.
fn say_texts(said: &mut String, texts: &[String]) -> Result<(), Trouble> {
    for text in texts {
        said.push_str(if text.as_str() == APPROVAL {
            ", the approval"
        } else if text.as_str() == REQUEST {
            ", the request"
        } else {
            ", another message"
        })?;
    }
    Ok(())
}

/// Asks for the texts of all messages, and adds which they are.
pub fn ask_texts<K: Keeper>(said: &mut String, desk: &mut Desk<K>) -> Result<(), Trouble> {
    match desk.texts() {
        Ok(texts) => {
            let done = say_texts(said, texts.as_slice());
            drop(texts);
            done
        }
        Err(refusal) => {
            write!(said, ", {refusal}")?;
            Ok(())
        }
    }
}

/// Whether the texts of all messages are those of a desk in the state.
fn has_texts<K: Keeper>(alloc: Global, state: State, desk: &mut Desk<K>) -> Result<bool, Trouble> {
    let mut said = String::new(alloc);
    let done = ask_texts(&mut said, desk);
    let is_so = said.as_str() == state.texts();
    drop(said);
    match done {
        Ok(()) => Ok(is_so),
        Err(trouble) => Err(trouble),
    }
}

/// The state of the desk, by all that it answers and by the texts of all its messages.
pub fn state_kept<K: Keeper>(alloc: Global, desk: &mut Desk<K>) -> Result<State, Trouble> {
    let state = state_at(alloc, desk)?;
    Ok(if has_texts(alloc, state, desk)? {
        state
    } else {
        State::Other
    })
}
