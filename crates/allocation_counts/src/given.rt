//! What the calls are made with.

use crate::trouble::Trouble;
use grants::Summary;
use messages::{Message, MessageReader};
use outcomes::{Gathered, summaries_in};
use roster::Roster;
use std::alloc::Global;
use sudo_compiled::Compiled;
use sudo_decide::Invocation;
use sudo_policy::Policy;
use sudo_words::{Arg, FilePath, HostName, Items, Moment, Name};

/// What the calls are made with.
#[derive(Clone, Copy)]
pub struct Given<'a> {
    pub roster: &'a Roster,
    pub base: &'a Policy,
    pub compiled: &'a Compiled,
    pub messages: &'a [Message],
    pub summaries: &'a [Summary],
    pub invocation: &'a Invocation,
    /// The text of the invocation's moment.
    pub stamp: &'a str,
}

/// The messages of a text's lines.
pub fn messages_of(alloc: Global, text: &str) -> Result<Vec<Message>, Trouble> {
    let mut reader = MessageReader::new(alloc);
    let mut messages = Vec::new(alloc);
    for line in text.lines() {
        let Ok(message) = reader.read(alloc, line.as_bytes()) else {
            return Err(Trouble::BadInput);
        };
        messages.push(message)?;
    }
    Ok(messages)
}

/// The summary of each name in the messages.
pub fn summaries_of(alloc: Global, messages: &[Message]) -> Result<Vec<Summary>, Trouble> {
    let gathered = Gathered::of(alloc, messages)?;
    Ok(summaries_in(alloc, &gathered)?)
}

/// The arguments of an invocation.
fn args_of(alloc: Global, words: &[&str]) -> Result<Items<Arg>, Trouble> {
    let mut args = Vec::new(alloc);
    for word in words {
        let Ok(arg) = Arg::read(alloc, word) else {
            return Err(Trouble::BadInput);
        };
        args.push(arg)?;
    }
    Ok(Items::new(args))
}

/// The invocation of these words: a user, a host, a target, a moment, a path and arguments.
pub fn invocation_of(alloc: Global, words: &[&str]) -> Result<Invocation, Trouble> {
    let [user, host, runas, at, path, rest @ ..] = words else {
        return Err(Trouble::BadInput);
    };
    let Some(at) = Moment::read_stamp(at) else {
        return Err(Trouble::BadInput);
    };
    let Ok(user) = Name::read(alloc, user) else {
        return Err(Trouble::BadInput);
    };
    let Ok(host) = HostName::read(alloc, host) else {
        return Err(Trouble::BadInput);
    };
    let Ok(runas) = Name::read(alloc, runas) else {
        return Err(Trouble::BadInput);
    };
    let Ok(path) = FilePath::read(alloc, path) else {
        return Err(Trouble::BadInput);
    };
    let args = args_of(alloc, rest)?;
    Ok(Invocation {
        user,
        host,
        runas,
        path,
        args,
        at,
    })
}
