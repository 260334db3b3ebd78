//! The input, read part by part. Each part is read by a function of its own, which hands the result
//! to the next.

use crate::asked::{asked, copied};
use crate::given::{Given, invocation_of, messages_of, summaries_of};
use crate::trouble::Trouble;
use messages::Message;
use roster::Roster;
use std::alloc::Global;
use sudo_compiled::{Compiled, compile};
use sudo_policy::Policy;
use sudo_syntax::read_policy;

/// The texts of the input's parts.
#[derive(Clone, Copy)]
struct Texts<'a> {
    first: &'a str,
    roster: &'a str,
    base: &'a str,
    messages: &'a str,
    words: &'a str,
}

/// How often the calls are made, and whether a text is copied each time.
#[derive(Clone, Copy)]
struct Rounds {
    count: u64,
    copies: bool,
}

/// A text of two parts with a line `%%` between them.
fn cut(text: &str) -> Result<(&str, &str), Trouble> {
    match text.split_once("%%\n") {
        Some(parts) => Ok(parts),
        None => Err(Trouble::BadInput),
    }
}

/// The texts of an input's five parts.
fn texts_of(input: &str) -> Result<Texts<'_>, Trouble> {
    let (first, rest) = cut(input)?;
    let (roster, rest) = cut(rest)?;
    let (base, rest) = cut(rest)?;
    let (messages, words) = cut(rest)?;
    Ok(Texts {
        first,
        roster,
        base,
        messages,
        words,
    })
}

/// What the first part says.
fn rounds_of(text: &str) -> Result<Rounds, Trouble> {
    let Some((word, digits)) = text.trim_end().split_once(' ') else {
        return Err(Trouble::BadInput);
    };
    match digits.parse::<u64>() {
        Ok(count) => Ok(Rounds {
            count,
            copies: word == "copy",
        }),
        Err(_) => Err(Trouble::BadInput),
    }
}

/// How much the calls say in all rounds.
fn in_rounds(alloc: Global, rounds: Rounds, given: &Given) -> Result<u64, Trouble> {
    let mut said: u64 = 0;
    for _round in 0..rounds.count {
        let more = if rounds.copies {
            copied(alloc, given)?
        } else {
            asked(given)
        };
        said = said.saturating_add(more);
    }
    Ok(said)
}

/// How much the calls say in all rounds, once the roster, the base and the messages are read.
fn over_messages(
    alloc: Global,
    texts: Texts<'_>,
    roster: &Roster,
    policies: (&Policy, &Compiled),
    messages: &[Message],
) -> Result<u64, Trouble> {
    let rounds = rounds_of(texts.first)?;
    let summaries = summaries_of(alloc, messages)?;
    let words: Vec<&str> = texts.words.trim_end().split(' ').collect(alloc)?;
    let Some(stamp) = words.get(3) else {
        return Err(Trouble::BadInput);
    };
    let invocation = invocation_of(alloc, words.as_slice())?;
    let given = Given {
        roster,
        base: policies.0,
        compiled: policies.1,
        messages,
        summaries: summaries.as_slice(),
        invocation: &invocation,
        stamp,
    };
    in_rounds(alloc, rounds, &given)
}

/// How much the calls say in all rounds, once the roster and the base are read.
fn over_base(
    alloc: Global,
    texts: Texts<'_>,
    roster: &Roster,
    base: &Policy,
) -> Result<u64, Trouble> {
    let compiled = compile(alloc, base)?;
    let messages = messages_of(alloc, texts.messages)?;
    over_messages(alloc, texts, roster, (base, &compiled), messages.as_slice())
}

/// How much the calls say in all rounds, once the roster is read.
fn over_roster(alloc: Global, texts: Texts<'_>, roster: &Roster) -> Result<u64, Trouble> {
    match read_policy(alloc, texts.base.as_bytes()) {
        Ok(base) => over_base(alloc, texts, roster, &base),
        Err(_) => Err(Trouble::BadInput),
    }
}

/// How much the calls of an input say, in all its rounds.
pub fn said(alloc: Global, input: &str) -> Result<u64, Trouble> {
    let texts = texts_of(input)?;
    match Roster::read(alloc, texts.roster) {
        Ok(roster) => over_roster(alloc, texts, &roster),
        Err(_) => Err(Trouble::BadInput),
    }
}
