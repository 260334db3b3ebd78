//! The messages, and the orders in which a binary search finds them.

ghost use Rattle.std.specs.Prelude.{◌≡◌, List, ℕ, map, Contains, IfOk, IfSome};
ghost use Rattle.std.specs.List.{list_any};
ghost use Rattle.std.specs.List.Sorted.{IsSorted};
ghost use Rattle.store_opening.specs.private.Compare as compare;
ghost use Rattle.store_opening.specs.private.Names.{AreAsked, IsIndex, IsTold};
ghost use Rattle.store_opening.specs.private.Names.{is_at, name_cmp, name_of};

use crate::names::{Asked, NameKey, disputed, in_order, is_among, texts_in_order};
use crate::places::{Places, VerdictKey, key_in, key_of, name_key};
use crate::stored::Stored;
use messages::Message;
use sqlite::Row;
use std::alloc::Global;
use sudo_words::NoMemory;

/// Messages, in the orders in which a binary search finds them.
#[derive(Debug, Drop)]
pub(crate) struct Known<'a> {
    pub(crate) all: &'a [Stored],
    /// The names that have a request, in order.
    names: Vec<NameKey<'a>>,
    /// The names that have more than one request, in order.
    disputed: Vec<NameKey<'a>>,
    /// The places of the messages whose texts the rows of `names` and `parked` show.
    texts: Places<&'a [u8]>,
    /// The places of the verdicts, by what their rows say.
    verdicts: Places<VerdictKey<'a>>,
}

/// The name and the text of the message, if it is a request.
fn told(stored: &Stored) -> Option<Asked<'_>>
    ensures { IsTold stored.now result }
{
    match stored.message() {
        Message::Request(request) => {
            let name = name_key(request.by().as_str(), request.no());
            let text = stored.body().as_bytes();
            Some(Asked { name, text })
        }
        Message::Verdict(_) => None,
    }
}

/// The names and the texts of the requests.
fn all_told(alloc: Global, all: &[Stored]) -> Result<Vec<Asked<'_>>, NoMemory>
    ensures { IfOk result (λ asked. AreAsked all.now asked.items) }
{
    let mut asked = Vec::new(alloc);
    for stored in all {
        if let Some(one) = told(stored) {
            asked.push(one)?;
        }
    }
    Ok(asked)
}

/// The names alone.
fn names_of<'a>(alloc: Global, told: &[Asked<'a>]) -> Result<Vec<NameKey<'a>>, NoMemory>
    ensures { IfOk result (λ names. names.items ≡ map name_of told.now) }
{
    let mut names = Vec::with_capacity(alloc, told.len())?;
    for one in told {
        names.push(one.name)?;
    }
    Ok(names)
}

/// Whether `verdicts` is to have a row of the message. Such messages are found by what their rows
/// say, and all others by their texts.
fn is_counted(names: &[NameKey<'_>], stored: &Stored) -> bool {
    match stored.message() {
        Message::Request(_) => false,
        Message::Verdict(verdict) => {
            let name = name_key(verdict.of().as_str(), verdict.no());
            names.binary_search(&name).is_ok()
        }
    }
}

fn by_text<'a>(
    alloc: Global,
    all: &'a [Stored],
    names: &[NameKey<'a>],
) -> Result<Places<&'a [u8]>, NoMemory> {
    let mut keyed = Vec::new(alloc);
    for at in 0..all.len() {
        if !is_counted(names, &all[at]) {
            keyed.push((all[at].body().as_bytes(), at))?;
        }
    }
    Ok(Places::of(keyed))
}

fn by_verdict(alloc: Global, all: &[Stored]) -> Result<Places<VerdictKey<'_>>, NoMemory> {
    let mut keyed = Vec::new(alloc);
    for at in 0..all.len() {
        if let Some(key) = key_of(&all[at]) {
            keyed.push((key, at))?;
        }
    }
    Ok(Places::of(keyed))
}

impl<'a> Known<'a> {
    /// The messages, put in order.
    pub(crate) fn new(alloc: Global, all: &'a [Stored]) -> Result<Known<'a>, NoMemory>
        ensures all { IfOk result (λ k. k.all.now ≡ all.now) }
        ensures index { IfOk result (λ k. IsIndex k.all.now k.names.items k.disputed.items) }
    {
        let asked = texts_in_order(all_told(alloc, all)?);
        let disputed = in_order(disputed(alloc, asked.as_slice())?);
        let names = in_order(names_of(alloc, asked.as_slice())?);
        let texts = by_text(alloc, all, names.as_slice())?;
        let verdicts = by_verdict(alloc, all)?;
        Ok(Known {
            all,
            names,
            disputed,
            texts,
            verdicts,
        })
    }

    /// The name has a request.
    fn asks(&self, asker: &str, number: u32) -> bool
        requires { IsIndex self.now.all.now self.now.names.items self.now.disputed.items }
        ensures { result ≡ compare.asks self.now.all.now asker.now number }
    {
        let name = name_key(asker, number);
        is_among(self.names.as_slice(), &name)
    }

    /// The message is a verdict, and its name has a request.
    pub(crate) fn counts(&self, stored: &Stored) -> bool
        requires { IsIndex self.now.all.now self.now.names.items self.now.disputed.items }
        ensures { result ≡ compare.counts self.now.all.now stored.now }
    {
        match stored.message() {
            Message::Request(_) => false,
            Message::Verdict(verdict) => self.asks(verdict.of().as_str(), verdict.no()),
        }
    }

    /// The message is a verdict, and its name has no request.
    pub(crate) fn waits(&self, stored: &Stored) -> bool
        requires { IsIndex self.now.all.now self.now.names.items self.now.disputed.items }
        ensures { result ≡ compare.waits self.now.all.now stored.now }
    {
        match stored.message() {
            Message::Request(_) => false,
            Message::Verdict(verdict) => !self.asks(verdict.of().as_str(), verdict.no()),
        }
    }

    /// The message is a request, and one of the messages is another request of its name.
    pub(crate) fn is_disputed(&self, stored: &Stored) -> bool
        requires index { IsIndex self.now.all.now self.now.names.items self.now.disputed.items }
        requires known { Contains self.now.all.now stored.now }
        ensures { result ≡ compare.is_disputed self.now.all.now stored.now }
    {
        match told(stored) {
            Some(one) => is_among(self.disputed.as_slice(), &one.name),
            None => false,
        }
    }

    /// A message of this text for which `verdicts` is to have no row.
    pub(crate) fn with_text(&self, text: &[u8]) -> Option<&Stored>
        ensures { IfSome result (λ s. Contains self.now.all.now s.now) }
    {
        self.all.get(self.texts.find(&text)?)
    }

    /// A verdict whose row in `verdicts` would say what this row says.
    pub(crate) fn with_row(&self, row: &Row) -> Option<&Stored>
        ensures { IfSome result (λ s. Contains self.now.all.now s.now) }
    {
        self.all.get(self.verdicts.find(&key_in(row))?)
    }
}
