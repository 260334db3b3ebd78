//! The last end that somebody asks for under each name.

ghost use Rattle.std.specs.Prelude.{◌≡◌, ◌↔◌, ◌++◌, ◌∷◌, List, [], IsTrue};
ghost use Rattle.std.specs.Prelude.{IfOk, OnOk, OnErr};
ghost use Rattle.messages.specs.declared.message.Message.{Message as AnyMessage};
ghost use Rattle.messages.specs.declared.message.Message.TheVariants as message_of;
ghost use Rattle.archive.specs.Archive.{IsOver};
ghost use Rattle.archive.specs.private.Ends.{AreEnds, end_at, is_past, reaches};

use messages::{Message, Request, RequestName};
use std::alloc::Global;
use std::collections::BTreeMap;
use sudo_words::{Moment, NoMemory};

/// The last end that somebody asks for under each name.
pub(crate) type Ends = BTreeMap<RequestName, Moment>;

/// Whether somebody asks under the name for an end at the moment or later.
fn reaches(ends: &Ends, name: &RequestName, moment: Moment) -> bool
    ensures { result ≡ reaches (end_at ends.now name.now) moment }
{
    match ends.get(name) {
        Some(end) => moment <= *end,
        None => false,
    }
}

/// Whether somebody asks under the name, and nobody for an end at the moment or later.
fn is_ended(ends: &Ends, name: &RequestName, moment: Moment) -> bool
    ensures { result ≡ is_past (end_at ends.now name.now) moment }
{
    let Some(end) = ends.get(name) else {
        return false;
    };
    *end < moment
}

/// Adds a request. If memory runs out, nothing changes.
fn add(ends: &mut Ends, request: &Request) -> Result<(), NoMemory>
    ensures ok { (set : List AnyMessage) → AreEnds set ends.old
        → OnOk result (AreEnds (set ++ message_of.Request request.now ∷ []) ends.new) }
    ensures err { (set : List AnyMessage) → AreEnds set ends.old
        → OnErr result (AreEnds set ends.new) }
{
    let name = request.name()?;
    if !reaches(ends, &name, request.until()) {
        ends.insert(name, request.until())?;
    }
    Ok(())
}

/// Adds a message. If memory runs out, nothing changes.
fn take(ends: &mut Ends, message: &Message) -> Result<(), NoMemory>
    ensures ok { (set : List AnyMessage) → AreEnds set ends.old
        → OnOk result (AreEnds (set ++ message.now ∷ []) ends.new) }
    ensures err { (set : List AnyMessage) → AreEnds set ends.old
        → OnErr result (AreEnds set ends.new) }
{
    match message {
        Message::Request(request) => add(ends, request),
        Message::Verdict(_) => Ok(()),
    }
}

/// The last ends that the requests of the list ask for.
pub(crate) fn ends_of(alloc: Global, messages: &[Message]) -> Result<Ends, NoMemory>
    ensures { IfOk result (AreEnds messages.now) }
{
    let mut ends = BTreeMap::new(alloc);
    for message in messages {
        take(&mut ends, message)?;
    }
    Ok(ends)
}

/// Whether the message is a verdict on a name that has ended before the moment.
pub(crate) fn is_over(ends: &Ends, message: &Message, moment: Moment) -> Result<bool, NoMemory>
    ensures { (set : List AnyMessage) → AreEnds set ends.now
        → IfOk result (λ over. IsTrue over ↔ IsOver set moment message.now) }
{
    match message {
        Message::Request(_) => Ok(false),
        Message::Verdict(verdict) => Ok(is_ended(ends, &verdict.name_meant()?, moment)),
    }
}
