//! What a desk's messages say, name by name.

ghost use Rattle.std.specs.Prelude.{◌≡◌, ◌++◌, ◌∷◌, [], List, Contains, IfOk, OnOk};
ghost use Rattle.messages.specs.Wire.{IsMessage};
ghost use Rattle.messages.specs.declared.message.Message.{Message as AnyMessage};
ghost use Rattle.desk_audit.specs.Told.{TellsMessages, name_in};
ghost use Rattle.desk_audit.specs.private.ByName.{Gathers, IsBehind};
ghost use Rattle.desk_audit.specs.private.ByText.{AreByText};

use crate::any_text::{AnyText, text_word};
use findings::About;
use messages::{Message, RequestName};
use std::alloc::{AllocError, Global};
use std::collections::BTreeMap;
use sudo_words::{NoMemory, Word};

/// What is said about each name, in the order of names.
pub(crate) type ByName = BTreeMap<RequestName, About>;

/// Messages by their texts, in the byte order of the texts.
type ByText = BTreeMap<Word<AnyText>, Message>;

/// No messages about a name.
fn nothing(alloc: Global) -> About
    ensures requests { result.requests.items ≡ [] }
    ensures verdicts { result.verdicts.items ≡ [] }
{
    About {
        requests: Vec::new(alloc),
        verdicts: Vec::new(alloc),
    }
}

/// The name that a request asks under, or that a verdict is about.
fn name_of(message: &Message) -> Result<RequestName, AllocError>
    ensures { IfOk result (λ name. name ≡ name_in message.now) }
{
    match message {
        Message::Request(request) => request.name(),
        Message::Verdict(verdict) => verdict.name_meant(),
    }
}

/// Adds a message about the name; the message's text comes after the texts of the set.
fn add(about: &mut About, message: Message) -> Result<(), NoMemory>
    ensures { (set : List AnyMessage) → IsBehind set message
        → TellsMessages set (name_in message) about.old
        → OnOk result (TellsMessages (set ++ message ∷ []) (name_in message) about.new) }
{
    match message {
        Message::Request(request) => about.requests.push(request)?,
        Message::Verdict(verdict) => about.verdicts.push(verdict)?,
    }
    Ok(())
}

/// The messages about a name, of which this is the first.
fn first(alloc: Global, message: Message) -> Result<About, NoMemory>
    ensures { (set : List AnyMessage) → IsBehind set message
        → ((m : AnyMessage) → Contains set m → name_in m ≡ name_in message → ⊥)
        → IfOk result (TellsMessages (set ++ message ∷ []) (name_in message)) }
{
    let mut about = nothing(alloc);
    add(&mut about, message)?;
    Ok(about)
}

/// Adds a message; the message's text comes after the texts of the set.
fn put(alloc: Global, all: &mut ByName, message: Message) -> Result<(), NoMemory>
    ensures { (set : List AnyMessage) → IsBehind set message → Gathers set all.old
        → OnOk result (Gathers (set ++ message ∷ []) all.new) }
{
    let name = name_of(&message)?;
    match all.get_mut(&name) {
        Some(about) => add(about, message)?,
        None => {
            let about = first(alloc, message)?;
            all.insert(name, about)?;
        }
    }
    Ok(())
}

/// The messages by their texts.
fn by_text(alloc: Global, list: Vec<Message>) -> Result<ByText, NoMemory>
    ensures { IfOk result (AreByText list.items) }
{
    let mut all = BTreeMap::new(alloc);
    for message in list {
        let text = text_word(alloc, &message)?;
        all.insert(text, message)?;
    }
    Ok(all)
}

/// What messages say about each name, taken in the order of their texts.
fn gather_in_order(alloc: Global, sorted: ByText) -> Result<ByName, NoMemory>
    ensures { (list : List AnyMessage) → AreByText list sorted
        → ((m : AnyMessage) → Contains list m → IsMessage m) → IfOk result (Gathers list) }
{
    let mut all = BTreeMap::new(alloc);
    for (_text, message) in sorted {
        put(alloc, &mut all, message)?;
    }
    Ok(all)
}

/// What the messages say about each name.
pub(crate) fn gather(alloc: Global, list: Vec<Message>) -> Result<ByName, NoMemory>
    ensures { ((m : AnyMessage) → Contains list.items m → IsMessage m)
        → IfOk result (Gathers list.items) }
{
    gather_in_order(alloc, by_text(alloc, list)?)
}
