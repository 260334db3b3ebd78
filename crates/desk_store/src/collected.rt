//! Messages, each once.

ghost use Rattle.std.specs.Prelude.{◌≡◌, ◌≢◌, ◌<◌, [], ◌∷◌, false, AllPairs, Contains, IfOk};
ghost use Rattle.std.specs.Prelude.{OnOk, OnErr, IfErr, IsPermutation, string_bytes, vec_len};
ghost use Rattle.std.specs.Prelude.{vec_capacity};
ghost use Rattle.messages.specs.Wire.{IsMessage, wire};
ghost use Rattle.messages.specs.declared.message.Message.{Message as AnyMessage};
ghost use Rattle.store_tables.specs.Arrivals.{IsTold};
ghost use Rattle.desk_store.specs.private.Collected.{IsPut, has_text};
ghost use Rattle.desk_store.specs.declared.error.KeeperError.TheVariants as error;

use crate::error::KeeperError;
use messages::Message;
use std::alloc::Global;
use std::collections::HashSet;
use std::marker::Model;
use store_tables::Arrival;

/// Messages, each once, in the order in which they came. Contracts see the list.
#[derive(Drop)]
pub(crate) struct Collected {
    alloc: Global,
    messages: Vec<Message>,
    /// The text of each message, by which a repeat is found.
    texts: HashSet<String>,
}

impl Model for Collected {
    ghost use Rattle.std.specs.Prelude.{List};
    ghost use Rattle.messages.specs.declared.message.Message.{Message};
    ghost use Rattle.desk_store.specs.private.Collected.{IsKept};

    ghost Value = { List Message };

    ghost view = { λ c. c.messages.items };

    ghost invariant = { λ c. IsKept c.messages.items c.texts.keys };
}

/// Whether the text is one of the texts.
fn knows(texts: &HashSet<String>, text: &str) -> bool
    ensures { result ≡ has_text texts.now.keys text.now }
{
    texts.contains(text)
}

/// A copy of the message, and one of its text. After Ok the list has room for one more.
fn copies(
    alloc: Global,
    messages: &mut Vec<Message>,
    message: &Message,
    text: &str,
) -> Result<(Message, String), KeeperError>
    ensures message { IfOk result (λ copy. copy.0 ≡ message.now) }
    ensures text { IfOk result (λ copy. string_bytes copy.1 ≡ text.now) }
    ensures same { messages.new.items ≡ messages.old.items }
    ensures room { OnOk result (vec_len messages.new < vec_capacity messages.new) }
    ensures err { IfErr result (λ e. e ≡ error.NoMemory) }
{
    let key = String::from_str(alloc, text)?;
    messages.reserve(1)?;
    let copy = message.clone()?;
    Ok((copy, key))
}

/// Adds the text, which is new, to the texts.
fn add_text(texts: &mut HashSet<String>, key: String) -> Result<(), KeeperError>
    requires new { has_text texts.old.keys (string_bytes key) ≡ false }
    ensures keys { OnOk result (IsPermutation (key ∷ texts.old.keys) texts.new.keys) }
    ensures unchanged { OnErr result (texts.new.keys ≡ texts.old.keys) }
    ensures err { IfErr result (λ e. e ≡ error.NoMemory) }
{
    texts.insert(key)?;
    Ok(())
}

impl Collected {
    /// No messages. The call takes no memory.
    pub(crate) fn new(alloc: Global) -> Collected
        ensures { result ≡ [] }
    {
        Collected {
            alloc,
            messages: Vec::new(alloc),
            texts: HashSet::new(alloc),
        }
    }

    /// Adds a copy of the message, whose text this is, after the others, unless the message is
    /// there already. The answer tells whether the message was new.
    pub(crate) fn put(&mut self, message: &Message, text: &str) -> Result<Arrival, KeeperError>
        requires message { IsMessage message.now }
        requires text { text.now ≡ wire message.now }
        ensures put { OnOk result (IsPut self.old message.now self.new) }
        ensures told { IfOk result (IsTold (Contains self.old message.now)) }
        ensures unchanged { OnErr result (self.new ≡ self.old) }
        ensures err { IfErr result (λ e. e ≡ error.NoMemory) }
    {
        if knows(&self.texts, text) {
            return Ok(Arrival::Held);
        }
        let (copy, key) = copies(self.alloc, &mut self.messages, message, text)?;
        // The copy is dropped by a call: if the exit dropped it inline, each of its fields would be
        // proved again there.
        match add_text(&mut self.texts, key) {
            Ok(()) => {
                self.messages.push_reserved(copy);
                Ok(Arrival::New)
            }
            Err(error) => {
                drop(copy);
                Err(error)
            }
        }
    }

    /// The messages.
    pub(crate) fn as_slice(&self) -> &[Message]
        ensures value { result.now ≡ self.now }
        ensures only { (m : AnyMessage) → Contains result.now m → IsMessage m }
        ensures once { AllPairs (λ m n. m ≢ n) result.now }
    {
        &self.messages
    }

    /// A copy of the messages.
    pub(crate) fn copied(&self) -> Result<Vec<Message>, KeeperError>
        ensures value { IfOk result (λ list. list.items ≡ self.now) }
        ensures only { (m : AnyMessage) → Contains self.now m → IsMessage m }
        ensures once { AllPairs (λ m n. m ≢ n) self.now }
        ensures err { IfErr result (λ e. e ≡ error.NoMemory) }
    {
        Ok(self.messages.clone()?)
    }
}
