//! All messages of a desk, as their texts.

ghost use Rattle.std.specs.Prelude.{◌≡◌, ℕ, List, map, Contains, IfOk, IfErr, string_bytes};
ghost use Rattle.messages.specs.Names.{SameMessages};
ghost use Rattle.messages.specs.Wire.{IsMessage, wire};
ghost use Rattle.messages.specs.declared.message.Message.{Message as AnyMessage};
ghost use Rattle.store_tables.specs.Sets.{Lists};
ghost use Rattle.desk.specs.Refusals.{IsWant};
ghost use Rattle.desk.specs.Serving.{OnlyAsks};
ghost use Rattle.desk.specs.Texts.{AreTexts};

use crate::desk::Desk;
use crate::loading::listed;
use crate::refusal::Refusal;
use desk_store::Keeper;
use messages::{Message, text};
use std::alloc::Global;
use sudo_words::NoMemory;

impl<K: Keeper> Desk<K> {
    /// All messages, in no order that is promised.
    pub fn messages(&mut self) -> Result<Vec<Message>, Refusal>
        ensures messages { K.is_up self.new.keeper
            → IfOk result (λ list. Lists (K.holds self.old.keeper) list.items) }
        ensures err { IfErr result IsWant }
        ensures desk { K.is_up self.new.keeper → K.is_desk self.new.keeper }
        ensures asks { OnlyAsks K.Keeper self.old self.new result }
    {
        // What is known stays only where the keeper answers.
        let remembered = self.known.take();
        let list = listed(&mut self.keeper, &self.roster, &remembered)?;
        self.known = remembered;
        Ok(list)
    }

    /// The texts of all messages, each once, in byte order: delivered to a desk that holds nothing,
    /// and whose roster admits them all, they make the same set.
    pub fn texts(&mut self) -> Result<Vec<String>, Refusal>
        ensures texts { (set : List AnyMessage) → K.is_up self.new.keeper
            → Lists (K.holds self.old.keeper) set
            → IfOk result (λ texts. AreTexts set (map string_bytes texts.items)) }
        ensures err { IfErr result IsWant }
        ensures desk { K.is_up self.new.keeper → K.is_desk self.new.keeper }
        ensures asks { OnlyAsks K.Keeper self.old self.new result }
    {
        // What is known stays only where the keeper answers.
        let known = self.known.take();
        let set = listed(&mut self.keeper, &self.roster, &known)?;
        self.known = known;
        Ok(texts_in(self.alloc, set.as_slice())?)
    }
}

/// The text of each message, in the order of the list.
fn texts_of(alloc: Global, set: &[Message]) -> Result<Vec<String>, NoMemory>
    ensures { IfOk result (λ texts. map string_bytes texts.items ≡ map wire set.now) }
{
    let mut texts = Vec::new(alloc);
    for message in set {
        texts.push(text(alloc, message)?)?;
    }
    Ok(texts)
}

/// The texts of the messages, each once, in byte order.
fn texts_in(alloc: Global, set: &[Message]) -> Result<Vec<String>, NoMemory>
    ensures { IfOk result (λ texts. AreTexts set.now (map string_bytes texts.items)) }
{
    let mut texts = texts_of(alloc, set)?;
    texts.sort_unstable();
    texts.dedup();
    Ok(texts)
}

/// Lists of the same messages have the same list of texts, and a list of texts is that of one set
/// of messages.
pub fn one_text_list()
    ensures texts { (s t : List AnyMessage) (a b : List (List ℕ))
        → SameMessages s t → AreTexts s a → AreTexts t b → a ≡ b }
    ensures set { (s t : List AnyMessage) (a : List (List ℕ)) → ((m : AnyMessage)
        → Contains s m → IsMessage m) → ((m : AnyMessage) → Contains t m → IsMessage m)
        → AreTexts s a → AreTexts t a → SameMessages s t }
{}
