//! How many messages a desk holds.

ghost use Rattle.std.specs.Prelude.{◌≡◌, ℕ, ◌+◌, List, [], ◌∷◌, ◌++◌};
ghost use Rattle.std.specs.Prelude.{length, Contains, IfOk, IfErr};
ghost use Rattle.messages.specs.Names.{SameMessages};
ghost use Rattle.messages.specs.Wire.{IsMessage};
ghost use Rattle.messages.specs.declared.message.Message.{Message as AnyMessage};
ghost use Rattle.store_tables.specs.Sets.{Lists};
ghost use Rattle.desk.specs.Count.{IsCount};
ghost use Rattle.desk.specs.Refusals.{IsWant};
ghost use Rattle.desk.specs.Serving.{OnlyAsks};
ghost use Rattle.desk.specs.Texts.{AreTexts};

use crate::desk::Desk;
use crate::loading::{count_of, with_count};
use crate::refusal::Refusal;
use desk_store::Keeper;

impl<K: Keeper> Desk<K> {
    /// How many messages the desk holds. Where the count is not known, the messages are counted,
    /// and the count is kept beside what else is known; from then on each new message is counted as
    /// it comes.
    pub fn count(&mut self) -> Result<usize, Refusal>
        ensures count { (set : List AnyMessage) → K.is_up self.new.keeper
            → Lists (K.holds self.old.keeper) set → IfOk result (IsCount set) }
        ensures err { IfErr result IsWant }
        ensures desk { K.is_up self.new.keeper → K.is_desk self.new.keeper }
        ensures asks { OnlyAsks K.Keeper self.old self.new result }
    {
        if let Some(count) = count_of(&self.known) {
            return Ok(count);
        }
        let texts = self.texts()?;
        let count = texts.len();
        self.known = with_count(self.known.take(), count);
        Ok(count)
    }
}

/// Lists of the same messages have one count.
pub fn one_count()
    ensures { (s t : List AnyMessage) (m n : ℕ)
        → SameMessages s t → IsCount s m → IsCount t n → m ≡ n }
{}

/// A set has as many messages as texts.
pub fn count_of_texts()
    ensures { (set : List AnyMessage) (texts : List (List ℕ))
        → ((m : AnyMessage) → Contains set m → IsMessage m)
        → AreTexts set texts → IsCount set (length texts) }
{}

/// An empty list has the count 0. A message that the set lacks adds one to the count, and a message
/// that the set has adds nothing.
pub fn one_more_counted()
    ensures none { IsCount [] 0 }
    ensures new { (set : List AnyMessage) (m : AnyMessage) (n : ℕ)
        → ¬ Contains set m → IsCount set n → IsCount (set ++ m ∷ []) (n + 1) }
    ensures held { (set : List AnyMessage) (m : AnyMessage) (n : ℕ)
        → Contains set m → IsCount set n → IsCount (set ++ m ∷ []) n }
{}
