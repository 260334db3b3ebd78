//! The history of the site, as a desk tells it.

ghost use Rattle.std.specs.Prelude.{◌≡◌, ◌≤◌, ◌↔◌, ◌++◌, ℕ, List, IfOk, Ok, length, true};
ghost use Rattle.std.specs.Prelude.{string_bytes};
ghost use Rattle.desk.specs.History.{EndsWithDigests, IsHistory};

use crate::desk::Desk;
use desk_store::Keeper;
use sudo_words::NoMemory;

/// The most bytes of a history: 1 MiB.
const MOST_HISTORY: usize = 1_048_576;

/// Whether the text ends with this line, and is not too long.
fn is_ended_by(text: &str, line: &str) -> bool
    ensures { (result ≡ true) ↔ ((length text.now ≤ 1_048_576)
        × ((before : List ℕ) × (text.now ≡ before ++ line.now))) }
{
    text.len() <= MOST_HISTORY && text.as_bytes().ends_with(line.as_bytes())
}

impl<K: Keeper> Desk<K> {
    /// The history of the site. It is empty where none is known; else its last line ends with the
    /// digests of the desk's roster and base.
    pub fn history(&self) -> &str
        ensures value { result.now ≡ self.now.history }
        ensures ends { IsHistory self.now.roster.text self.now.base self.now.history }
    {
        self.history.as_str()
    }

    /// Takes the text as the history of the site, where its last line ends with the digests of the
    /// desk's roster and base and it has at most 1 MiB, and answers whether it was taken. A text
    /// that was not taken leaves the history as it was.
    pub fn take_history(&mut self, text: String) -> Result<bool, NoMemory>
        ensures taken { result ≡ Ok true → self.new.history ≡ string_bytes text }
        ensures kept { (result ≡ Ok true → ⊥) → self.new.history ≡ self.old.history }
        ensures judged { IfOk result (λ taken. (taken ≡ true)
            ↔ ((length (string_bytes text) ≤ 1_048_576)
            × EndsWithDigests self.old.roster.text self.old.base (string_bytes text))) }
        ensures roster { self.new.roster ≡ self.old.roster }
        ensures base { self.new.base ≡ self.old.base }
        ensures keeper { self.new.keeper ≡ self.old.keeper }
    {
        let mut line = self.digests()?;
        line.push_str("\n")?;
        if !is_ended_by(text.as_str(), line.as_str()) {
            drop(text);
            return Ok(false);
        }
        self.history = text;
        Ok(true)
    }
}
