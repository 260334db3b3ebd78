//! Cuts a list of messages at a moment.

ghost use Rattle.std.specs.Prelude.{◌≡◌, ◌∷◌, ◌++◌, [], true, false, IfOk, OnOk};
ghost use Rattle.std.specs.List.Sorted.{IsPermutation};
ghost use Rattle.archive.specs.Archive.{IsArchive, IsCut};

use crate::ends::{ends_of, is_over};
use messages::Message;
use std::alloc::Global;
use sudo_words::{Moment, NoMemory};

/// The parts of a history that is cut.
#[derive(Drop)]
pub struct Parts {
    /// What stays: it grants from the moment on what the whole history would.
    pub kept: Vec<Message>,
    /// The verdicts on what had ended.
    pub archived: Vec<Message>,
}

impl Parts {
    /// Adds a message to what stays, or to the archive if it is over.
    fn put(&mut self, message: Message, over: bool) -> Result<(), NoMemory>
        ensures goes { over ≡ true → OnOk result
            (self.new.archived.items ≡ self.old.archived.items ++ message ∷ []) }
        ensures goes_alone { over ≡ true → self.new.kept.items ≡ self.old.kept.items }
        ensures stays { over ≡ false → OnOk result
            (self.new.kept.items ≡ self.old.kept.items ++ message ∷ []) }
        ensures stays_alone { over ≡ false → self.new.archived.items ≡ self.old.archived.items }
    {
        if over {
            self.archived.push(message)?;
        } else {
            self.kept.push(message)?;
        }
        Ok(())
    }
}

/// Cuts a history at a moment: the verdicts on names whose requests all ended before it go to the
/// archive, and everything else stays, each message as often as it was there.
pub fn cut(alloc: Global, messages: Vec<Message>, moment: Moment) -> Result<Parts, NoMemory>
    ensures kept { IfOk result (λ p. IsCut messages.items moment p.kept.items) }
    ensures archived { IfOk result (λ p. IsArchive messages.items moment p.archived.items) }
    ensures whole { IfOk result (λ p.
        IsPermutation messages.items (p.kept.items ++ p.archived.items)) }
{
    let ends = ends_of(alloc, &messages)?;
    let mut parts = Parts {
        kept: Vec::new(alloc),
        archived: Vec::new(alloc),
    };
    for message in messages {
        let over = is_over(&ends, &message, moment)?;
        parts.put(message, over)?;
    }
    Ok(parts)
}
