//! The texts of messages, as words: what orders messages by their texts.

ghost use Rattle.std.specs.Prelude.{◌≡◌, IfOk, true};
ghost use Rattle.messages.specs.Wire.{wire};

use messages::{Message, text};
use std::alloc::Global;
use sudo_words::{Form, NoMemory, Word, WordFault};

/// Any text at all.
#[derive(Clone, Debug, Drop)]
pub struct AnyText;

impl Form for AnyText {
    ghost use Rattle.std.specs.Prelude.{true};

    ghost has = { λ text. true };

    fn test(_text: &[u8]) -> bool {
        true
    }
}

/// The text of a message.
pub(crate) fn text_word(alloc: Global, message: &Message) -> Result<Word<AnyText>, NoMemory>
    ensures { IfOk result (λ w. w ≡ wire message.now) }
{
    match Word::from_string(text(alloc, message)?) {
        Ok(word) => Ok(word),
        Err(_) => Err(NoMemory),
    }
}
