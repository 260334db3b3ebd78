//! Arguments of commands.

ghost use Rattle.std.specs.Prelude.{◌≡◌};
ghost use Rattle.std.specs.List.{list_all};
ghost use Rattle.sudo_words.specs.Word as word;

use crate::path::is_path_byte;
use crate::word::{Form, Word};

pub(crate) fn is_arg_byte(b: u8) -> bool
    ensures { result ≡ word.is_arg_byte b }
{
    is_path_byte(b) || b == b'/' || b == b'@' || b == b'%' || b == b',' || b == b':' || b == b'='
}

fn all_arg_bytes(text: &[u8]) -> bool
    ensures { result ≡ list_all word.is_arg_byte text.now }
{
    text.iter().all(|b| is_arg_byte(*b))
}

/// The form of an argument: 1 to 64 bytes of letters, digits and `. _ / + - @ % , : =`.
#[derive(Clone, Copy, Debug)]
pub struct ArgForm;

impl Form for ArgForm {
    ghost has = { word.is_arg };

    fn test(text: &[u8]) -> bool {
        all_arg_bytes(text) && 1 <= text.len() && text.len() <= 64
    }
}

/// An argument of a command, as its value: without the backslashes of its text.
pub type Arg = Word<ArgForm>;
