//! Names of aliases.

ghost use Rattle.std.specs.Prelude.{◌≡◌};
ghost use Rattle.std.specs.List.{list_all};
ghost use Rattle.sudo_words.specs.Word as word;

use crate::keyword::is_among;
use crate::word::{Form, Word};

/// The words that sudoers keeps for itself: `ALL`, the options and the tags.
const RESERVED: [&str; 27] = [
    "ALL",
    "NOTBEFORE",
    "NOTAFTER",
    "TIMEOUT",
    "CWD",
    "CHROOT",
    "ROLE",
    "TYPE",
    "PRIVS",
    "LIMITPRIVS",
    "APPARMOR_PROFILE",
    "PASSWD",
    "NOPASSWD",
    "EXEC",
    "NOEXEC",
    "SETENV",
    "NOSETENV",
    "LOG_INPUT",
    "NOLOG_INPUT",
    "LOG_OUTPUT",
    "NOLOG_OUTPUT",
    "MAIL",
    "NOMAIL",
    "FOLLOW",
    "NOFOLLOW",
    "INTERCEPT",
    "NOINTERCEPT",
];

fn is_alias_byte(b: u8) -> bool
    ensures { result ≡ word.is_alias_byte b }
{
    b.is_ascii_uppercase() || b.is_ascii_digit() || b == b'_'
}

fn all_alias_bytes(text: &[u8]) -> bool
    ensures { result ≡ list_all word.is_alias_byte text.now }
{
    text.iter().all(|b| is_alias_byte(*b))
}

/// Whether the word is one that sudoers keeps for itself.
pub(crate) fn is_reserved(text: &[u8]) -> bool
    ensures { result ≡ word.is_reserved text.now }
{
    is_among(&RESERVED, text)
}

fn is_alias_shape(text: &[u8]) -> bool
    ensures { result ≡ word.is_alias_shape text.now }
{
    match text {
        [] => false,
        [first, rest @ ..] => {
            first.is_ascii_uppercase() && all_alias_bytes(rest) && text.len() <= 32
        }
    }
}

/// The form of an alias's name: `[A-Z][A-Z0-9_]*`, up to 32 bytes, and not a reserved word.
#[derive(Clone, Copy, Debug)]
pub struct AliasForm;

impl Form for AliasForm {
    ghost has = { word.is_alias_name };

    fn test(text: &[u8]) -> bool {
        is_alias_shape(text) && !is_reserved(text)
    }
}

/// The name of an alias.
pub type AliasName = Word<AliasForm>;
