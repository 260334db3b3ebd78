//! Names of users, targets and hosts.

ghost use Rattle.std.specs.Prelude.{◌≡◌};
ghost use Rattle.std.specs.List.{list_all};
ghost use Rattle.sudo_words.specs.Word as word;

use crate::keyword::is_keyword;
use crate::word::{Form, Word};

fn is_name_byte(b: u8) -> bool
    ensures { result ≡ word.is_name_byte b }
{
    b.is_ascii_lowercase() || b.is_ascii_digit() || b == b'.' || b == b'_' || b == b'-'
}

fn all_name_bytes(text: &[u8]) -> bool
    ensures { result ≡ list_all word.is_name_byte text.now }
{
    text.iter().all(|b| is_name_byte(*b))
}

fn is_host_byte(b: u8) -> bool
    ensures { result ≡ word.is_host_byte b }
{
    b.is_ascii_lowercase() || b.is_ascii_digit() || b == b'-'
}

fn all_host_bytes(text: &[u8]) -> bool
    ensures { result ≡ list_all word.is_host_byte text.now }
{
    text.iter().all(|b| is_host_byte(*b))
}

fn is_name_shape(text: &[u8]) -> bool
    ensures { result ≡ word.is_name_shape text.now }
{
    match text {
        [] => false,
        [first, rest @ ..] => {
            (first.is_ascii_lowercase() || *first == b'_')
                && all_name_bytes(rest)
                && text.len() <= 32
        }
    }
}

/// The form of a user's or target's name: `[a-z_][a-z0-9._-]*`, up to 32 bytes, and not a keyword.
#[derive(Clone, Copy, Debug)]
pub struct UserForm;

impl Form for UserForm {
    ghost has = { word.is_name };

    fn test(text: &[u8]) -> bool {
        is_name_shape(text) && !is_keyword(text)
    }
}

/// The name of a user, or of the target that a command runs as.
pub type Name = Word<UserForm>;

/// The form of a label, such as a ceiling's name: `[a-z][a-z0-9-]*`, up to 32 bytes.
#[derive(Clone, Copy, Debug)]
pub struct LabelForm;

impl Form for LabelForm {
    ghost has = { word.is_label };

    fn test(text: &[u8]) -> bool {
        match text {
            [] => false,
            [first, rest @ ..] => {
                first.is_ascii_lowercase() && all_host_bytes(rest) && text.len() <= 32
            }
        }
    }
}

/// A label of the desk, such as a ceiling's name.
pub type Label = Word<LabelForm>;

/// The form of a host's name: that of a label, and not a keyword.
#[derive(Clone, Copy, Debug)]
pub struct HostForm;

impl Form for HostForm {
    ghost has = { word.is_host_name };

    fn test(text: &[u8]) -> bool {
        LabelForm::test(text) && !is_keyword(text)
    }
}

/// The name of a host.
pub type HostName = Word<HostForm>;
