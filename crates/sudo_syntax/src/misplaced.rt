//! The faults of words and marks that the grammar does not allow where they are.

use crate::token::{Mark, Token, TokenKind};
use sudo_policy::{LineFault, Tag};
use sudo_words::{AliasForm, Form, is_keyword, is_sudoedit};

/// Whether the word begins a line that sudoers has and the desk leaves out.
fn begins_left_out(text: &str) -> bool {
    text.starts_with("Defaults") || text.starts_with('@') || text == "Cmd_Alias"
}

/// Whether the word is made of what addresses have: digits, dots and slashes.
fn is_address(text: &[u8]) -> bool {
    text.iter()
        .all(|b| b.is_ascii_digit() || *b == b'.' || *b == b'/')
}

/// Whether the word is a group, a netgroup, an address or a domain name.
fn is_left_out(text: &[u8]) -> bool {
    match text {
        [b'%' | b'+', ..] => true,
        [b'/', ..] => false,
        [first, ..] if first.is_ascii_digit() => is_address(text),
        _ => text.contains(&b'.'),
    }
}

/// Whether the word has the shape of an alias's name.
fn is_alias_shape(text: &[u8]) -> bool {
    let begins_upper = match text {
        [] => false,
        [first, ..] => first.is_ascii_uppercase(),
    };
    begins_upper
        && text.len() <= 32
        && text.iter().all(|b| b.is_ascii_uppercase() || b.is_ascii_digit() || *b == b'_')
}

/// Whether sudoers keeps the word for itself: it has the shape of an alias's name but is not one.
fn is_reserved(text: &[u8]) -> bool {
    is_alias_shape(text) && !AliasForm::test(text)
}

/// What is wrong with a word that is not of the form that its place asks for.
pub(crate) fn bad_word(text: &str) -> LineFault {
    let bytes = text.as_bytes();
    if is_reserved(bytes) {
        LineFault::Reserved
    } else if begins_left_out(text) || is_left_out(bytes) || is_keyword(bytes) {
        LineFault::LeftOut
    } else {
        LineFault::BadWord
    }
}

/// Whether the desk has this option or tag.
fn is_known(text: &str) -> bool {
    text == "NOTBEFORE" || text == "NOTAFTER" || Tag::of_word(text).is_some()
}

/// Whether the word is not a command that the desk has: it begins a digest, or names one of sudo's
/// own commands, by its bare name or by a path.
fn is_no_file(text: &str) -> bool {
    let bytes = text.as_bytes();
    is_keyword(bytes) || is_sudoedit(bytes) || text == "list"
}

/// What is wrong with a word that does not begin a command.
pub(crate) fn bad_cmnd(text: &str) -> LineFault {
    if is_known(text) {
        LineFault::Unexpected
    } else if is_no_file(text) || (is_reserved(text.as_bytes()) && text != "ALL") {
        LineFault::LeftOut
    } else {
        LineFault::BadWord
    }
}

/// What is wrong with an option that is neither of the two dates, or is given twice.
pub(crate) fn bad_option(name: &str) -> LineFault {
    if is_known(name) || !is_reserved(name.as_bytes()) {
        LineFault::Unexpected
    } else {
        LineFault::LeftOut
    }
}

/// What is wrong with tokens that the grammar does not allow: the desk leaves out quoted words.
pub(crate) fn misplaced(tokens: &[Token<'_>]) -> LineFault {
    match tokens {
        [
            Token {
                kind: TokenKind::Mark(Mark::Quote),
                ..
            },
            ..
        ] => LineFault::LeftOut,
        _ => LineFault::Unexpected,
    }
}

/// What is wrong with tokens after targets, where a `)` is missing: a group after `:` is left out.
pub(crate) fn unclosed(tokens: &[Token<'_>]) -> LineFault {
    match tokens {
        [
            Token {
                kind: TokenKind::Mark(Mark::Colon),
                ..
            },
            ..
        ] => LineFault::LeftOut,
        _ => misplaced(tokens),
    }
}
