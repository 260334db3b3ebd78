//! Arguments as sudoers texts write them: with a backslash before each `,`, `:` and `=`.

ghost use Rattle.std.specs.Prelude.{◌≡◌, ◌<◌, ◌++◌, ℕ, List, true, IfOk, IfSome};
ghost use Rattle.std.specs.Prelude.{IsSome, MatchResult, OnOk, string_bytes};
ghost use Rattle.std.specs.List.{list_all};
ghost use Rattle.sudo_words.specs.Word.{is_arg, is_arg_byte as may_stand};
ghost use Rattle.sudo_words.specs.Command.{arg_text, escaped_byte};
ghost use Rattle.sudo_words.specs.Command as command;
ghost use Rattle.sudo_words.specs.declared.fault.WordFault.TheVariants.{NoMemory};

use crate::arg::{Arg, is_arg_byte};
use crate::fault::WordFault;
use std::alloc::{AllocError, Global};

/// Whether an argument's text has a backslash before the byte (sudoers(5), "Other special
/// characters and reserved words").
pub fn is_escaped(byte: u8) -> bool
    ensures { result ≡ command.is_escaped byte }
{
    byte == b',' || byte == b':' || byte == b'='
}

/// The byte of an argument that the front of a text spells, and what follows it.
fn next_byte(text: &[u8]) -> Option<(u8, &[u8])>
    ensures found { IfSome result
        (λ p. (may_stand p.0 ≡ true) × (text.now ≡ escaped_byte p.0 ++ p.1.now)) }
    ensures only { (b : ℕ) (rest : List ℕ) → may_stand b ≡ true
        → text.now ≡ escaped_byte b ++ rest → IsSome result }
{
    let (first, rest) = text.split_first()?;
    if *first == b'\\' {
        let (second, rest) = rest.split_first()?;
        if is_escaped(*second) {
            Some((*second, rest))
        } else {
            None
        }
    } else if is_arg_byte(*first) && !is_escaped(*first) {
        Some((*first, rest))
    } else {
        None
    }
}

/// The bytes of an argument that the text spells, however many; `BadWord` if it is not the text of
/// such bytes.
fn unescaped(alloc: Global, text: &[u8]) -> Result<String, WordFault>
    ensures found { IfOk result (λ s. text.now ≡ arg_text (string_bytes s)) }
    ensures only { (a : List ℕ) → list_all may_stand a ≡ true → text.now ≡ arg_text a
        → MatchResult result (λ s. string_bytes s ≡ a) (λ e. e ≡ NoMemory) }
{
    let mut out = String::new(alloc);
    let mut left = text;
    while let Some((byte, rest)) = next_byte(left) {
        out.push(char::from(byte))?;
        left = rest;
    }
    if left.is_empty() {
        Ok(out)
    } else {
        Err(WordFault::BadWord)
    }
}

/// The argument that the text spells, with its backslashes; `BadWord` if it spells none.
pub fn read_arg(alloc: Global, text: &str) -> Result<Arg, WordFault>
    ensures found { IfOk result (λ a. (is_arg a ≡ true) × (text.now ≡ arg_text a)) }
    ensures only { (a : List ℕ) → is_arg a ≡ true → text.now ≡ arg_text a
        → MatchResult result (λ x. x ≡ a) (λ e. e ≡ NoMemory) }
{
    Arg::from_string(unescaped(alloc, text.as_bytes())?)
}

fn push_byte(out: &mut String, byte: u8) -> Result<(), AllocError>
    requires { byte < 128 }
    ensures { OnOk result (string_bytes out.new ≡ string_bytes out.old ++ escaped_byte byte) }
{
    if is_escaped(byte) {
        out.push('\\')?;
    }
    out.push(char::from(byte))
}

fn push_bytes(out: &mut String, bytes: &[u8]) -> Result<(), AllocError>
    requires { list_all may_stand bytes.now ≡ true }
    ensures { OnOk result (string_bytes out.new ≡ string_bytes out.old ++ arg_text bytes.now) }
{
    for byte in bytes {
        push_byte(out, *byte)?;
    }
    Ok(())
}

/// Adds the argument's text.
pub(crate) fn push_arg(out: &mut String, arg: &Arg) -> Result<(), AllocError>
    ensures { OnOk result (string_bytes out.new ≡ string_bytes out.old ++ arg_text arg.now) }
{
    push_bytes(out, arg.as_str().as_bytes())
}
