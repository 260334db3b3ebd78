//! The words and marks of a line.

ghost use Rattle.std.specs.Prelude.{◌≡◌, ◌≤◌, true, false, length, take, drop};
ghost use Rattle.std.specs.Prelude.{take_while, MatchResult, MatchOption, List};
ghost use Rattle.std.specs.Prelude.{IfOk, IfErr, IfSome, IsSome, None, ℕ, ◌++◌};
ghost use Rattle.std.specs.List.{list_all};
ghost use Rattle.sudo_policy.specs.declared.fault.LineFault.TheVariants.{NoMemory};
ghost use Rattle.sudo_words.specs.Command as command;
ghost use Rattle.sudo_policy.specs.private.Cuts.{IsCut, IsFirstToken, is_bang};
ghost use Rattle.sudo_policy.specs.Lex as lex;
ghost use Rattle.sudo_syntax.specs.private.Tokens as lexing;
ghost use Rattle.sudo_syntax.specs.private.Tokens.{IsBehindPart, IsWordCut};

use std::alloc::Global;
use std::str;
use sudo_policy::LineFault;
use sudo_words::is_escaped;

/// A byte that stands for itself between words.
#[derive(Clone, Copy, PartialEq, Eq)]
pub(crate) enum Mark {
    /// `=`, before a list.
    Equals,
    /// `,`, between the items of a list.
    Comma,
    /// `:`, between definitions or parts, and after a tag.
    Colon,
    /// `(`, before targets.
    Opening,
    /// `)`, after targets.
    Closing,
    /// `"`; two of them say that no argument is allowed.
    Quote,
}

impl Mark {
    /// The mark that the byte is, if it is one.
    fn read(byte: u8) -> Option<Mark>
        ensures { MatchOption result (lex.is_mark byte
            ≡ false) (λ mark. (lexing.mark_byte mark ≡ byte) × (lex.is_mark byte ≡ true)) }
    {
        match byte {
            b'=' => Some(Mark::Equals),
            b',' => Some(Mark::Comma),
            b':' => Some(Mark::Colon),
            b'(' => Some(Mark::Opening),
            b')' => Some(Mark::Closing),
            b'"' => Some(Mark::Quote),
            _ => None,
        }
    }
}

/// A word or a mark of a line.
#[derive(Clone, Copy)]
pub(crate) struct Token<'a> {
    /// Whether blanks stand before it.
    pub(crate) spaced: bool,
    /// Which word or mark it is.
    pub(crate) kind: TokenKind<'a>,
}

/// What a token is.
#[derive(Clone, Copy)]
pub(crate) enum TokenKind<'a> {
    /// A word.
    Word {
        /// How many `!` stand directly before the word.
        bangs: usize,
        /// The word's bytes as they are in the line.
        text: &'a str,
    },
    /// A mark.
    Mark(Mark),
}

fn is_text_byte(b: u8) -> bool
    ensures { result ≡ lex.is_text_byte b }
{
    b == b'\t' || b == b'\n' || (b >= b' ' && b <= b'~')
}

/// Whether the byte is a blank: a space or a tab.
pub(crate) fn is_blank(b: u8) -> bool
    ensures { result ≡ lex.is_blank b }
{
    b == b' ' || b == b'\t'
}

/// 1 at each byte of a word. One look answers, where comparing with each range takes many steps,
/// and most bytes of a text are asked about.
#[rattlefmt::skip]
static WORD_BYTES: [u8; 256] = [
    0, 0, 0, 0, 0, 0, 0, 0, 0, 0, 0, 0, 0, 0, 0, 0,
    0, 0, 0, 0, 0, 0, 0, 0, 0, 0, 0, 0, 0, 0, 0, 0,
    0, 0, 0, 0, 0, 1, 0, 0, 0, 0, 0, 1, 0, 1, 1, 1,
    1, 1, 1, 1, 1, 1, 1, 1, 1, 1, 0, 0, 0, 0, 0, 0,
    1, 1, 1, 1, 1, 1, 1, 1, 1, 1, 1, 1, 1, 1, 1, 1,
    1, 1, 1, 1, 1, 1, 1, 1, 1, 1, 1, 0, 0, 0, 0, 1,
    0, 1, 1, 1, 1, 1, 1, 1, 1, 1, 1, 1, 1, 1, 1, 1,
    1, 1, 1, 1, 1, 1, 1, 1, 1, 1, 1, 0, 0, 0, 0, 0,
    0, 0, 0, 0, 0, 0, 0, 0, 0, 0, 0, 0, 0, 0, 0, 0,
    0, 0, 0, 0, 0, 0, 0, 0, 0, 0, 0, 0, 0, 0, 0, 0,
    0, 0, 0, 0, 0, 0, 0, 0, 0, 0, 0, 0, 0, 0, 0, 0,
    0, 0, 0, 0, 0, 0, 0, 0, 0, 0, 0, 0, 0, 0, 0, 0,
    0, 0, 0, 0, 0, 0, 0, 0, 0, 0, 0, 0, 0, 0, 0, 0,
    0, 0, 0, 0, 0, 0, 0, 0, 0, 0, 0, 0, 0, 0, 0, 0,
    0, 0, 0, 0, 0, 0, 0, 0, 0, 0, 0, 0, 0, 0, 0, 0,
    0, 0, 0, 0, 0, 0, 0, 0, 0, 0, 0, 0, 0, 0, 0, 0,
];

fn is_word_byte(b: u8) -> bool
    ensures { result ≡ lex.is_word_byte b }
{
    WORD_BYTES[usize::from(b)] == 1
}

/// How many blanks stand at the front.
fn blank_len(bytes: &[u8]) -> usize
    ensures { result ≡ length (take_while lex.is_blank bytes.now) }
{
    bytes.iter().take_while(|b| is_blank(**b)).count()
}

/// How many `!` stand at the front.
fn bang_len(bytes: &[u8]) -> usize
    ensures { result ≡ length (take_while is_bang bytes.now) }
{
    bytes.iter().take_while(|b| **b == b'!').count()
}

/// How many bytes at the front are bytes that a text may have.
fn text_len(bytes: &[u8]) -> usize
    ensures { result ≡ length (take_while lex.is_text_byte bytes.now) }
{
    bytes.iter().take_while(|b| is_text_byte(**b)).count()
}

/// Whether a text may have each of the bytes. All bytes are looked at, even after a byte that no
/// text may have, so that many are tested at once.
pub(crate) fn is_text(bytes: &[u8]) -> bool
    ensures { result ≡ list_all lex.is_text_byte bytes.now }
{
    let mut each = true;
    for byte in bytes {
        each &= is_text_byte(*byte);
    }
    each
}

/// The bytes at the front that a text may have, and what follows them.
pub(crate) fn cut_text(bytes: &[u8]) -> (&[u8], &[u8])
    ensures { IsCut lex.is_text_byte bytes.now result.0.now result.1.now }
{
    bytes.split_at(text_len(bytes))
}

/// The blanks at the front, and what follows them.
fn cut_blanks(bytes: &[u8]) -> (&[u8], &[u8])
    ensures { IsCut lex.is_blank bytes.now result.0.now result.1.now }
{
    bytes.split_at(blank_len(bytes))
}

/// The `!` at the front, and what follows them.
fn cut_bangs(bytes: &[u8]) -> (&[u8], &[u8])
    ensures { IsCut is_bang bytes.now result.0.now result.1.now }
{
    bytes.split_at(bang_len(bytes))
}

/// What follows a byte of a word, or a backslash and the byte that it escapes, if such a part of a
/// word is at the front.
fn behind_part(bytes: &[u8]) -> Option<&[u8]>
    ensures found { IfSome result (λ rest. (part : List ℕ) × IsBehindPart bytes.now part rest.now) }
    ensures none { result ≡ None → lex.goes_on bytes.now ≡ false }
{
    match bytes {
        [byte, rest @ ..] if is_word_byte(*byte) => Some(rest),
        [b'\\', escaped, rest @ ..] if is_escaped(*escaped) => Some(rest),
        _ => None,
    }
}

/// How long the word at the front is, which may be empty.
fn word_len(bytes: &[u8]) -> usize
    ensures within { result ≤ length bytes.now }
    ensures cut { IsWordCut bytes.now (take result bytes.now) (drop result bytes.now) }
{
    let mut rest = bytes;
    while let Some(after) = behind_part(rest) {
        rest = after;
    }
    bytes.len() - rest.len()
}

/// The word at the front, which may be empty, and what follows it.
fn cut_word(bytes: &[u8]) -> (&[u8], &[u8])
    ensures { IsWordCut bytes.now result.0.now result.1.now }
{
    bytes.split_at(word_len(bytes))
}

/// A word's bytes as text: they are ASCII.
fn text_of(word: &[u8]) -> &str
    requires { lex.is_word_text word.now ≡ true }
    ensures { result.now ≡ word.now }
{
    // ASCII bytes are UTF-8, which is proved for this call and not tested.
    unsafe { str::from_utf8_unchecked(word) }
}

/// What is wrong where this byte, which is not `!`, begins no word: wildcards, quotes, escapes and
/// comments are left out, marks and blanks may not follow a `!`, and no other byte is allowed.
fn stray(byte: u8) -> LineFault {
    match byte {
        b'*' | b'?' | b'[' | b']' | b'"' | b'\\' | b'#' => LineFault::LeftOut,
        _ if is_blank(byte) || Mark::read(byte).is_some() => LineFault::Unexpected,
        _ => LineFault::BadWord,
    }
}

/// What is wrong with bytes that do not begin with a word.
fn no_word(bytes: &[u8]) -> LineFault {
    match bytes {
        [] => LineFault::Unexpected,
        [first, ..] => stray(*first),
    }
}

/// The first token, if there is one, and what follows it.
fn next_token(bytes: &[u8]) -> Result<Option<(Token<'_>, &[u8])>, LineFault>
    ensures first { IfOk result (λ o.
        MatchOption o (lexing.IsLast bytes.now)
        (λ x. IsFirstToken bytes.now (lexing.tok x.0) x.1.now)) }
    ensures fault { IfErr result (λ e. lexing.NoLexing bytes.now) }
{
    let (blanks, rest) = cut_blanks(bytes);
    let spaced = !blanks.is_empty();
    let [first, others @ ..] = rest else {
        return Ok(None);
    };
    if let Some(mark) = Mark::read(*first) {
        let kind = TokenKind::Mark(mark);
        return Ok(Some((Token { spaced, kind }, others)));
    }
    let (bangs, behind) = cut_bangs(rest);
    let (word, after) = cut_word(behind);
    if word.is_empty() {
        return Err(no_word(behind));
    }
    let bangs = bangs.len();
    let text = text_of(word);
    let kind = TokenKind::Word { bangs, text };
    Ok(Some((Token { spaced, kind }, after)))
}

/// The tokens of a line.
#[tactic(auto, using(crate::proofs::TokenLemmas::leads_end))]
pub(crate) fn tokens(alloc: Global, line: &[u8]) -> Result<Vec<Token<'_>>, LineFault>
    ensures found { IfOk result (λ v. lex.Lexes line.now (lexing.toks v.items)) }
    ensures only { (ts : List lex.Tok) → lex.Lexes line.now ts
        → MatchResult result (λ v. lexing.toks v.items ≡ ts) (λ e. e ≡ NoMemory) }
{
    let mut out = Vec::with_capacity(alloc, line.len() / 4)?;
    let mut rest = line;
    while let Some((token, after)) = next_token(rest)? {
        out.push(token)?;
        rest = after;
    }
    Ok(out)
}
