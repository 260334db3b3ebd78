//! What stands at the front of tokens.

ghost use Rattle.std.specs.Prelude.{◌≡◌, ◌≢◌, ◌<◌, ◌∷◌, Bool, true, false};
ghost use Rattle.std.specs.Prelude.{List, ℕ, length, IfSome, MatchOption};
ghost use Rattle.sudo_words.specs.Bytes.{equals, quote};
ghost use Rattle.sudo_syntax.specs.private.Fronts.{NoArg, NoDate, NoHead, NoKind, NoMark, NoWord};
ghost use Rattle.sudo_policy.specs.Grammar as grammar;
ghost use Rattle.sudo_policy.specs.Lex as lex;
ghost use Rattle.sudo_policy.specs.Lex.{Tok};
ghost use Rattle.sudo_syntax.specs.private.Tokens.{mark_byte, tok, toks};

use crate::token::{Mark, Token, TokenKind};

/// The token's word, or `None` if it is a mark or has `!` before it.
fn plain_word<'a>(token: &Token<'a>) -> Option<&'a str>
    ensures { MatchOption result ((a : Bool) (text : List ℕ) → tok token.now ≢ lex.word a 0 text)
        (λ text. tok token.now ≡ lex.word token.now.spaced 0 text.now) }
{
    match token.kind {
        TokenKind::Word { bangs: 0, text } => Some(text),
        _ => None,
    }
}

/// Whether the token is this mark.
fn is_mark(token: &Token<'_>, mark: Mark) -> bool
    ensures yes { result ≡ true → tok token.now ≡ lex.mark token.now.spaced (mark_byte mark) }
    ensures no { result ≡ false → (a : Bool) → tok token.now ≢ lex.mark a (mark_byte mark) }
{
    match token.kind {
        TokenKind::Mark(found) => found == mark,
        TokenKind::Word { .. } => false,
    }
}

/// Whether blanks stand before the first token.
pub(crate) fn begins_spaced(tokens: &[Token<'_>]) -> bool
    ensures { result ≡ grammar.begins_spaced (toks tokens.now) }
{
    match tokens {
        [first, ..] => first.spaced,
        [] => false,
    }
}

/// How many `!` stand before the word at the front, the word, and what follows it.
pub(crate) fn word_at<'a, 'b>(tokens: &'b [Token<'a>]) -> Option<(usize, &'a str, &'b [Token<'a>])>
    ensures found { MatchOption result (NoWord (toks tokens.now))
        (λ x. (a : Bool) × (toks tokens.now ≡ lex.word a x.0 x.1.now ∷ toks x.2.now)) }
    ensures shorter { IfSome result (λ x. length x.2.now < length tokens.now) }
{
    let [first, rest @ ..] = tokens else {
        return None;
    };
    match first.kind {
        TokenKind::Word { bangs, text } => Some((bangs, text, rest)),
        TokenKind::Mark(_) => None,
    }
}

/// What follows the mark, or `None` if it is not at the front.
pub(crate) fn after_mark<'a, 'b>(mark: Mark, tokens: &'b [Token<'a>]) -> Option<&'b [Token<'a>]>
    ensures found { MatchOption result (NoMark (mark_byte mark) (toks tokens.now))
        (λ rest. (a : Bool) × (toks tokens.now ≡ lex.mark a (mark_byte mark) ∷ toks rest.now)) }
    ensures shorter { IfSome result (λ rest. length rest.now < length tokens.now) }
{
    match tokens {
        [first, rest @ ..] if is_mark(first, mark) => Some(rest),
        _ => None,
    }
}

/// What follows `""` at the front, with blanks before and none between; `None` if it is not there.
pub(crate) fn after_empty<'a, 'b>(tokens: &'b [Token<'a>]) -> Option<&'b [Token<'a>]>
    ensures found { MatchOption result ((next : List Tok)
        → toks tokens.now ≢ lex.mark true quote ∷ lex.mark false quote ∷ next)
        (λ rest. toks tokens.now ≡ lex.mark true quote ∷ lex.mark false quote ∷ toks rest.now) }
    ensures shorter { IfSome result (λ rest. length rest.now < length tokens.now) }
{
    match tokens {
        [
            Token {
                spaced: true,
                kind: TokenKind::Mark(Mark::Quote),
            },
            Token {
                spaced: false,
                kind: TokenKind::Mark(Mark::Quote),
            },
            rest @ ..,
        ] => Some(rest),
        _ => None,
    }
}

/// The word after blanks at the front, and what follows it.
pub(crate) fn arg_at<'a, 'b>(tokens: &'b [Token<'a>]) -> Option<(&'a str, &'b [Token<'a>])>
    ensures found { MatchOption result (NoArg (toks tokens.now))
        (λ x. toks tokens.now ≡ lex.word true 0 x.0.now ∷ toks x.1.now) }
    ensures shorter { IfSome result (λ x. length x.1.now < length tokens.now) }
{
    let [first, rest @ ..] = tokens else {
        return None;
    };
    match plain_word(first) {
        Some(text) if first.spaced => Some((text, rest)),
        _ => None,
    }
}

/// The word and time of an option at the front, and what follows them.
pub(crate) fn date_at<'a, 'b>(
    tokens: &'b [Token<'a>],
) -> Option<(&'a str, &'a str, &'b [Token<'a>])>
    ensures found { MatchOption result (NoDate (toks tokens.now))
        (λ x. (a : Bool) × (toks tokens.now
        ≡ lex.word a 0 x.0.now ∷ lex.mark false equals ∷ lex.word false 0 x.1.now ∷ toks x.2.now)) }
    ensures shorter { IfSome result (λ x. length x.2.now < length tokens.now) }
{
    let [name, sign, time, rest @ ..] = tokens else {
        return None;
    };
    match (plain_word(name), plain_word(time)) {
        (Some(option), Some(text)) if is_mark(sign, Mark::Equals) && !sign.spaced && !time.spaced =>
            { Some((option, text, rest)) }
        _ => None,
    }
}

/// The word at the front that this mark follows, and what follows the mark.
pub(crate) fn head_at<'a, 'b>(
    mark: Mark,
    tokens: &'b [Token<'a>],
) -> Option<(&'a str, &'b [Token<'a>])>
    ensures found { MatchOption result
        (NoHead (mark_byte mark) (toks tokens.now)) (λ x. (a b : Bool)
        × (toks tokens.now ≡ lex.word a 0 x.0.now ∷ lex.mark b (mark_byte mark) ∷ toks x.1.now)) }
    ensures shorter { IfSome result (λ x. length x.1.now < length tokens.now) }
{
    let [name, next, rest @ ..] = tokens else {
        return None;
    };
    match plain_word(name) {
        Some(text) if is_mark(next, mark) => Some((text, rest)),
        _ => None,
    }
}

/// What follows this word, or `None` if it is not at the front.
pub(crate) fn after_word<'a, 'b>(kind: &str, tokens: &'b [Token<'a>]) -> Option<&'b [Token<'a>]>
    ensures { MatchOption result (NoKind kind.now (toks tokens.now))
        (λ rest. (a : Bool) × (toks tokens.now ≡ lex.word a 0 kind.now ∷ toks rest.now)) }
{
    let [first, rest @ ..] = tokens else {
        return None;
    };
    if plain_word(first)? == kind {
        Some(rest)
    } else {
        None
    }
}
