//! Commands of user specifications read from tokens, with the targets, dates and tags that each
//! gives of its own.

ghost use Rattle.std.specs.Prelude.{◌≡◌, ◌≤◌, ◌<◌, ◌∷◌, List, ℕ, Bool, length, IfOk, IfSome};
ghost use Rattle.std.specs.Prelude.{MatchOption, MatchResult, Option, Some, None, Ok, true, false};
ghost use Rattle.sudo_words.specs.Bytes.{colon, comma, opening};
ghost use Rattle.sudo_words.specs.Moment.{SpellsMoment};
ghost use Rattle.sudo_policy.specs.declared.fault.LineFault.TheVariants.{NoMemory};
ghost use Rattle.sudo_syntax.specs.private.Fronts.{AddsBound, Dated, NoDate, NoTag};
ghost use Rattle.sudo_syntax.specs.private.Fronts.{Tagged, EndsBy, NoMark, NoWord};
ghost use Rattle.sudo_policy.specs.Grammar.{SpellsRunas, SpellsCmndSpec};
ghost use Rattle.sudo_policy.specs.Tags.{tag_word};
ghost use Rattle.sudo_policy.specs.declared.tags.GivenTags.{GivenTags as Given};
ghost use Rattle.sudo_policy.specs.Lex.{Tok, word, mark};
ghost use Rattle.sudo_syntax.specs.private.Tokens.{toks};
ghost use Rattle.sudo_policy.specs.Text.{Names};

use crate::fronts::{after_mark, begins_spaced, date_at, head_at, word_at};
use crate::items::{Spelled, list_at};
use crate::misplaced::{bad_option, unclosed};
use crate::token::{Mark, Token};
use std::alloc::Global;
use sudo_policy::{CmndItem, CmndSpec, GivenTags, Item, LineFault, Signed, Tag};
use sudo_words::{Items, Moment, Name};

/// The first and the last moment at which a command may run.
#[derive(Clone, Copy)]
pub(crate) struct Bounds {
    pub(crate) not_before: Option<Moment>,
    pub(crate) not_after: Option<Moment>,
}

/// The moment that a time spells.
fn moment_of(time: &str) -> Result<Moment, LineFault>
    ensures found { IfOk result (λ t. SpellsMoment time.now t) }
    ensures only { (t : ℕ) → SpellsMoment time.now t → result ≡ Ok t }
{
    Moment::read(time).ok_or(LineFault::BadMoment)
}

/// Whether an option has this name and gives a bound that was not given before.
fn gives(option: &str, name: &str, bound: &Option<Moment>) -> bool
    ensures yes { result ≡ true → (option.now ≡ name.now) × (bound.now ≡ None) }
    ensures no { result ≡ false → option.now ≡ name.now → bound.now ≡ None → ⊥ }
{
    option == name && bound.is_none()
}

/// The bounds and the one that an option gives, which must not have been given before.
fn with_bound(bounds: Bounds, option: &str, time: &str) -> Result<Bounds, LineFault>
    ensures found { IfOk result (λ b.
        AddsBound bounds.not_before bounds.not_after option.now time.now b.not_before b.not_after) }
    ensures only { (before after : Option ℕ)
        → AddsBound bounds.not_before bounds.not_after option.now time.now before after
        → MatchResult result (λ b. (b.not_before ≡ before) × (b.not_after ≡ after)) (λ e. ⊥) }
{
    if gives(option, "NOTBEFORE", &bounds.not_before) {
        return Ok(Bounds {
            not_before: Some(moment_of(time)?),
            not_after: bounds.not_after,
        });
    }
    if gives(option, "NOTAFTER", &bounds.not_after) {
        return Ok(Bounds {
            not_before: bounds.not_before,
            not_after: Some(moment_of(time)?),
        });
    }
    Err(bad_option(option))
}

/// The bounds that the options at the front give, with blanks after each, and what follows them.
pub(crate) fn bounds_at<'a, 'b>(
    tokens: &'b [Token<'a>],
) -> Result<(Bounds, &'b [Token<'a>]), LineFault>
    ensures found { IfOk result
        (λ x. Dated None None (toks tokens.now) x.0.not_before x.0.not_after (toks x.1.now)) }
    ensures shorter { IfOk result (λ x. length x.1.now ≤ length tokens.now) }
    ensures only { (before after : Option ℕ) (rest : List Tok) → NoDate rest
        → Dated None None (toks tokens.now) before after rest → MatchResult result (λ x.
        (x.0.not_before ≡ before) × (x.0.not_after ≡ after) × (toks x.1.now ≡ rest)) (λ e. ⊥) }
{
    let none = Bounds {
        not_before: None,
        not_after: None,
    };
    let mut read = (none, tokens);
    while let Some((option, time, after)) = date_at(read.1) {
        if !begins_spaced(after) {
            return Err(LineFault::Unexpected);
        }
        read = (with_bound(read.0, option, time)?, after);
    }
    Ok(read)
}

/// The tag at the front, and what follows it.
fn tag_at<'a, 'b>(tokens: &'b [Token<'a>]) -> Option<(Tag, &'b [Token<'a>])>
    ensures found { MatchOption result (NoTag (toks tokens.now)) (λ x. (a b : Bool)
        × (toks tokens.now ≡ word a 0 (tag_word x.0) ∷ mark b colon ∷ toks x.1.now)) }
    ensures shorter { IfSome result (λ x. length x.1.now < length tokens.now) }
{
    let (name, rest) = head_at(Mark::Colon, tokens)?;
    let tag = Tag::of_word(name)?;
    Some((tag, rest))
}

/// What the tags at the front say, and what follows them.
pub(crate) fn tags_at<'a, 'b>(tokens: &'b [Token<'a>]) -> (GivenTags, &'b [Token<'a>])
    ensures found { Tagged (toks tokens.now) result.0 (toks result.1.now) }
    ensures shorter { length result.1.now ≤ length tokens.now }
    ensures only { (given : Given) (rest : List Tok)
        → NoTag rest → Tagged (toks tokens.now) given rest
        → (result.0 ≡ given) × (toks result.1.now ≡ rest) }
{
    let mut read = (GivenTags::none(), tokens);
    while let Some((tag, after)) = tag_at(read.1) {
        read = (read.0.with(tag), after);
    }
    read
}

/// Whether no word stands at the front.
fn lacks_word(tokens: &[Token<'_>]) -> bool
    ensures { result ≡ true → NoWord (toks tokens.now) }
{
    word_at(tokens).is_none()
}

/// The targets in parentheses at the front, if there are any, and what follows them.
fn runas_at<'a, 'b>(
    alloc: Global,
    tokens: &'b [Token<'a>],
) -> Result<(Option<Items<Signed<Item<Name>>>>, &'b [Token<'a>]), LineFault>
    ensures found { IfOk result (λ x. SpellsRunas (toks tokens.now) x.0 (toks x.1.now)) }
    ensures shorter { IfOk result (λ x. length x.1.now ≤ length tokens.now) }
    ensures only { (runas : Option Names) (rest : List Tok)
        → NoMark opening rest → SpellsRunas (toks tokens.now) runas rest
        → MatchResult result (λ x. (x.0 ≡ runas) × (toks x.1.now ≡ rest)) (λ e. e ≡ NoMemory) }
{
    let Some(inner) = after_mark(Mark::Opening, tokens) else {
        return Ok((None, tokens));
    };
    if lacks_word(inner) {
        return Err(LineFault::LeftOut);
    }
    let (runas, after) = list_at(alloc, Mark::Comma, inner)?;
    let Some(rest) = after_mark(Mark::Closing, after) else {
        return Err(unclosed(after));
    };
    Ok((Some(runas), rest))
}

impl Spelled for CmndSpec {
    ghost spells = { SpellsCmndSpec };

    ghost follows = { EndsBy comma };

    fn at<'a, 'b>(
        alloc: Global,
        tokens: &'b [Token<'a>],
    ) -> Result<(CmndSpec, &'b [Token<'a>]), LineFault> {
        let (runas, rest) = runas_at(alloc, tokens)?;
        let (bounds, rest) = match bounds_at(rest) {
            Ok(read) => read,
            Err(fault) => return Err(fault),
        };
        let (tags, rest) = tags_at(rest);
        let (cmnd, rest) = Signed::<CmndItem>::at(alloc, rest)?;
        let spec = CmndSpec {
            runas,
            not_before: bounds.not_before,
            not_after: bounds.not_after,
            tags,
            cmnd,
        };
        Ok((spec, rest))
    }
}
