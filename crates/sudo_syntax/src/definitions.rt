//! Definitions of aliases read from tokens.

ghost use Rattle.std.specs.Prelude.{◌≡◌, ◌<◌, List, length, IfOk};
ghost use Rattle.std.specs.Prelude.{MatchOption, MatchResult, Ok, Some, None};
ghost use Rattle.sudo_words.specs.Bytes.{comma, colon};
ghost use Rattle.sudo_policy.specs.declared.fault.LineFault.TheVariants.{NoMemory};
ghost use Rattle.sudo_policy.specs.declared.tree.Definition.{Definition as Defined};
ghost use Rattle.sudo_syntax.specs.private.Fronts.{Defines, EndsBy, NoKind};
ghost use Rattle.sudo_policy.specs.Grammar.{SpellsCmnd, SpellsDef, SpellsItem};
ghost use Rattle.sudo_policy.specs.Lex.{Tok};
ghost use Rattle.sudo_syntax.specs.private.Tokens.{toks};

use crate::fronts::{after_word, head_at};
use crate::items::{NameForm, Spelled, list_at, rest_as, word_of};
use crate::misplaced::misplaced;
use crate::token::{Mark, Token};
use std::alloc::Global;
use sudo_policy::{CmndItem, Definition, Item, LineFault, Signed};
use sudo_words::{Items, Word};

/// A definition at the front, and what follows it.
fn definition_at<'a, 'b, T: Drop>(
    alloc: Global,
    tokens: &'b [Token<'a>],
) -> Result<(Definition<T>, &'b [Token<'a>]), LineFault>
where
    Signed<T>: Spelled,
    requires { (rest : List Tok) → EndsBy comma rest → ⟦<Signed<T> as Spelled>⟧.follows rest }
    ensures found { IfOk result
        (λ x. SpellsDef (⟦<Signed<T> as Spelled>⟧.spells) (toks tokens.now) x.0 (toks x.1.now)) }
    ensures shorter { IfOk result (λ x. length x.1.now < length tokens.now) }
    ensures only { (d : Defined T) (rest : List Tok) → EndsBy colon rest
        → SpellsDef (⟦<Signed<T> as Spelled>⟧.spells) (toks tokens.now) d rest
        → MatchResult result (λ x. (x.0 ≡ d) × (toks x.1.now ≡ rest)) (λ e. e ≡ NoMemory) }
{
    let Some((name, next)) = head_at(Mark::Equals, tokens) else {
        return Err(misplaced(tokens));
    };
    let name = word_of(alloc, name)?;
    let (list, rest) = list_at(alloc, Mark::Comma, next)?;
    Ok((Definition { name, list }, rest))
}

impl<F: NameForm> Spelled for Definition<Item<Word<F>>> {
    ghost spells = { SpellsDef (SpellsItem F.has) };

    ghost follows = { EndsBy colon };

    fn at<'a, 'b>(
        alloc: Global,
        tokens: &'b [Token<'a>],
    ) -> Result<(Definition<Item<Word<F>>>, &'b [Token<'a>]), LineFault> {
        definition_at(alloc, tokens)
    }
}

impl Spelled for Definition<CmndItem> {
    ghost spells = { SpellsDef SpellsCmnd };

    ghost follows = { EndsBy colon };

    fn at<'a, 'b>(
        alloc: Global,
        tokens: &'b [Token<'a>],
    ) -> Result<(Definition<CmndItem>, &'b [Token<'a>]), LineFault> {
        definition_at(alloc, tokens)
    }
}

/// The definitions that the tokens spell after the word of their kind, or `None` if that word is
/// not at the front.
pub(crate) fn aliases_of<T: Drop>(
    alloc: Global,
    kind: &str,
    tokens: &[Token<'_>],
) -> Result<Option<Items<Definition<T>>>, LineFault>
where
    Definition<T>: Spelled,
    requires { (rest : List Tok) → EndsBy colon rest → ⟦<Definition<T> as Spelled>⟧.follows rest }
    ensures found { IfOk result (λ o. MatchOption o (NoKind kind.now (toks tokens.now))
        (λ defs. Defines kind.now (⟦<Definition<T> as Spelled>⟧.spells) (toks tokens.now) defs)) }
    ensures other { NoKind kind.now (toks tokens.now) → result ≡ Ok None }
    ensures only { (defs : List (Defined T))
        → Defines kind.now (⟦<Definition<T> as Spelled>⟧.spells) (toks tokens.now) defs
        → MatchResult result (λ o. o ≡ Some defs) (λ e. e ≡ NoMemory) }
{
    let Some(next) = after_word(kind, tokens) else {
        return Ok(None);
    };
    let list = rest_as(alloc, next)?;
    Ok(Some(list))
}
