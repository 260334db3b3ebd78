//! Lists of values that tokens spell in one way, and the items of users, hosts and targets.

ghost use Rattle.std.specs.Prelude.{◌≡◌, ◌<◌, ◌∷◌, [], Bool, List, ℕ};
ghost use Rattle.std.specs.Prelude.{length, IfOk, MatchResult, true, false};
ghost use Rattle.sudo_words.specs.Bytes.{colon};
ghost use Rattle.sudo_policy.specs.declared.fault.LineFault.TheVariants.{NoMemory};
ghost use Rattle.sudo_syntax.specs.private.Fronts.{EndsBy, NoMark, begins_upper};
ghost use Rattle.sudo_policy.specs.Grammar.{Listed, SpellsItem, begins_spaced};
ghost use Rattle.sudo_policy.specs.Lex as lex;
ghost use Rattle.sudo_policy.specs.Lex.{Tok};
ghost use Rattle.sudo_syntax.specs.private.Tokens.{mark_byte, toks};
ghost use Rattle.sudo_policy.specs.declared.entry.Item.{Item as Said};
ghost use Rattle.sudo_policy.specs.Policy.{IsItem};
ghost use Rattle.sudo_policy.specs.Printing.{item_text};

use crate::fronts::{after_mark, begins_spaced, word_at};
use crate::misplaced::{bad_word, misplaced};
use crate::token::{Mark, Token};
use std::alloc::Global;
use sudo_policy::{Item, LineFault, Signed};
use sudo_words::{Form, HostForm, Items, UserForm, Word, WordFault};

/// A value that tokens spell in one way.
pub(crate) trait Spelled: Sized + Drop {
    /// Tokens, the value at their front, and the tokens after it.
    ghost spells: { List Tok → Self → List Tok → Type 0 };

    /// The tokens that may stand after a value.
    ghost follows: { List Tok → Type 0 };

    /// The value at the front, and what follows it.
    fn at<'a, 'b>(
        alloc: Global,
        tokens: &'b [Token<'a>],
    ) -> Result<(Self, &'b [Token<'a>]), LineFault>
        ensures found { IfOk result (λ x. spells (toks tokens.now) x.0 (toks x.1.now)) }
        ensures shorter { IfOk result (λ x. length x.1.now < length tokens.now) }
        ensures only { (v : Self) (rest : List Tok) → follows rest → spells (toks tokens.now) v rest
            → MatchResult result (λ x. (x.0 ≡ v) × (toks x.1.now ≡ rest)) (λ e. e ≡ NoMemory) };
}

/// One or more values with this mark between them, and what follows them.
pub(crate) fn list_at<'a, 'b, T: Spelled>(
    alloc: Global,
    mark: Mark,
    tokens: &'b [Token<'a>],
) -> Result<(Items<T>, &'b [Token<'a>]), LineFault>
    requires { (a : Bool) (rest : List Tok) → T.follows (lex.mark a (mark_byte mark) ∷ rest) }
    ensures found { IfOk result
        (λ x. Listed (mark_byte mark) T.spells (toks tokens.now) x.0 (toks x.1.now)) }
    ensures shorter { IfOk result (λ x. length x.1.now < length tokens.now) }
    ensures only { (xs : List T) (rest : List Tok) → T.follows rest → NoMark (mark_byte mark) rest
        → Listed (mark_byte mark) T.spells (toks tokens.now) xs rest
        → MatchResult result (λ x. (x.0 ≡ xs) × (toks x.1.now ≡ rest)) (λ e. e ≡ NoMemory) }
{
    // Most lists have one item.
    let mut items = Vec::with_capacity(alloc, 1)?;
    let (first, mut rest) = T::at(alloc, tokens)?;
    items.push(first)?;
    while let Some(others) = after_mark(mark, rest) {
        let (item, after) = T::at(alloc, others)?;
        items.push(item)?;
        rest = after;
    }
    Ok((Items::new(items), rest))
}

/// One or more values with `:` between them, after blanks and up to the last token.
pub(crate) fn rest_as<T: Spelled>(
    alloc: Global,
    tokens: &[Token<'_>],
) -> Result<Items<T>, LineFault>
    requires { (rest : List Tok) → EndsBy colon rest → T.follows rest }
    ensures found { IfOk result (λ xs. (begins_spaced (toks tokens.now) ≡ true)
        × Listed colon T.spells (toks tokens.now) xs []) }
    ensures only { (xs : List T) → begins_spaced (toks tokens.now) ≡ true → Listed colon T.spells
        (toks tokens.now) xs [] → MatchResult result (λ ys. ys ≡ xs) (λ e. e ≡ NoMemory) }
{
    if !begins_spaced(tokens) {
        return Err(misplaced(tokens));
    }
    let (list, rest) = list_at(alloc, Mark::Colon, tokens)?;
    if !rest.is_empty() {
        return Err(misplaced(rest));
    }
    Ok(list)
}

/// A form of names that never begin with an upper-case letter, unlike `ALL` and the aliases.
pub(crate) trait NameForm: Form {
    ghost low: { (w : List ℕ) → Self.has w ≡ true → begins_upper w ≡ false };
}

impl NameForm for UserForm {
    ghost use Rattle.sudo_syntax.specs.private.Low.{name_low};

    ghost low = { name_low };
}

impl NameForm for HostForm {
    ghost use Rattle.sudo_syntax.specs.private.Low.{host_low};

    ghost low = { host_low };
}

/// The text as a word of a form.
pub(crate) fn word_of<F: Form>(alloc: Global, text: &str) -> Result<Word<F>, LineFault>
    ensures found { IfOk result (λ w. (w ≡ text.now) × (F.has text.now ≡ true)) }
    ensures only { F.has text.now ≡ true
        → MatchResult result (λ w. w ≡ text.now) (λ e. e ≡ NoMemory) }
{
    match Word::read(alloc, text) {
        Ok(word) => Ok(word),
        Err(WordFault::BadWord) => Err(bad_word(text)),
        Err(WordFault::NoMemory) => Err(LineFault::NoMemory),
    }
}

/// The item that the text spells: `ALL`, a name or an alias.
fn item_of<F: NameForm>(alloc: Global, text: &str) -> Result<Item<Word<F>>, LineFault>
    ensures found { IfOk result (λ x. IsItem F.has x × (text.now ≡ item_text x)) }
    ensures only { (i : Said (List ℕ)) → IsItem F.has i → text.now ≡ item_text i
        → MatchResult result (λ x. x ≡ i) (λ e. e ≡ NoMemory) }
{
    if text == "ALL" {
        return Ok(Item::All);
    }
    // A name is tested once, by reading it; a text that is no name can only be an alias.
    match Word::read(alloc, text) {
        Ok(name) => Ok(Item::Name(name)),
        Err(WordFault::BadWord) => Ok(Item::Alias(word_of(alloc, text)?)),
        Err(WordFault::NoMemory) => Err(LineFault::NoMemory),
    }
}

impl<F: NameForm> Spelled for Signed<Item<Word<F>>> {
    ghost spells = { SpellsItem F.has };

    ghost follows = { λ _. Unit {0} };

    fn at<'a, 'b>(
        alloc: Global,
        tokens: &'b [Token<'a>],
    ) -> Result<(Signed<Item<Word<F>>>, &'b [Token<'a>]), LineFault> {
        let Some((bangs, text, rest)) = word_at(tokens) else {
            return Err(misplaced(tokens));
        };
        let item = item_of(alloc, text)?;
        let negated = bangs % 2 == 1;
        Ok((Signed { negated, item }, rest))
    }
}
