//! Commands read from tokens.

ghost use Rattle.std.specs.Prelude.{◌≡◌, ◌≤◌, ◌++◌, ◌∷◌, [], List, ℕ, length};
ghost use Rattle.std.specs.Prelude.{IfErr, IfOk, MatchResult, OnOk, true};
ghost use Rattle.std.specs.List.{AllByRecursion};
ghost use Rattle.sudo_words.specs.Bytes.{comma};
ghost use Rattle.sudo_words.specs.Command.{IsArgRule, IsLawful, arg_text};
ghost use Rattle.sudo_words.specs.Command.{head_text, most_args, rule_of};
ghost use Rattle.sudo_words.specs.Word.{is_arg};
ghost use Rattle.sudo_words.specs.declared.cmnd.ArgRule.{ArgRule as Ruled};
ghost use Rattle.sudo_words.specs.declared.cmnd.Cmnd.{Cmnd as Command};
ghost use Rattle.sudo_policy.specs.declared.entry.CmndItem.{CmndItem as Said};
ghost use Rattle.sudo_policy.specs.declared.fault.LineFault.TheVariants.{NoMemory};
ghost use Rattle.sudo_syntax.specs.private.Fronts.{EndsBy, NoArg, arg_toks, rule_from};
ghost use Rattle.sudo_policy.specs.Grammar.{SpellsCmnd, args_of, head_of, rule_toks};
ghost use Rattle.sudo_policy.specs.Lex.{Tok};
ghost use Rattle.sudo_syntax.specs.private.Tokens.{toks};
ghost use Rattle.sudo_policy.specs.Policy.{IsCmndItem};

use crate::fronts::{after_empty, arg_at, word_at};
use crate::items::{Spelled, word_of};
use crate::misplaced::{bad_cmnd, bad_word, misplaced};
use crate::token::Token;
use std::alloc::Global;
use sudo_policy::{CmndItem, LineFault, Signed};
use sudo_words::{
    AliasForm, Arg, ArgRule, Cmnd, CmndFault, Form, Items, MOST_ARGS, WordFault, command_of,
    read_arg,
};

/// The argument that a word spells.
fn arg_of(alloc: Global, text: &str) -> Result<Arg, LineFault>
    ensures found { IfOk result (λ a. text.now ≡ arg_text a) }
    ensures only { (a : List ℕ) → is_arg a ≡ true → text.now ≡ arg_text a
        → MatchResult result (λ x. x ≡ a) (λ e. e ≡ NoMemory) }
{
    match read_arg(alloc, text) {
        Ok(arg) => Ok(arg),
        Err(WordFault::BadWord) => Err(bad_word(text)),
        Err(WordFault::NoMemory) => Err(LineFault::NoMemory),
    }
}

/// Adds the argument that a word spells.
fn push_arg(alloc: Global, args: &mut Vec<Arg>, text: &str) -> Result<(), LineFault>
    ensures found { OnOk result
        ((a : List ℕ) × (args.new.items ≡ args.old.items ++ a ∷ []) × (text.now ≡ arg_text a)
        × ((b : List ℕ) → is_arg b ≡ true → text.now ≡ arg_text b → a ≡ b)) }
    ensures only { (a : List ℕ) → is_arg a ≡ true
        → text.now ≡ arg_text a → IfErr result (λ e. e ≡ NoMemory) }
{
    let arg = arg_of(alloc, text)?;
    args.push(arg)?;
    Ok(())
}

/// The arguments at the front, each after blanks, and what follows them.
fn args_at<'a, 'b>(
    alloc: Global,
    tokens: &'b [Token<'a>],
) -> Result<(Items<Arg>, &'b [Token<'a>]), LineFault>
    ensures found { IfOk result (λ x. toks tokens.now ≡ arg_toks x.0 ++ toks x.1.now) }
    ensures shorter { IfOk result (λ x. length x.1.now ≤ length tokens.now) }
    ensures only { (args : List (List ℕ)) (rest : List Tok)
        → AllByRecursion (λ arg. is_arg arg ≡ true) args → length args ≤ most_args
        → NoArg rest → toks tokens.now ≡ arg_toks args ++ rest
        → MatchResult result (λ x. (x.0 ≡ args) × (toks x.1.now ≡ rest)) (λ e. e ≡ NoMemory) }
{
    let mut args = Vec::new(alloc);
    let mut read = (0, tokens);
    while let Some((text, after)) = arg_at(read.1) {
        if read.0 == MOST_ARGS {
            return Err(LineFault::TooLarge);
        }
        push_arg(alloc, &mut args, text)?;
        read = (read.0 + 1, after);
    }
    Ok((Items::new(args), read.1))
}

/// The rule of the arguments listed at the front, and what follows them. Any arguments are allowed
/// if none are listed.
fn listed_at<'a, 'b>(
    alloc: Global,
    tokens: &'b [Token<'a>],
) -> Result<(ArgRule, &'b [Token<'a>]), LineFault>
    ensures found { IfOk result (λ x. toks tokens.now ≡ rule_toks x.0 ++ toks x.1.now) }
    ensures shorter { IfOk result (λ x. length x.1.now ≤ length tokens.now) }
    ensures only { (args : List (List ℕ)) (rest : List Tok)
        → AllByRecursion (λ arg. is_arg arg ≡ true) args → length args ≤ most_args
        → NoArg rest → toks tokens.now ≡ arg_toks args ++ rest → MatchResult result
        (λ x. (x.0 ≡ rule_from args) × (toks x.1.now ≡ rest)) (λ e. e ≡ NoMemory) }
{
    let (args, rest) = args_at(alloc, tokens)?;
    if args.as_slice().is_empty() {
        return Ok((ArgRule::Any, rest));
    }
    Ok((ArgRule::Exactly(args), rest))
}

/// The rule for the arguments at the front, and what follows it.
fn rule_at<'a, 'b>(
    alloc: Global,
    tokens: &'b [Token<'a>],
) -> Result<(ArgRule, &'b [Token<'a>]), LineFault>
    ensures found { IfOk result (λ x. toks tokens.now ≡ rule_toks x.0 ++ toks x.1.now) }
    ensures shorter { IfOk result (λ x. length x.1.now ≤ length tokens.now) }
    ensures only { (rule : Ruled) (rest : List Tok) → IsArgRule rule
        → EndsBy comma rest → toks tokens.now ≡ rule_toks rule ++ rest
        → MatchResult result (λ x. (x.0 ≡ rule) × (toks x.1.now ≡ rest)) (λ e. e ≡ NoMemory) }
{
    match after_empty(tokens) {
        Some(rest) => Ok((ArgRule::Empty, rest)),
        None => listed_at(alloc, tokens),
    }
}

/// The lawful command with this head and this rule.
fn cmnd_of(alloc: Global, head: &str, rule: ArgRule) -> Result<Cmnd, LineFault>
    ensures found { IfOk result (λ c. IsLawful c × (head_text c ≡ head.now) × (rule_of c ≡ rule)) }
    ensures only { (c : Command) → IsLawful c → head.now ≡ head_text c
        → rule ≡ rule_of c → MatchResult result (λ d. d ≡ c) (λ e. e ≡ NoMemory) }
{
    match command_of(alloc, head, rule) {
        Ok(cmnd) => Ok(cmnd),
        Err(CmndFault::BadCmnd) => Err(bad_cmnd(head)),
        Err(CmndFault::NoMemory) => Err(LineFault::NoMemory),
    }
}

/// The command or alias with this head and the tokens after it, and what follows it.
fn cmnd_item_at<'a, 'b>(
    alloc: Global,
    head: &str,
    tokens: &'b [Token<'a>],
) -> Result<(CmndItem, &'b [Token<'a>]), LineFault>
    ensures found { IfOk result (λ x. IsCmndItem x.0 × (head.now ≡ head_of x.0)
        × (toks tokens.now ≡ args_of x.0 ++ toks x.1.now)) }
    ensures shorter { IfOk result (λ x. length x.1.now ≤ length tokens.now) }
    ensures only { (i : Said) (rest : List Tok) → IsCmndItem i → EndsBy comma rest
        → head.now ≡ head_of i → toks tokens.now ≡ args_of i ++ rest
        → MatchResult result (λ x. (x.0 ≡ i) × (toks x.1.now ≡ rest)) (λ e. e ≡ NoMemory) }
{
    if AliasForm::test(head.as_bytes()) {
        return Ok((CmndItem::Alias(word_of(alloc, head)?), tokens));
    }
    let (rule, rest) = rule_at(alloc, tokens)?;
    let cmnd = cmnd_of(alloc, head, rule)?;
    Ok((CmndItem::Cmnd(cmnd), rest))
}

impl Spelled for Signed<CmndItem> {
    ghost spells = { SpellsCmnd };

    ghost follows = { EndsBy comma };

    fn at<'a, 'b>(
        alloc: Global,
        tokens: &'b [Token<'a>],
    ) -> Result<(Signed<CmndItem>, &'b [Token<'a>]), LineFault> {
        let Some((bangs, head, after)) = word_at(tokens) else {
            return Err(misplaced(tokens));
        };
        let (item, rest) = cmnd_item_at(alloc, head, after)?;
        let negated = bangs % 2 == 1;
        Ok((Signed { negated, item }, rest))
    }
}
