//! Commands read from text and printed.

ghost use Rattle.std.specs.Prelude.{◌≡◌, ◌==◌, ◌-◌, ◌++◌, ◌∷◌, [], ℕ, List};
ghost use Rattle.std.specs.Prelude.{IfOk, IsTrue, ◌↔◌, MatchResult, OnOk, true};
ghost use Rattle.std.specs.Prelude.{codes, drop, length, map, string_bytes};
ghost use Rattle.std.specs.List.{AllByRecursion, flat_map, slice_split};
ghost use Rattle.std.specs.Str.{bytes_eq};
ghost use Rattle.sudo_words.specs.Bytes.{space};
ghost use Rattle.sudo_words.specs.Word.{is_arg};
ghost use Rattle.sudo_words.specs.Command.{IsArgRule, IsHead, IsLawful, arg_text, cmnd_text};
ghost use Rattle.sudo_words.specs.Command.{head_text, rule_of, arg_rule_text, spaced_arg};
ghost use Rattle.sudo_words.specs.private.Pieces.{words_of};
ghost use Rattle.sudo_words.specs.declared.cmnd.ArgRule.TheVariants.{Any as AnyArguments};
ghost use Rattle.sudo_words.specs.declared.cmnd.ArgRule.{ArgRule as ArgumentRule};
ghost use Rattle.sudo_words.specs.declared.cmnd.Cmnd.{Cmnd as Command};
ghost use Rattle.sudo_words.specs.declared.fault.CmndFault.TheVariants.{NoMemory as OutOfMemory};
ghost use Rattle.sudo_words.specs.declared.fault.WordFault.TheVariants.{NoMemory as WordNoMemory};

use crate::arg::Arg;
use crate::arg_text::{push_arg, read_arg};
use crate::cmnd::{ArgRule, Cmnd};
use crate::fault::{CmndFault, NoMemory, WordFault};
use crate::items::Items;
use crate::lawful::is_lawful;
use crate::path::{DirPath, FilePath};
use std::alloc::{AllocError, Global};

/// Written in place of arguments where none is allowed.
const NO_ARGS: &str = "\"\"";

/// The words of a text, split at each space.
fn words(alloc: Global, text: &str) -> Result<Vec<&str>, AllocError>
    ensures { IfOk result (λ v. map (λ w. w.now) v.items ≡ slice_split (λ b. b == space) text.now) }
{
    text.split(' ').collect(alloc)
}

fn args_of(alloc: Global, words: &[&str]) -> Result<Vec<Arg>, WordFault>
    ensures found { IfOk result (λ v. map (λ w. w.now) words.now ≡ map arg_text v.items) }
    ensures only { (args : List (List ℕ)) → AllByRecursion (λ a. is_arg a ≡ true) args
        → map (λ w. w.now) words.now ≡ map arg_text args
        → MatchResult result (λ v. v.items ≡ args) (λ e. e ≡ WordNoMemory) }
{
    let mut args = Vec::new(alloc);
    for word in words {
        args.push(read_arg(alloc, word)?)?;
    }
    Ok(args)
}

/// Whether the words are `""` alone.
fn is_no_args(words: &[&str]) -> bool
    ensures { IsTrue result ↔ (map (λ w. w.now) words.now ≡ codes "\"\"" ∷ []) }
{
    match words {
        [word] => *word == NO_ARGS,
        _ => false,
    }
}

/// The rule whose text has these words after the path.
fn args_rule(alloc: Global, words: &[&str]) -> Result<ArgRule, WordFault>
    ensures found { IfOk result (λ r. map (λ w. w.now) words.now ≡ words_of r) }
    ensures only { (r : ArgumentRule) → IsArgRule r → map (λ w. w.now) words.now ≡ words_of r
        → MatchResult result (λ s. s ≡ r) (λ e. e ≡ WordNoMemory) }
{
    if words.is_empty() {
        return Ok(ArgRule::Any);
    }
    if is_no_args(words) {
        return Ok(ArgRule::Empty);
    }
    Ok(ArgRule::Exactly(Items::new(args_of(alloc, words)?)))
}

fn ends_in_slash(head: &[u8]) -> bool
    ensures { result ≡ bytes_eq (drop (length head.now - 1) head.now) (codes "/") }
{
    match head {
        [.., b'/'] => true,
        _ => false,
    }
}

/// The command with this head that allows any arguments.
fn with_any(alloc: Global, head: &str) -> Result<Cmnd, CmndFault>
    ensures found { IfOk result (λ c. (head_text c ≡ head.now) × (rule_of c ≡ AnyArguments)) }
    ensures only { (c : Command) → IsHead c → head.now ≡ head_text c
        → rule_of c ≡ AnyArguments → MatchResult result (λ d. d ≡ c) (λ e. e ≡ OutOfMemory) }
{
    if head == "ALL" {
        return Ok(Cmnd::All);
    }
    if ends_in_slash(head.as_bytes()) {
        return Ok(Cmnd::Dir(DirPath::read(alloc, head)?));
    }
    Ok(Cmnd::Path(FilePath::read(alloc, head)?, ArgRule::Any))
}

/// The command with this head and this rule, of any length. `ALL` and directories allow any
/// arguments.
fn headed(alloc: Global, head: &str, rule: ArgRule) -> Result<Cmnd, CmndFault>
    ensures found { IfOk result (λ c. (head_text c ≡ head.now) × (rule_of c ≡ rule)) }
    ensures only { (c : Command) → IsHead c → head.now ≡ head_text c
        → rule ≡ rule_of c → MatchResult result (λ d. d ≡ c) (λ e. e ≡ OutOfMemory) }
{
    match rule {
        ArgRule::Any => with_any(alloc, head),
        rule => Ok(Cmnd::Path(FilePath::read(alloc, head)?, rule)),
    }
}

/// The lawful command with this head and this rule; `BadCmnd` if there is none.
pub fn command_of(alloc: Global, head: &str, rule: ArgRule) -> Result<Cmnd, CmndFault>
    ensures found { IfOk result (λ c. IsLawful c × (head_text c ≡ head.now) × (rule_of c ≡ rule)) }
    ensures only { (c : Command) → IsLawful c → head.now ≡ head_text c
        → rule ≡ rule_of c → MatchResult result (λ d. d ≡ c) (λ e. e ≡ OutOfMemory) }
{
    let cmnd = headed(alloc, head, rule)?;
    if is_lawful(&cmnd) {
        Ok(cmnd)
    } else {
        Err(CmndFault::BadCmnd)
    }
}

/// The lawful command that the text spells; `BadCmnd` if it spells none.
pub fn read_cmnd(alloc: Global, text: &str) -> Result<Cmnd, CmndFault>
    ensures found { IfOk result (λ c. IsLawful c × (text.now ≡ cmnd_text c)) }
    ensures only { (c : Command) → IsLawful c → text.now ≡ cmnd_text c
        → MatchResult result (λ d. d ≡ c) (λ e. e ≡ OutOfMemory) }
{
    let words = words(alloc, text)?;
    let Some((head, args)) = words.split_first() else {
        return Err(CmndFault::BadCmnd);
    };
    let rule = args_rule(alloc, args)?;
    command_of(alloc, head, rule)
}

/// Adds the arguments' texts, with a space before each.
fn push_args(out: &mut String, args: &[Arg]) -> Result<(), AllocError>
    ensures { OnOk result
        (string_bytes out.new ≡ string_bytes out.old ++ flat_map spaced_arg args.now) }
{
    for arg in args {
        out.push_str(" ")?;
        push_arg(out, arg)?;
    }
    Ok(())
}

fn push_rule(out: &mut String, rule: &ArgRule) -> Result<(), AllocError>
    ensures { OnOk result (string_bytes out.new ≡ string_bytes out.old ++ arg_rule_text rule.now) }
{
    match rule {
        ArgRule::Any => Ok(()),
        ArgRule::Empty => out.push_str(" \"\""),
        ArgRule::Exactly(args) => push_args(out, args.as_slice()),
    }
}

/// The command's one text, which `read_cmnd` reads as this command.
pub fn print_cmnd(alloc: Global, cmnd: &Cmnd) -> Result<String, NoMemory>
    requires { IsLawful cmnd.now }
    ensures { IfOk result (λ s. string_bytes s ≡ cmnd_text cmnd.now) }
{
    match cmnd {
        Cmnd::All => Ok(String::from_str(alloc, "ALL")?),
        Cmnd::Path(file, rule) => {
            let mut out = String::from_str(alloc, file.as_str())?;
            push_rule(&mut out, rule)?;
            Ok(out)
        }
        Cmnd::Dir(dir) => Ok(String::from_str(alloc, dir.as_str())?),
    }
}
