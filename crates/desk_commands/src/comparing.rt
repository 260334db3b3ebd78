//! Finding what one file's policy allows beyond another's.

ghost use Rattle.std.specs.Prelude.{◌≡◌, ◌++◌, ℕ, List, IfErr, IfOk, OnOk, codes, string_bytes};
ghost use Rattle.sudo_policy.specs.Spelling.{Spells};
ghost use Rattle.desk_commands.specs.Comparing.{ComparesFiles, EndsComparing};
ghost use Rattle.desk_commands.specs.Comparing.{IsShown, case_text, spaced};

use crate::answer::Answer;
use crate::refusal::JobRefusal;
use desk_args::ExitStatus;
use review::{Scope, beyond};
use std::alloc::{AllocError, Global};
use std::fmt::Write as _;
use sudo_decide::Invocation;
use sudo_syntax::{Policy, read_policy};
use sudo_words::Arg;

/// Adds the arguments, each after a space.
fn add_args(text: &mut String, args: &[Arg]) -> Result<(), AllocError>
    ensures { OnOk result (string_bytes text.new ≡ string_bytes text.old ++ spaced args.now) }
{
    for arg in args {
        text.push(' ')?;
        text.push_str(arg.as_str())?;
    }
    Ok(())
}

/// The line of a case: user, host, target, moment, path and arguments, with spaces between.
fn case_line(alloc: Global, case: &Invocation) -> Result<String, AllocError>
    ensures { IfOk result (λ s. string_bytes s ≡ case_text case.now ++ codes "\n") }
{
    let (user, host, runas) = (case.user.as_str(), case.host.as_str(), case.runas.as_str());
    let (at, path) = (case.at, case.path.as_str());
    let mut text = format!(in alloc; "{user} {host} {runas} {at} {path}")?;
    add_args(&mut text, case.args.as_slice())?;
    text.push('\n')?;
    Ok(text)
}

/// The answer: `none`, or the case that is found.
fn shown(alloc: Global, found: &Option<Invocation>) -> Result<Answer, AllocError>
    ensures { IfOk result (λ r. IsShown found.now r.status (string_bytes r.text)) }
{
    match found {
        Some(case) => Ok(Answer {
            text: case_line(alloc, case)?,
            status: ExitStatus::Found,
        }),
        None => Ok(Answer {
            text: String::from_str(alloc, "none\n")?,
            status: ExitStatus::Done,
        }),
    }
}

/// The answer for two policies.
fn compare(alloc: Global, a: &Policy, b: &Policy, scope: &Scope) -> Result<Answer, JobRefusal>
    ensures found { (a_file b_file : List ℕ) → Spells a_file a.now → Spells b_file b.now
        → IfOk result (λ r. ComparesFiles scope.now a_file b_file r.status (string_bytes r.text)) }
    ensures err { (a_file b_file : List ℕ) → Spells a_file a.now
        → Spells b_file b.now → IfErr result (EndsComparing scope.now a_file b_file) }
{
    let found = beyond(alloc, scope, a, b)?;
    Ok(shown(alloc, &found)?)
}

/// The answer for a policy and the policy of a file.
fn compare_with(alloc: Global, a: &Policy, b: &[u8], scope: &Scope) -> Result<Answer, JobRefusal>
    ensures found { (a_file : List ℕ) → Spells a_file a.now
        → IfOk result (λ r. ComparesFiles scope.now a_file b.now r.status (string_bytes r.text)) }
    ensures err { (a_file : List ℕ) → Spells a_file a.now
        → IfErr result (EndsComparing scope.now a_file b.now) }
{
    let b = read_policy(alloc, b)?;
    compare(alloc, a, &b, scope)
}

/// An invocation in the scope that the first file's policy allows and the second's refuses, or
/// `none`.
///
/// The first file is read first. The comparison is refused where a file does not spell a policy,
/// where the policies have too many cases, and where memory runs out.
pub fn compare_files(alloc: Global, a: &[u8], b: &[u8], scope: &Scope) -> Result<Answer, JobRefusal>
    ensures found { IfOk result
        (λ r. ComparesFiles scope.now a.now b.now r.status (string_bytes r.text)) }
    ensures err { IfErr result (EndsComparing scope.now a.now b.now) }
{
    let a = read_policy(alloc, a)?;
    compare_with(alloc, &a, b, scope)
}
