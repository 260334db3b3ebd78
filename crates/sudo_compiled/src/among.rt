//! What rules without aliases answer, and which of them bear on an invocation.

ghost use Rattle.std.specs.Prelude.{◌≡◌};
ghost use Rattle.sudo_compiled.specs.Compiled.{AnswerAlikeFor, answer};

use crate::plain::PlainRule;
use crate::rule::{is_about, spoken};
use sudo_decide::{Decision, Invocation};

/// What the rules answer: the last rule that speaks decides, and if none speaks, the invocation is
/// denied (sudoers(5), "SUDOERS FILE FORMAT").
///
/// The search goes from the last rule back to the first, and in each list from the last item back,
/// stops at the first answer, and takes no memory.
pub fn decide_among(rules: &[PlainRule], i: &Invocation) -> Decision
    ensures { result ≡ answer rules.now i.now }
{
    let mut rest = rules;
    while let Some((last, before)) = rest.split_last() {
        if let Some(decision) = spoken(last, i) {
            return decision;
        }
        rest = before;
    }
    Decision::Deny
}

/// The rules without those at the end that are not about the user, the host and the target.
fn without_last<'a>(rules: &'a [PlainRule], i: &Invocation) -> &'a [PlainRule]
    ensures { AnswerAlikeFor rules.now result.now i.now }
{
    let mut rest = rules;
    while let Some((last, others)) = rest.split_last() {
        if is_about(last, i) {
            return rest;
        }
        rest = others;
    }
    rest
}

/// The rules without those at the front that are not about the user, the host and the target.
fn without_first<'a>(rules: &'a [PlainRule], i: &Invocation) -> &'a [PlainRule]
    ensures { AnswerAlikeFor rules.now result.now i.now }
{
    let mut rest = rules;
    while let Some((first, others)) = rest.split_first() {
        if is_about(first, i) {
            return rest;
        }
        rest = others;
    }
    rest
}

/// The rules from the first to the last that are about the user, the host and the target. Whatever
/// is run, and whenever, these rules answer what all of the rules answer.
pub fn bearing_on<'a>(rules: &'a [PlainRule], i: &Invocation) -> &'a [PlainRule]
    ensures { AnswerAlikeFor rules.now result.now i.now }
{
    without_first(without_last(rules, i), i)
}
