//! What a policy decides.

ghost use Rattle.std.specs.Prelude.{List, [], ◌∷◌, ◌++◌, reverse};
ghost use Rattle.sudo_policy.specs.declared.entry.Entry.{Entry as PolicyEntry};
ghost use Rattle.sudo_decide.specs.Decision.{Decides, DecidesBy};

use crate::decision::Decision;
use crate::invocation::Invocation;
use crate::rule::says;
use sudo_policy::{Entry, Policy};

/// The decision of some entries followed by this entry, given the decision of the entries before
/// it. The policy defines the aliases.
fn decision_after(p: &Policy, before: Decision, entry: &Entry, i: &Invocation) -> Decision
    ensures { (es : List PolicyEntry) → DecidesBy (reverse p.now) es i.now before
        → DecidesBy (reverse p.now) (es ++ entry.now ∷ []) i.now result }
{
    match entry {
        Entry::Rule(rule) => match says(p, rule, i) {
            None => before,
            Some(answer) => Decision::of(rule.tags, answer),
        },
        _ => before,
    }
}

/// The policy's decision on the invocation: the last rule that speaks decides, and if none speaks,
/// the invocation is denied (sudoers(5), "SUDOERS FILE FORMAT").
///
/// The search looks at each entry once, in order, follows each alias that it meets to the alias's
/// list, and takes no memory.
pub fn decide(p: &Policy, i: &Invocation) -> Decision
    ensures { Decides p.now i.now result }
{
    let mut decision = Decision::Deny;
    for entry in p.entries() {
        decision = decision_after(p, decision, entry, i);
    }
    decision
}
