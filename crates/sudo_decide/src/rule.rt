//! What a rule says about an invocation.

ghost use Rattle.std.specs.Prelude.{◌≡◌, reverse};
ghost use Rattle.sudo_decide.specs.Decision as rules;

use crate::answer::{is_yes, item_says, list_says, signed_answer};
use crate::invocation::Invocation;
use crate::kind::{Cmnds, Hosts, Targets, Users};
use sudo_policy::{Policy, Rule};
use sudo_words::Moment;

/// Whether the moment is within these dates of a rule, both dates included. An absent date is no
/// bound.
pub fn is_within(not_before: Option<Moment>, not_after: Option<Moment>, at: Moment) -> bool
    ensures { result ≡ rules.is_within not_before not_after at }
{
    let begun = match not_before {
        None => true,
        Some(first) => first <= at,
    };
    let lasts = match not_after {
        None => true,
        Some(last) => at <= last,
    };
    begun && lasts
}

/// Whether the rule's users, hosts and targets each say yes. The first list that does not ends the
/// check.
fn is_about(p: &Policy, rule: &Rule, i: &Invocation) -> bool
    ensures { result ≡ rules.is_about (reverse p.now) rule.now i.now }
{
    is_yes(list_says::<Users>(p, rule.users.as_slice(), i))
        && is_yes(list_says::<Hosts>(p, rule.hosts.as_slice(), i))
        && is_yes(list_says::<Targets>(p, rule.runas.as_slice(), i))
}

/// What the rule's command says.
fn cmnd_says(p: &Policy, rule: &Rule, i: &Invocation) -> Option<bool>
    ensures { result ≡ rules.cmnd_says (reverse p.now) rule.now i.now }
{
    signed_answer(rule.cmnd.negated, item_says::<Cmnds>(p, &rule.cmnd.item, i))
}

/// What the rule says: nothing outside its dates, or where it is not about the invocation; else
/// what its command says.
pub(crate) fn says(p: &Policy, rule: &Rule, i: &Invocation) -> Option<bool>
    ensures { result ≡ rules.says (reverse p.now) rule.now i.now }
{
    if !is_within(rule.not_before, rule.not_after, i.at) || !is_about(p, rule, i) {
        return None;
    }
    cmnd_says(p, rule, i)
}
