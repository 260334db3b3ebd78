//! What a rule without aliases says about an invocation.

ghost use Rattle.std.specs.Prelude.{◌≡◌};
ghost use Rattle.sudo_compiled.specs.Compiled as compiled;

use crate::plain::PlainRule;
use sudo_decide::{Decision, Invocation, is_within};

/// Whether the rule's users, hosts and targets each say yes. The first list that does not ends the
/// check.
pub(crate) fn is_about(rule: &PlainRule, i: &Invocation) -> bool
    ensures { result ≡ compiled.plain_is_about rule.now i.now }
{
    rule.users
        .says_of(i.user.as_str().as_bytes())
        .unwrap_or(false)
        && rule
            .hosts
            .says_of(i.host.as_str().as_bytes())
            .unwrap_or(false)
        && rule
            .runas
            .says_of(i.runas.as_str().as_bytes())
            .unwrap_or(false)
}

/// What the rule says: nothing outside its dates, or where it is not about the invocation; else
/// what its commands say. Commands are asked before names, since most rules have other commands.
fn says(rule: &PlainRule, i: &Invocation) -> Option<bool>
    ensures { result ≡ compiled.plain_says rule.now i.now }
{
    if !is_within(rule.not_before, rule.not_after, i.at) {
        return None;
    }
    let said = rule.cmnds.says_of_run(&i.path, i.args.as_slice())?;
    if is_about(rule, i) { Some(said) } else { None }
}

/// What the rule decides, where it speaks.
pub(crate) fn spoken(rule: &PlainRule, i: &Invocation) -> Option<Decision>
    ensures { result ≡ compiled.spoken i.now rule.now }
{
    match says(rule, i) {
        None => None,
        Some(answer) => Some(Decision::of(rule.tags, answer)),
    }
}
