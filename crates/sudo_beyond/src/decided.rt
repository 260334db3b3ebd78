//! Whether one policy allows what another refuses.

ghost use Rattle.std.specs.Prelude.{◌≡◌, true, false};
ghost use Rattle.std.specs.Bool.{Decides as Tells};
ghost use Rattle.sudo_decide.specs.declared.decision.Decision.TheVariants.{Deny};
ghost use Rattle.sudo_compiled.specs.Compiled.{answer};
ghost use Rattle.sudo_beyond.specs.private.Compared.{IsAllowed, IsAnsweredGap};

use sudo_compiled::{PlainRule, decide_among};
use sudo_decide::{Decision, Invocation};

/// Whether the rules allow the invocation, with a password or without.
fn allows(rules: &[PlainRule], i: &Invocation) -> bool
    ensures yes { result ≡ true → IsAllowed (answer rules.now i.now) }
    ensures no { result ≡ false → answer rules.now i.now ≡ Deny }
{
    match decide_among(rules, i) {
        Decision::Deny => false,
        Decision::Allow | Decision::AllowNoPassword => true,
    }
}

/// Whether the first rules allow the invocation, and the second refuse it.
pub fn is_gap(a: &[PlainRule], b: &[PlainRule], i: &Invocation) -> bool
    ensures { Tells result (IsAnsweredGap a.now b.now i.now) }
{
    allows(a, i) && !allows(b, i)
}
