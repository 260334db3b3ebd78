//! Laws of compiled policies, each the contract of a function that does nothing.

ghost use Rattle.std.specs.Prelude.{◌≡◌, List};
ghost use Rattle.sudo_policy.specs.declared.entry.Entry.{Entry};
ghost use Rattle.sudo_decide.specs.declared.invocation.Invocation.{Invocation};
ghost use Rattle.sudo_decide.specs.Decision.{Decides};
ghost use Rattle.sudo_decide.specs.Reach.{of_policy, rules_in, AllAnswerAlike};
ghost use Rattle.sudo_compiled.specs.declared.plain.PlainRule.{PlainRule};
ghost use Rattle.sudo_compiled.specs.Compiled.{answer};

/// Aliases are abbreviations and nothing else (sudoers(5), "Aliases"): if each rule of a policy
/// says, list by list, what the rule at its place in another policy says, each by its own policy's
/// aliases, the two compiled policies answer alike. So a policy with all its aliases written out
/// and their definitions left out gives the same answers.
pub fn aliases_abbreviate()
    ensures { (p q : List Entry) (c d : List PlainRule) (i : Invocation)
        → Decides p i (answer c i) → Decides q i (answer d i) → AllAnswerAlike (of_policy p i)
        (of_policy q i) (rules_in p) (rules_in q) → answer c i ≡ answer d i }
{}
