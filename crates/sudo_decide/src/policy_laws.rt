//! Laws of a policy's rules and aliases, each the contract of a function that does nothing.

ghost use Rattle.std.specs.Prelude.{◌≡◌, List, reverse};
ghost use Rattle.sudo_policy.specs.declared.entry.Entry.{Entry};
ghost use Rattle.sudo_policy.specs.Alias.{user_def, runas_def, host_def};
ghost use Rattle.sudo_policy.specs.Policy.{IsPolicy};
ghost use Rattle.sudo_decide.specs.declared.decision.Decision.{Decision};
ghost use Rattle.sudo_decide.specs.declared.invocation.Invocation.{Invocation};
ghost use Rattle.sudo_decide.specs.Answered.{EachAnswersItsList, EachCmndAnswersItsList};
ghost use Rattle.sudo_decide.specs.Decision.{DecidesByRule, DecidesBySilence};

/// At most one rule of a policy, at one place, decides an invocation; and if one does, silence does
/// not decide it.
pub fn one_rule_decides()
    ensures rule { (es : List Entry) (i : Invocation) (c d : Decision)
        (x : DecidesByRule (reverse es) es i c) (y : DecidesByRule (reverse es) es i d) →
        (x.before ≡ y.before) × (x.rule ≡ y.rule) × (x.after ≡ y.after) }
    ensures no_silence { (es : List Entry) (i : Invocation) (c d : Decision) →
        DecidesByRule (reverse es) es i c → DecidesBySilence (reverse es) es i d → ⊥ }
{}

/// Each alias of a policy answers what its list answers, both by the policy's own definitions
/// (sudoers(5), "Aliases").
pub fn aliases_answer_their_lists()
    ensures users { (es : List Entry) → IsPolicy es → EachAnswersItsList user_def es }
    ensures runas { (es : List Entry) → IsPolicy es → EachAnswersItsList runas_def es }
    ensures hosts { (es : List Entry) → IsPolicy es → EachAnswersItsList host_def es }
    ensures cmnds { (es : List Entry) → IsPolicy es → EachCmndAnswersItsList es }
{}
