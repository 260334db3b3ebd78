//! The laws, each the contract of a function that does nothing. The laws of decisions are written
//! here, and the others are re-exported.

ghost use Rattle.std.specs.Prelude.{◌≡◌, ℕ, ◌<◌, Bool, true, false, Option};
ghost use Rattle.std.specs.Prelude.{List, [], ◌∷◌, ◌++◌, reverse, codes};
ghost use Rattle.sudo_policy.specs.declared.entry.Rule.{Rule};
ghost use Rattle.sudo_policy.specs.declared.entry.Entry.{Entry};
ghost use Rattle.sudo_policy.specs.declared.entry.Entry.TheVariants as entries;
ghost use Rattle.sudo_decide.specs.declared.decision.Decision.{Decision};
ghost use Rattle.sudo_decide.specs.declared.invocation.Invocation.{Invocation};
ghost use Rattle.sudo_decide.specs.Decision.{signed_answer, names_say};
ghost use Rattle.sudo_decide.specs.Decision.{takes_part, says, outcome, Decides};
ghost use Rattle.sudo_decide.specs.Reach.{of_policy, rules_in, AllAnswerAlike};
ghost use Rattle.sudo_decide.specs.Worked.{all_but_bob, only_not_bob, rule_for, asks};

// a policy's rules and aliases
pub use crate::policy_laws::{aliases_answer_their_lists, one_rule_decides};
// an alias and its list
pub use crate::alias_laws::{
    alias_answers_its_list, alias_keeps_silence, worked_cmnd_aliases, worked_user_aliases,
};

/// A policy decides an invocation in one way only.
pub fn one_decision()
    ensures { (es : List Entry) (i : Invocation) (c d : Decision) →
        Decides es i c → Decides es i d → c ≡ d }
{}

/// Any list of entries decides each invocation in some way.
pub fn some_decision()
    ensures { (es : List Entry) (i : Invocation) → (d : Decision) × Decides es i d }
{}

/// Adding a rule anywhere, or taking it away, does not change the decision on an invocation about
/// which the rule is silent.
pub fn silent_rule()
    ensures added { (before after : List Entry) (r : Rule) (i : Invocation) (d : Decision) →
        says (reverse (before ++ after)) r i ≡ None →
        Decides (before ++ after) i d → Decides (before ++ entries.Rule r ∷ after) i d }
    ensures taken_away { (before after : List Entry) (r : Rule) (i : Invocation) (d : Decision) →
        says (reverse (before ++ after)) r i ≡ None →
        Decides (before ++ entries.Rule r ∷ after) i d → Decides (before ++ after) i d }
{}

/// A rule is silent before its first moment and after its last, whatever the aliases are.
pub fn outside_dates()
    ensures before { (defined : List Entry) (r : Rule) (i : Invocation) (first : ℕ) →
        r.not_before ≡ Some first → i.at < first → says defined r i ≡ None }
    ensures after { (defined : List Entry) (r : Rule) (i : Invocation) (last : ℕ) →
        r.not_after ≡ Some last → last < i.at → says defined r i ≡ None }
{}

/// Adding a rule anywhere, or taking it away, does not change the decision on an invocation outside
/// the rule's dates.
pub fn rule_outside_dates()
    ensures added { (before after : List Entry) (r : Rule) (i : Invocation) (d : Decision) →
        takes_part r i.at ≡ false →
        Decides (before ++ after) i d → Decides (before ++ entries.Rule r ∷ after) i d }
    ensures taken_away { (before after : List Entry) (r : Rule) (i : Invocation) (d : Decision) →
        takes_part r i.at ≡ false →
        Decides (before ++ entries.Rule r ∷ after) i d → Decides (before ++ after) i d }
{}

/// Two negations cancel, and a silent answer stays silent under negation.
pub fn double_negation()
    ensures twice { (answer : Option Bool)
        → signed_answer true (signed_answer true answer) ≡ answer }
    ensures silence { (negated : Bool) → signed_answer negated None ≡ None }
{}

/// Where the last entry is a rule that speaks, it decides.
pub fn last_speaks()
    ensures { (es : List Entry) (r : Rule) (i : Invocation) (answer : Bool) →
        says (reverse (es ++ entries.Rule r ∷ [])) r i ≡ Some answer →
        Decides (es ++ entries.Rule r ∷ []) i (outcome r answer) }
{}

/// A decision depends on what the lists and the command of each rule answer, and on its tags and
/// whether it takes part, and on nothing else: where these agree, rule by rule, for two policies
/// and two invocations, the decisions are the same.
pub fn answers_decide()
    ensures { (es fs : List Entry) (i j : Invocation) (d : Decision) →
        AllAnswerAlike (of_policy es i) (of_policy fs j) (rules_in es) (rules_in fs) →
        Decides es i d → Decides fs j d }
{}

/// Worked lists: `ALL, !bob` says no to bob and yes to alice, and `!bob` alone is silent about
/// alice.
pub fn worked_lists()
    ensures bob { names_say [] (codes "bob") all_but_bob ≡ Some false }
    ensures alice { names_say [] (codes "alice") all_but_bob ≡ Some true }
    ensures silent { names_say [] (codes "alice") only_not_bob ≡ None }
{}

/// Worked dates: a rule from moment 100 to moment 200 speaks at both, and is silent a second before
/// and after.
pub fn worked_dates()
    ensures before { says [] (rule_for false false) (asks 99) ≡ None }
    ensures first { says [] (rule_for false false) (asks 100) ≡ Some true }
    ensures last { says [] (rule_for false false) (asks 200) ≡ Some true }
    ensures after { says [] (rule_for false false) (asks 201) ≡ None }
{}

/// Worked policies: a later no beats a yes, a later yes beats a no, and a rule outside its dates is
/// skipped.
pub fn worked_decisions()
    ensures denied { Decides (entries.Rule (rule_for false false)
        ∷ entries.Rule (rule_for false true) ∷ []) (asks 150) Decision.Deny }
    ensures allowed { Decides (entries.Rule (rule_for false true)
        ∷ entries.Rule (rule_for false false) ∷ []) (asks 150) Decision.Allow }
    ensures no_password { Decides (entries.Rule (rule_for false true)
        ∷ entries.Rule (rule_for true false) ∷ []) (asks 150) Decision.AllowNoPassword }
    ensures late { Decides (entries.Rule (rule_for false false) ∷ []) (asks 201) Decision.Deny }
{}
