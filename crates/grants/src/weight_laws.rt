//! Laws of what a verdict weighs, each the contract of a function that does nothing.

ghost use Rattle.std.specs.Prelude.{◌≡◌, ◌≢◌, ◌↔◌, true, false, codes};
ghost use Rattle.sudo_words.specs.declared.cmnd.Cmnd.{Cmnd};
ghost use Rattle.messages.specs.Fields.{VerdictFields};
ghost use Rattle.messages.specs.declared.kind.VerdictKind.TheVariants as kinds;
ghost use Rattle.roster.specs.Fields.{CeilingFields, RosterFields};
ghost use Rattle.roster.specs.Relations.{holds, holds_against};
ghost use Rattle.grants.specs.Verdicts.{counts};
ghost use Rattle.grants.specs.Weights.{weighed};
ghost use Rattle.grants.specs.WorkedStatuses.{approves, by_two, refuses, revokes, team};
ghost use Rattle.grants.specs.declared.weighing.Weight.TheVariants as weights;

/// What each verdict weighs: a verdict counts exactly where its author was allowed to give it; else
/// the weight is the first reason that applies, of `asker`, `duty` and `conflict`. No revocation is
/// barred because its author is the asker, or by a conflict.
pub fn when_it_weighs_what()
    ensures counts { (f : RosterFields Cmnd) (c : CeilingFields Cmnd) (v : VerdictFields) →
        weighed f c v ≡ weights.Counts ↔ (counts f c v ≡ true) }
    ensures asker { (f : RosterFields Cmnd) (c : CeilingFields Cmnd) (v : VerdictFields) →
        weighed f c v ≡ weights.Asker ↔ ((v.kind ≢ kinds.Revoke) × (v.by ≡ v.of)) }
    ensures duty { (f : RosterFields Cmnd) (c : CeilingFields Cmnd) (v : VerdictFields) →
        weighed f c v ≡ weights.Duty ↔ ((v.by ≢ v.of) × (holds f v.by c.approve v.at ≡ false)) }
    ensures conflict { (f : RosterFields Cmnd) (c : CeilingFields Cmnd) (v : VerdictFields) →
        weighed f c v ≡ weights.Conflict ↔ ((v.kind ≢ kinds.Revoke) × (v.by ≢ v.of)
        × (holds f v.by c.approve v.at ≡ true) × (holds_against f v.by c.approve v.at ≡ true)) }
{}

/// Worked weights: ann asks; bob approves; carol approves, and audits, which conflicts.
pub fn worked_weights()
    ensures approver { weighed team by_two (approves (codes "bob") 30_600) ≡ weights.Counts }
    ensures asker { weighed team by_two (refuses (codes "ann") 30_600) ≡ weights.Asker }
    ensures nobody { weighed team by_two (approves (codes "eve") 30_600) ≡ weights.Duty }
    ensures conflict { weighed team by_two (approves (codes "carol") 30_600) ≡ weights.Conflict }
    // the asker may revoke without the duty, carol in spite of the conflict, and eve may not
    ensures asker_revokes { weighed team by_two (revokes (codes "ann") 30_600) ≡ weights.Counts }
    ensures carol_revokes { weighed team by_two (revokes (codes "carol") 30_600) ≡ weights.Counts }
    ensures eve_revokes { weighed team by_two (revokes (codes "eve") 30_600) ≡ weights.Duty }
{}
