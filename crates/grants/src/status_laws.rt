//! Laws of what the messages about a request come to, each the contract of a function that does
//! nothing.

ghost use Rattle.std.specs.Prelude.{◌≡◌, ◌≢◌, ◌↔◌, ◌≤◌, ◌+◌, max, Some, []};
ghost use Rattle.std.specs.Prelude.{◌∷◌, ◌++◌, ℕ, List, true, false, codes};
ghost use Rattle.sudo_words.specs.declared.cmnd.Cmnd.{Cmnd};
ghost use Rattle.messages.specs.Fields.{RequestFields, VerdictFields};
ghost use Rattle.messages.specs.Names.{SameMessages, name_of};
ghost use Rattle.messages.specs.declared.request_name.RequestName.{RequestName};
ghost use Rattle.messages.specs.declared.message.Message.{Message};
ghost use Rattle.messages.specs.declared.message.Message.TheVariants.{Request, Verdict};
ghost use Rattle.messages.specs.declared.kind.VerdictKind.TheVariants as kinds;
ghost use Rattle.roster.specs.Fields.{CeilingFields, RosterFields};
ghost use Rattle.roster.specs.Relations.{ceiling_at, conflicting, eligible, holds, may_revoke};
ghost use Rattle.grants.specs.Completion.{IsFirstApproval, IsFirstRevocation, IsNthSmallest};
ghost use Rattle.grants.specs.Counting.{NeverCounts};
ghost use Rattle.grants.specs.Statuses.{IsFirstMoment, IsLastMoment, IsStatus};
ghost use Rattle.grants.specs.Verdicts.{counts, IsComplete, IsGiven, RevokedBy};
ghost use Rattle.grants.specs.WorkedAdmission.{asked, asked_from};
ghost use Rattle.grants.specs.WorkedStatuses.{VerdictsComeTo, VerdictsComeToByDays};
ghost use Rattle.grants.specs.WorkedStatuses.{VerdictsGrant, VerdictsGrantByDays, approves};
ghost use Rattle.grants.specs.WorkedStatuses.{both_and, dave_and, refuses, revokes, shorter, team};
ghost use Rattle.grants.specs.declared.outcome.Status.{Status};
ghost use Rattle.grants.specs.declared.outcome.Status.TheVariants.{Disputed, Lapsed};
ghost use Rattle.grants.specs.declared.outcome.Status.TheVariants.{Refused, Void, Waiting};

/// A set of messages gives a name at most one status. `status` gives it.
pub fn one_status()
    ensures { (f : RosterFields Cmnd) (set : List Message) (name : RequestName) (a b : Status) →
        IsStatus f set name a → IsStatus f set name b → a ≡ b }
{}

/// Two lists of the same messages give a name the same status: neither order nor repeats matter.
pub fn order_is_free()
    ensures { (f : RosterFields Cmnd) (s t : List Message) (name : RequestName) (status : Status) →
        SameMessages s t → IsStatus f s name status → IsStatus f t name status }
{}

/// A request is complete at the n-th smallest of the moments at which people first gave an approval
/// while they were eligible, n being as many as its ceiling needs.
pub fn completion_is_nth_smallest()
    ensures { (f : RosterFields Cmnd) (set : List Message) (q : RequestFields)
        (c : CeilingFields Cmnd) (moment : ℕ) → ceiling_at f q.ceiling ≡ Some c → 1 ≤ c.needs
        → IsComplete f set q moment ↔ IsNthSmallest c.needs (IsFirstApproval f set q) moment }
{}

/// A window begins when its request is complete, but not before the first moment asked for. The
/// window ends at the last moment asked for, or earlier, a moment before the first revocation.
pub fn bounds_of_window()
    ensures begins { (f : RosterFields Cmnd) (set : List Message)
        (q : RequestFields) (start complete : ℕ) → IsFirstMoment f set q start
        → IsComplete f set q complete → start ≡ max q.from complete }
    ensures ends_as_asked { (f : RosterFields Cmnd) (set : List Message) (q : RequestFields)
        (end : ℕ) → IsLastMoment f set q end → ¬ RevokedBy f set q q.until → end ≡ q.until }
    ensures ends_revoked { (f : RosterFields Cmnd) (set : List Message)
        (q : RequestFields) (end revoked : ℕ) → IsLastMoment f set q end
        → IsFirstRevocation f set q revoked → revoked ≤ q.until → end + 1 ≡ revoked }
{}

/// Adding or removing a verdict that never counts changes no name's status.
pub fn uncounted_changes_nothing()
    ensures { (f : RosterFields Cmnd) (set : List Message)
        (v : VerdictFields) (name : RequestName) (status : Status) → NeverCounts f set v
        → IsStatus f set name status ↔ IsStatus f (set ++ Verdict v ∷ []) name status }
{}

/// Separation of duties (NIST SP 800-53 AC-5): the asker's own approval or refusal never counts.
/// Nor does an approval or refusal whose author, at its moment, holds a duty that conflicts with
/// the approving duty. And no verdict counts whose author is not the asker and lacks the approving
/// duty at its moment.
pub fn who_does_not_count()
    ensures asker { (f : RosterFields Cmnd) (c : CeilingFields Cmnd) (v : VerdictFields) →
        v.kind ≢ kinds.Revoke → v.by ≡ v.of → counts f c v ≡ false }
    ensures conflict { (f : RosterFields Cmnd) (c : CeilingFields Cmnd)
        (v : VerdictFields) (duty : List ℕ) → v.kind ≢ kinds.Revoke → holds f v.by duty v.at ≡ true
        → conflicting f duty c.approve ≡ true → counts f c v ≡ false }
    ensures without_duty { (f : RosterFields Cmnd) (c : CeilingFields Cmnd) (v : VerdictFields) →
        v.by ≢ v.of → holds f v.by c.approve v.at ≡ false → counts f c v ≡ false }
{}

/// A verdict counts by its author's rights when it was given, whatever they are before or after. So
/// a person who approved while eligible has a first such approval, given while eligible and no
/// later than that one: an earlier approval, given without the right, does not get in the way.
pub fn rights_of_the_moment()
    ensures alike { (f g : RosterFields Cmnd) (c : CeilingFields Cmnd) (v : VerdictFields)
        → eligible f v.by v.of c v.at ≡ eligible g v.by v.of c v.at → may_revoke f v.by v.of c v.at
        ≡ may_revoke g v.by v.of c v.at → counts f c v ≡ counts g c v }
    ensures has_first { (f : RosterFields Cmnd) (set : List Message)
        (q : RequestFields) (v : VerdictFields) → IsGiven f set q kinds.Approve v
        → (moment : ℕ) × IsFirstApproval f set q v.by moment × (moment ≤ v.at) }
    ensures first_given { (f : RosterFields Cmnd) (set : List Message) (q : RequestFields)
        (person : List ℕ) (moment : ℕ) → IsFirstApproval f set q person moment → (v : VerdictFields)
        × IsGiven f set q kinds.Approve v × (v.by ≡ person) × (v.at ≡ moment) }
{}

/// Worked statuses of ann's request for nine to eleven (32,400 to 39,600), where two have to
/// approve.
pub fn worked_statuses()
    // Neither the asker nor carol, who also audits, counts as an approver beside bob, and bob's
    // second approval does not make him a second approver.
    ensures asker { VerdictsComeTo
        (approves (codes "ann") 28_800 ∷ approves (codes "bob") 30_600 ∷ []) Waiting }
    ensures conflict { VerdictsComeTo
        (approves (codes "bob") 30_600 ∷ approves (codes "carol") 28_800 ∷ []) Waiting }
    ensures twice { VerdictsComeTo
        (approves (codes "bob") 30_600 ∷ approves (codes "bob") 31_200 ∷ []) Waiting }
    // The request is in force from the second approver's first approval on, but not before the
    // first moment asked for.
    ensures second { VerdictsGrant (both_and (approves (codes "dave") 34_000 ∷ [])) 33_000 39_600 }
    ensures ahead { VerdictsGrant
        (approves (codes "dave") 31_200 ∷ approves (codes "bob") 30_600 ∷ []) 32_400 39_600 }
    // A refusal at the very moment of the completion refuses the request; a later refusal, and
    // carol's, have no effect.
    ensures refused { VerdictsComeTo (both_and (refuses (codes "bob") 33_000 ∷ [])) Refused }
    ensures late { VerdictsGrant (both_and (refuses (codes "bob") 33_001
        ∷ refuses (codes "carol") 28_800 ∷ [])) 33_000 39_600 }
    // A revocation, even carol's, ends the window a moment before; a revocation at moment 0 leaves
    // nothing, and neither does an approval after the end.
    ensures revoked { VerdictsGrant (both_and (revokes (codes "carol") 36_000 ∷ [])) 33_000 35_999 }
    ensures void { VerdictsComeTo (both_and (revokes (codes "ann") 0 ∷ [])) Void }
    ensures too_late { VerdictsComeTo
        (approves (codes "bob") 30_600 ∷ approves (codes "dave") 39_601 ∷ []) Void }
    // Another request of the name disputes the request; and if the ceiling has been lowered since,
    // the request is lapsed.
    ensures disputed { IsStatus team
        (Request asked ∷ Request (asked_from 32_400 36_000) ∷ []) (name_of asked) Disputed }
    ensures lapsed { IsStatus shorter (Request asked ∷ []) (name_of asked) Lapsed }
{}

/// Worked statuses where duties are held on some days only: on 1 January ann asks for nine to
/// eleven of the 2nd (118,800 to 126,000); two have to approve, and dave has.
pub fn worked_days()
    // Bob's approval on the day before his first day has no effect, even once he may approve; his
    // next one has, from its moment on.
    ensures before { VerdictsComeToByDays (dave_and (approves (codes "bob") 86_399 ∷ [])) Waiting }
    ensures again { VerdictsGrantByDays (dave_and (approves (codes "bob") 86_399
        ∷ approves (codes "bob") 120_000 ∷ [])) 120_000 126_000 }
    ensures turned { VerdictsGrantByDays (dave_and (approves (codes "bob") 120_000
        ∷ approves (codes "bob") 86_399 ∷ [])) 120_000 126_000 }
    // Carol's approval has no effect on the last day on which she audits, and has one in the first
    // second after it.
    ensures audits { VerdictsComeToByDays
        (dave_and (approves (codes "carol") 86_399 ∷ [])) Waiting }
    ensures audited { VerdictsGrantByDays
        (dave_and (approves (codes "carol") 86_400 ∷ [])) 118_800 126_000 }
    // A refusal counts by the same rights; carol may revoke at any moment, bob not yet on the 1st.
    ensures refused_early { VerdictsGrantByDays (dave_and (approves (codes "carol") 86_400
        ∷ refuses (codes "bob") 86_399 ∷ [])) 118_800 126_000 }
    ensures refused { VerdictsComeToByDays
        (dave_and (approves (codes "carol") 90_000 ∷ refuses (codes "bob") 86_400 ∷ [])) Refused }
    ensures revoked_early { VerdictsGrantByDays (dave_and (approves (codes "carol") 86_400
        ∷ revokes (codes "bob") 86_399 ∷ [])) 118_800 126_000 }
    ensures revoked { VerdictsGrantByDays (dave_and (approves (codes "carol") 86_400
        ∷ revokes (codes "carol") 120_000 ∷ [])) 118_800 119_999 }
{}
