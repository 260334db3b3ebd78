//! Laws of reports, each the contract of a function that does nothing.

ghost use Rattle.std.specs.Prelude.{◌≡◌, ◌↔◌, ℕ, ◌++◌, List, [], ◌∷◌, Contains};
ghost use Rattle.std.specs.Prelude.{Some, None, codes, map, true, false};
ghost use Rattle.std.specs.List.{flat_map};
ghost use Rattle.std.specs.declared.cmp.Ordering.TheVariants.{Less};
ghost use Rattle.sudo_words.specs.Lists.{text_order};
ghost use Rattle.sudo_words.specs.Moment.{IsMoment};
ghost use Rattle.sudo_words.specs.declared.cmnd.Cmnd.{Cmnd};
ghost use Rattle.sudo_policy.specs.declared.entry.Entry.{Entry};
ghost use Rattle.sudo_policy.specs.Policy.{IsPolicy};
ghost use Rattle.sudo_decide.specs.declared.invocation.Invocation.{Invocation};
ghost use Rattle.messages.specs.Fields.{IsRequest, RequestFields, VerdictFields};
ghost use Rattle.messages.specs.Names.{IsAbout, NamePrecedes, SameMessages, name_cmp, name_of};
ghost use Rattle.messages.specs.Order.{TextPrecedes};
ghost use Rattle.messages.specs.Wire.{IsMessage};
ghost use Rattle.messages.specs.declared.request_name.RequestName.{RequestName};
ghost use Rattle.messages.specs.declared.kind.VerdictKind.TheVariants.{Approve};
ghost use Rattle.messages.specs.declared.message.Message.{Message};
ghost use Rattle.messages.specs.declared.message.Message.TheVariants.{Verdict};
ghost use Rattle.roster.specs.Faults.{IsRosterText};
ghost use Rattle.roster.specs.Fields.{CeilingFields, RosterFields};
ghost use Rattle.roster.specs.Relations.{ceiling_at, eligible};
ghost use Rattle.grants.specs.Statuses.{IsFirstMoment, IsLastMoment, IsStatus};
ghost use Rattle.grants.specs.Verdicts.{StandsAlone};
ghost use Rattle.grants.specs.declared.outcome.Status.{Status};
ghost use Rattle.grants.specs.declared.outcome.Window.{Window};
ghost use Rattle.outcomes.specs.Covers.{Covers};
ghost use Rattle.outcomes.specs.HostFile.{AreLines, Line, with_lines};
ghost use Rattle.review.specs.declared.need.Need.{Need};
ghost use Rattle.review.specs.declared.need.Need.TheVariants.{Needless};
ghost use Rattle.grants.specs.WorkedAdmission.{asked};
ghost use Rattle.grants.specs.WorkedStatuses.{by_two, rota, team};
ghost use Rattle.review.specs.declared.reason.Reason.{Reason};
ghost use Rattle.review.specs.declared.reason.Reason.TheVariants.{Asker, Duty, Conflict};
ghost use Rattle.review.specs.Barred.{HasApprovedAt, IsBarred, reason};
ghost use Rattle.sudo_beyond.specs.Beyond.{Allows, IsInvocation};
ghost use Rattle.review.specs.Needs.{IsNeed, lines_without, own_policy};
ghost use Rattle.review.specs.Report.{IsReport, broad_for, conflicts_of, lesser_first};
ghost use Rattle.review.specs.WorkedReport.{lesser_first_pairs, team_text, three_commands};

/// Two lists of the same messages have one report at a moment: neither order nor repeats mean
/// anything.
pub fn one_report()
    ensures { (f : RosterFields Cmnd) (base : List Entry)
        (s t : List Message) (at : ℕ) (x y : List ℕ) → SameMessages s t
        → IsReport f base s at x → IsReport f base t at y → x ≡ y }
{}

/// Under a roster that was read from a text, each set of messages has a report at each moment, over
/// each base.
pub fn each_has_a_report()
    ensures { (text : List ℕ) (f : RosterFields Cmnd) (base : List Entry) (set : List Message)
        (at : ℕ) → IsRosterText text f → IsPolicy base
        → ((m : Message) → Contains set m → IsMessage m)
        → (report : List ℕ) × IsReport f base set at report }
{}

/// Each grant has exactly one word beside each base: needed, needless or unknown.
pub fn each_grant_has_one_word()
    ensures some { (base : List Entry) (q : RequestFields) (w : Window) → IsPolicy base
        → IsRequest q → IsMoment w.start → IsMoment w.end → (need : Need) × IsNeed base q w need }
    ensures one { (base : List Entry) (q : RequestFields) (w : Window) (m n : Need)
        → IsNeed base q w m → IsNeed base q w n → m ≡ n }
{}

/// A grant is called needless only if the base allows all that the grant covers. Then each host's
/// file allows the same without the grant's lines; only whether a password is asked for may differ.
pub fn needless_gives_nothing()
    ensures covered { (f : RosterFields Cmnd) (base : List Entry) (set : List Message)
        (i : Invocation) (c : Covers f set i) (w : Window) → IsFirstMoment f set c.request w.start
        → IsLastMoment f set c.request w.end → IsNeed base c.request w Needless
        → IsInvocation i → Allows base i }
    ensures file { (f : RosterFields Cmnd) (base : List Entry) (set : List Message)
        (q : RequestFields) (w : Window) (i : Invocation) (lines : List Line)
        → AreLines f set i.host lines → IsFirstMoment f set q w.start → IsLastMoment f set q w.end
        → IsNeed base q w Needless → IsInvocation i
        → Allows (with_lines base lines) i ↔ Allows (with_lines base
        (lines_without (name_of q) lines)) i }
    // Whatever the grant's own rules allow on a host that it names, the base allows.
    ensures rules { (base : List Entry) (q : RequestFields) (w : Window) (i : Invocation)
        → IsNeed base q w Needless → IsInvocation i → i.user ≡ q.by → Contains q.hosts i.host
        → i.runas ≡ q.runas → Allows (own_policy q w i.host) i → Allows base i }
{}

/// Names and texts have one order each, wherever it is written down.
pub fn orders_agree()
    ensures names { (a b : RequestName) → (name_cmp a b ≡ Less) ↔ NamePrecedes a b }
    ensures texts { (a b : List ℕ) → (text_order a b ≡ Less) ↔ TextPrecedes a b }
{}

/// There is a reason against an approval exactly if its author is not eligible at its moment (NIST
/// SP 800-53 AC-5). An approval by somebody who is listed under BARRED may be taken away or added
/// again: no name's status changes.
pub fn barred_changes_nothing()
    ensures barred { (f : RosterFields Cmnd) (c : CeilingFields Cmnd)
        (asker person : List ℕ) (at : ℕ) (why : Reason)
        → reason f c asker person at ≡ Some why → eligible f person asker c at ≡ false }
    ensures other { (f : RosterFields Cmnd) (c : CeilingFields Cmnd) (asker person : List ℕ)
        (at : ℕ) → reason f c asker person at ≡ None → eligible f person asker c at ≡ true }
    ensures nothing { (f : RosterFields Cmnd) (set : List Message)
        (q : RequestFields) (c : CeilingFields Cmnd)
        (v : VerdictFields) (why : Reason) (name : RequestName) (status : Status)
        → StandsAlone set q → ceiling_at f q.ceiling ≡ Some c → IsAbout q v → v.kind ≡ Approve
        → IsBarred f c q.by v.by (HasApprovedAt (set ++ Verdict v ∷ []) q v.by) why
        → IsStatus f set name status ↔ IsStatus f (set ++ Verdict v ∷ []) name status }
{}

/// Worked lines: the text of a report with a grant, an approval that does not count and a holder of
/// two conflicting duties; why the approvals of four people do not count, if they do not, and those
/// of two people on two days; and which of three commands are broad.
pub fn worked_lines()
    ensures text { team_text
        ≡ codes "REVIEW 19700101093000Z\nLIVE\nann                                      7 db-root                          19700101091000Z 19700101110000Z needed\nBARRED\nann                                      7 carol                            conflict\nCONFLICTS\ncarol                            approve                          audit\nBROAD\nPARKED\n" }
    ensures pairs { map lesser_first team.conflicts ≡ lesser_first_pairs }
    ensures reasons { map (λ person. reason team by_two (codes "ann") person 28_800)
        (codes "ann" ∷ codes "eve" ∷ codes "carol" ∷ codes "bob" ∷ [])
        ≡ Some Asker ∷ Some Duty ∷ Some Conflict ∷ None ∷ [] }
    // Bob approves from 2 January on, and carol audits up to the 1st.
    ensures days { map (reason rota by_two (codes "ann") (codes "bob")) (86_399 ∷ 86_400 ∷ [])
        ≡ Some Duty ∷ None ∷ [] }
    ensures last_day { map (reason rota by_two (codes "ann") (codes "carol")) (86_399 ∷ 86_400 ∷ [])
        ≡ Some Conflict ∷ None ∷ [] }
    ensures conflicts { flat_map (conflicts_of rota 86_399 lesser_first_pairs) rota.people
        ≡ codes "carol                            approve                          audit" ∷ [] }
    ensures ended { flat_map (conflicts_of rota 86_400 lesser_first_pairs) rota.people ≡ [] }
    ensures broad { flat_map (broad_for asked) three_commands
        ≡ codes "ann                                      7 ALL"
        ∷ codes "ann                                      7 /usr/bin/" ∷ [] }
{}
