//! Laws of what a set of messages grants, each the contract of a function that does nothing.

ghost use Rattle.std.specs.Prelude.{◌≡◌, ◌≢◌, ◌↔◌, ◌<◌, ◌≤◌, ℕ, List, [], ◌∷◌};
ghost use Rattle.std.specs.Prelude.{◌++◌, Contains, Option, Some, None, length};
ghost use Rattle.sudo_words.specs.declared.cmnd.Cmnd.{Cmnd};
ghost use Rattle.sudo_policy.specs.declared.entry.Entry.{Entry};
ghost use Rattle.sudo_decide.specs.Decision.{is_not_after};
ghost use Rattle.messages.specs.Fields.{RequestFields, VerdictFields};
ghost use Rattle.messages.specs.Names.{IsAbout, SameMessages, SameName, name_of};
ghost use Rattle.messages.specs.declared.request_name.RequestName.{RequestName as AnyName};
ghost use Rattle.messages.specs.Wire.{IsMessage, wire};
ghost use Rattle.messages.specs.declared.message.Message.{Message};
ghost use Rattle.messages.specs.declared.message.Message.TheVariants.{Request, Verdict};
ghost use Rattle.messages.specs.declared.kind.VerdictKind.TheVariants as kinds;
ghost use Rattle.roster.specs.Faults.{IsRosterText};
ghost use Rattle.roster.specs.Fields.{RosterFields};
ghost use Rattle.grants.specs.Admission.{AdmitsRequest};
ghost use Rattle.grants.specs.Bases.{FitsBase};
ghost use Rattle.grants.specs.Counting.{NeverCounts};
ghost use Rattle.grants.specs.GrantLines.{lasts_until};
ghost use Rattle.grants.specs.Statuses.{InWindow, IsStatus};
ghost use Rattle.grants.specs.Summaries.{Kept};
ghost use Rattle.grants.specs.Verdicts.{IsComplete, IsGiven, StandsAlone};
ghost use Rattle.grants.specs.HostFaults.{most_lines};
ghost use Rattle.grants.specs.declared.outcome.Status.{Status};
ghost use Rattle.grants.specs.declared.outcome.Status.TheVariants.{Disputed, Refused};
ghost use Rattle.outcomes.specs.HostFile.{IsHostFile, IsHostFileAfter, Line, IsLine, lines_after};
ghost use Rattle.outcomes.specs.LinesLeft.{lines_left};
ghost use Rattle.outcomes.specs.Outcomes.{AreLive, ComesTo, LiveGrant, NobodyAsks};
ghost use Rattle.outcomes.specs.Parked.{AreParked, name_meant};
ghost use Rattle.outcomes.specs.Rights.{GivesRights, GivesRightsAfter};
ghost use Rattle.outcomes.specs.Same.{GrantTheSame};
ghost use Rattle.outcomes.specs.Summaries.{AllKeepTheSame, AreSummaries};
ghost use Rattle.outcomes.specs.Uncounted.{HoldsConflicting, MayNotRevoke};

/// Two lists of the same messages grant the same, park the same verdicts and have the same
/// summaries: neither order nor repeats matter.
pub fn order_free()
    ensures grants { (f : RosterFields Cmnd) (s t : List Message)
        → SameMessages s t → GrantTheSame f s t }
    ensures parked { (s t : List Message) (texts : List (List ℕ))
        → SameMessages s t → AreParked s texts → AreParked t texts }
    ensures summaries { (s t : List Message) (list : List Kept)
        → SameMessages s t → AreSummaries s list → AreSummaries t list }
{}

/// A set of messages has at most one of each: one status, or none, for a name; one list of grants
/// in force at a moment; one list of parked texts; one list of summaries, except for which request
/// a disputed one keeps; and for a host and a base one file, and one without the lines that end
/// before a moment.
pub fn one_of_each()
    ensures status { (f : RosterFields Cmnd) (set : List Message) (name : AnyName)
        (a b : Option Status) → ComesTo f set name a → ComesTo f set name b → a ≡ b }
    ensures live { (f : RosterFields Cmnd) (set : List Message) (moment : ℕ) (a b : List LiveGrant)
        → AreLive f set moment a → AreLive f set moment b → a ≡ b }
    ensures parked { (set : List Message) (a b : List (List ℕ))
        → AreParked set a → AreParked set b → a ≡ b }
    ensures summaries { (set : List Message) (a b : List Kept)
        → AreSummaries set a → AreSummaries set b → AllKeepTheSame a b }
    ensures file { (f : RosterFields Cmnd) (base : List Entry) (set : List Message)
        (host a b : List ℕ) → IsHostFile f base set host a → IsHostFile f base set host b → a ≡ b }
    ensures file_after { (f : RosterFields Cmnd) (base : List Entry) (set : List Message)
        (host : List ℕ) (moment : ℕ) (a b : List ℕ) → IsHostFileAfter f base set host moment a
        → IsHostFileAfter f base set host moment b → a ≡ b }
{}

/// Under a roster that was read from a text, each set of messages has all of these: for each name
/// its status, or none; for each moment its grants in force; for each host its lines, and so its
/// file for each base, whole and after each moment; and its parked texts and its summaries.
pub fn each_has_one()
    ensures status { (text : List ℕ) (f : RosterFields Cmnd) (set : List Message) (name : AnyName)
        → IsRosterText text f → ((m : Message) → Contains set m → IsMessage m)
        → (o : Option Status) × ComesTo f set name o }
    ensures live { (text : List ℕ) (f : RosterFields Cmnd) (set : List Message) (moment : ℕ)
        → IsRosterText text f → ((m : Message) → Contains set m → IsMessage m)
        → (list : List LiveGrant) × AreLive f set moment list }
    ensures file { (text : List ℕ) (f : RosterFields Cmnd) (base : List Entry) (set : List Message)
        (host : List ℕ) → IsRosterText text f → ((m : Message) → Contains set m → IsMessage m)
        → (file : List ℕ) × IsHostFile f base set host file }
    ensures file_after { (text : List ℕ) (f : RosterFields Cmnd)
        (base : List Entry) (set : List Message) (host : List ℕ) (moment : ℕ)
        → IsRosterText text f → ((m : Message) → Contains set m → IsMessage m)
        → (file : List ℕ) × IsHostFileAfter f base set host moment file }
    ensures parked { (set : List Message) → (texts : List (List ℕ)) × AreParked set texts }
    ensures summaries { (set : List Message) → ((m : Message) → Contains set m → IsMessage m)
        → (list : List Kept) × AreSummaries set list }
{}

/// A host's file gives its rights: read by the rules of sudoers(5), it allows what a grant of the
/// set covers, and decides all else as the base does. This holds for every base within the limits,
/// every set of messages, and at most 8,192 lines.
pub fn file_gives_rights()
    ensures { (f : RosterFields Cmnd) (base : List Entry) (set : List Message) (host text : List ℕ)
        → FitsBase base → ((m : Message) → Contains set m → IsMessage m)
        → (file : IsHostFile f base set host text)
        → length file.lines ≤ most_lines → GivesRights f base set host text }
{}

/// A line is left after a moment exactly if it is one of the host's lines and the last moment of
/// its window is not before that moment: a line that ends at the moment stays, and the file after
/// moment 0 is the whole file. Without a moment all lines are left. A line is left up to the last
/// moment at which its rule takes part. The file after a moment gives the rights from then on,
/// whatever lines were left out, if at most 8,192 are left.
pub fn ended_lines_give_nothing()
    ensures left { (f : RosterFields Cmnd) (set : List Message) (host : List ℕ)
        (moment : ℕ) (lines : List Line) (line : Line) → (is : IsLine f set host line)
        → Contains (lines_after moment lines) line ↔ (Contains lines line × (moment ≤ is.last)) }
    ensures worked { (a b : Line) → a.rule.not_after ≡ Some 1_767_610_800 → b.rule.not_after
        ≡ Some 1_767_610_801 → (lines_after 1_767_610_800 (a ∷ b ∷ []) ≡ a ∷ b ∷ [])
        × (lines_after 1_767_610_801 (a ∷ b ∷ []) ≡ b ∷ [])
        × (lines_after 1_767_610_802 (a ∷ b ∷ []) ≡ []) }
    ensures all { (lines : List Line) → lines_left None lines ≡ lines }
    ensures some { (moment : ℕ) (lines : List Line)
        → lines_left (Some moment) lines ≡ lines_after moment lines }
    ensures decides { (last : Option ℕ) (moment : ℕ)
        → lasts_until last moment ≡ is_not_after last moment }
    ensures whole { (f : RosterFields Cmnd) (base : List Entry)
        (set : List Message) (host text : List ℕ)
        → IsHostFileAfter f base set host 0 text ↔ IsHostFile f base set host text }
    ensures rights { (f : RosterFields Cmnd) (base : List Entry) (set : List Message)
        (host : List ℕ) (moment : ℕ) (text : List ℕ) → FitsBase base → ((m : Message)
        → Contains set m → IsMessage m) → (file : IsHostFileAfter f base set host moment text)
        → length (lines_after moment file.lines) ≤ most_lines
        → GivesRightsAfter f base set host moment text }
{}

/// Two different requests of one name dispute it, and neither is ever granted.
pub fn disputed_gives_nothing()
    ensures status { (f : RosterFields Cmnd) (set : List Message) (p q : RequestFields)
        → Contains set (Request p) → Contains set (Request q)
        → SameName p q → p ≢ q → IsStatus f set (name_of p) Disputed }
    ensures window { (f : RosterFields Cmnd) (set : List Message) (p q : RequestFields) (moment : ℕ)
        → Contains set (Request p) → Contains set (Request q) → SameName p q
        → p ≢ q → (¬ InWindow f set p moment) × (¬ InWindow f set q moment) }
{}

/// Separation of duties (NIST SP 800-53 AC-5): adding or removing one of these verdicts changes
/// nothing that is granted: the asker's own approval or refusal; the approval or refusal of
/// somebody who at its moment holds a duty that conflicts with the approving duty; and the
/// revocation of somebody who may not revoke then.
pub fn who_changes_nothing()
    ensures asker { (f : RosterFields Cmnd) (set : List Message) (v : VerdictFields) →
        v.kind ≢ kinds.Revoke → v.by ≡ v.of → GrantTheSame f set (set ++ Verdict v ∷ []) }
    ensures conflict { (f : RosterFields Cmnd) (set : List Message) (v : VerdictFields) → v.kind
        ≢ kinds.Revoke → HoldsConflicting f set v → GrantTheSame f set (set ++ Verdict v ∷ []) }
    ensures revocation { (f : RosterFields Cmnd) (set : List Message) (v : VerdictFields) →
        v.kind ≡ kinds.Revoke → MayNotRevoke f set v → GrantTheSame f set (set ++ Verdict v ∷ []) }
    // The same holds for each verdict that never counts.
    ensures uncounted { (f : RosterFields Cmnd) (set : List Message) (v : VerdictFields) →
        NeverCounts f set v → GrantTheSame f set (set ++ Verdict v ∷ []) }
{}

/// A revocation that counts ends the window before its moment.
pub fn revocation_ends()
    ensures { (f : RosterFields Cmnd) (set : List Message) (q : RequestFields) (v : VerdictFields)
        (moment : ℕ) → IsGiven f set q kinds.Revoke v → InWindow f set q moment → moment < v.at }
{}

/// A refusal that counts, and is not later than the completion, refuses the request; adding or
/// removing a later refusal changes nothing that is granted.
pub fn refusal_in_time()
    ensures status { (f : RosterFields Cmnd) (set : List Message) (q : RequestFields)
        (v : VerdictFields) → StandsAlone set q → AdmitsRequest f q → IsGiven f set q kinds.Refuse v
        → ((complete : ℕ) → IsComplete f set q complete → v.at ≤ complete)
        → IsStatus f set (name_of q) Refused }
    ensures window { (f : RosterFields Cmnd) (set : List Message)
        (q : RequestFields) (v : VerdictFields) (moment : ℕ) → IsGiven f set q kinds.Refuse v
        → ((complete : ℕ) → IsComplete f set q complete → v.at ≤ complete)
        → ¬ InWindow f set q moment }
    ensures later { (f : RosterFields Cmnd) (set : List Message)
        (q : RequestFields) (v : VerdictFields) (complete : ℕ) → StandsAlone set q
        → IsAbout q v → v.kind ≡ kinds.Refuse → IsComplete f set q complete
        → complete < v.at → GrantTheSame f set (set ++ Verdict v ∷ []) }
{}

/// A verdict without its request is parked, and is parked no longer when the request comes.
pub fn parked_until_asked()
    ensures parked { (set : List Message) (v : VerdictFields) (texts : List (List ℕ))
        → Contains set (Verdict v) → NobodyAsks set (name_meant v)
        → AreParked set texts → Contains texts (wire (Verdict v)) }
    ensures leaves { (set : List Message)
        (q : RequestFields) (v : VerdictFields) (texts : List (List ℕ))
        → ((m : Message) → Contains set m → IsMessage m) → Contains set (Verdict v) → IsAbout q v
        → AreParked (set ++ Request q ∷ []) texts → ¬ Contains texts (wire (Verdict v)) }
{}
