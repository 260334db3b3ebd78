//! The laws, each the contract of a function that does nothing. This file has the laws of rosters
//! and of their texts.

ghost use Rattle.std.specs.Prelude.{◌≡◌, ◌↔◌, ◌≤◌, ◌<◌, ◌⊎◌, ◌+◌, ◌*◌, ℕ};
ghost use Rattle.std.specs.Prelude.{pos, List, [], true, false, codes};
ghost use Rattle.sudo_words.specs.declared.cmnd.Cmnd.{Cmnd};
ghost use Rattle.sudo_words.specs.Moment.{day_of, IsDateText, IsDay};
ghost use Rattle.roster.specs.Document.{day_spelled};
ghost use Rattle.roster.specs.Faults.{Has, IsLeastFault, IsRosterText};
ghost use Rattle.roster.specs.Fields.{CeilingFields, RosterFields};
ghost use Rattle.roster.specs.Relations.{conflicting, eligible, hold, holds, may_revoke};
ghost use Rattle.roster.specs.Worked.{office, everything, shop, shop_text, smallest};
ghost use Rattle.roster.specs.Worked.{smallest_text, roster_text, text_with_days, with_days};
ghost use Rattle.roster.specs.declared.days.Days.TheVariants.{Between};
ghost use Rattle.roster.specs.declared.fault.RosterFault.{RosterFault};
ghost use Rattle.roster.specs.declared.fault.RosterFault.TheVariants.{BadName, NotToml, OutOfRange};
ghost use Rattle.roster.specs.declared.fault.RosterFault.TheVariants.{SelfConflict, UnknownKey};
ghost use Rattle.roster.specs.declared.fault.RosterFault.TheVariants.{UnknownName, WrongType};

// the rights at a moment
pub use crate::right_laws::{
    always_is_every_day, cut_days_are_the_same, entries_are_a_set, later_days_agree,
    same_duties_same_rights, same_rights_until, worked_agreement,
};

/// A text is the text of at most one roster.
pub fn one_roster()
    ensures { (text : List ℕ) (f g : RosterFields Cmnd)
        → IsRosterText text f → IsRosterText text g → f ≡ g }
{}

/// A roster's text has no fault.
pub fn roster_has_no_fault()
    ensures { (text : List ℕ) (f : RosterFields Cmnd) (fault : RosterFault)
        → IsRosterText text f → ¬ Has text fault }
{}

/// A text has at most one least fault.
pub fn one_fault()
    ensures { (text : List ℕ) (d e : RosterFault)
        → IsLeastFault text d → IsLeastFault text e → d ≡ e }
{}

/// Each text is the text of a roster, or has a least fault. (There are never both, and never two of
/// either: `roster_has_no_fault`, `one_roster`, `one_fault`.)
pub fn roster_or_fault()
    ensures { (text : List ℕ) → ((f : RosterFields Cmnd) × IsRosterText text f)
        ⊎ ((fault : RosterFault) × IsLeastFault text fault) }
{}

/// A conflict is between two duties, and either of them conflicts with the other.
pub fn conflict_is_between_two()
    ensures two { (text : List ℕ) (f : RosterFields Cmnd) (duty : List ℕ) →
        IsRosterText text f → conflicting f duty duty ≡ false }
    ensures either_way { (f : RosterFields Cmnd) (d e : List ℕ)
        → conflicting f d e ≡ conflicting f e d }
{}

/// Duties are separate (NIST SP 800-53 AC-5): nobody approves what they asked for, and nobody
/// approves at a moment without holding the approving duty then, or while holding a duty that
/// conflicts with it.
pub fn duties_are_separate()
    ensures not_who_asks { (f : RosterFields Cmnd) (asker : List ℕ)
        (c : CeilingFields Cmnd) (at : ℕ) → eligible f asker asker c at ≡ false }
    ensures holds_duty { (f : RosterFields Cmnd) (person asker : List ℕ) (c : CeilingFields Cmnd)
        (at : ℕ) → eligible f person asker c at ≡ true → holds f person c.approve at ≡ true }
    ensures not_against { (f : RosterFields Cmnd) (person asker duty : List ℕ)
        (c : CeilingFields Cmnd) (at : ℕ) → holds f person duty at ≡ true
        → conflicting f duty c.approve ≡ true → eligible f person asker c at ≡ false }
{}

/// Adding conflicts makes nobody eligible, at any moment.
pub fn more_conflicts_fewer_eligible()
    ensures { (f g : RosterFields Cmnd) (person asker : List ℕ) (c : CeilingFields Cmnd) (at : ℕ) →
        g.people ≡ f.people →
        ((d e : List ℕ) → conflicting f d e ≡ true → conflicting g d e ≡ true) →
        eligible g person asker c at ≡ true → eligible f person asker c at ≡ true }
{}

/// Giving further duties to people who hold the approving duty at a moment makes none of them
/// eligible then.
pub fn more_duties_no_more_eligible()
    ensures { (f g : RosterFields Cmnd) (person asker : List ℕ) (c : CeilingFields Cmnd) (at : ℕ) →
        g.conflicts ≡ f.conflicts →
        ((d : List ℕ) → holds f person d at ≡ true → holds g person d at ≡ true) →
        holds f person c.approve at ≡ true →
        eligible g person asker c at ≡ true → eligible f person asker c at ≡ true }
{}

/// A duty with a first and a last day is held from the first second of the one to the last second
/// of the other.
pub fn days_in_seconds()
    ensures { (from until at : ℕ) → (hold (Between from until) (day_of at) ≡ true)
        ↔ ((from * 86_400 ≤ at) × (at < (until + 1) * 86_400)) }
{}

/// A text that is the date of a day stands for that day, and no other text stands for a day.
pub fn day_is_its_date()
    ensures read { (text : List ℕ) (day : ℕ) → IsDay day
        → IsDateText text (pos day) → day_spelled text ≡ day }
    ensures only { (text : List ℕ) → IsDay (day_spelled text)
        → IsDateText text (pos (day_spelled text)) }
{}

/// Worked duties: bob may approve what ann asked for; ann may not, nor carol, who also audits, nor
/// dan, whom the roster does not list. Ann and whoever approves may revoke it, and dan may not.
pub fn worked_duties()
    ensures bob { eligible office (codes "bob") (codes "ann") everything 0 ≡ true }
    ensures ann { eligible office (codes "ann") (codes "ann") everything 0 ≡ false }
    ensures carol { eligible office (codes "carol") (codes "ann") everything 0 ≡ false }
    ensures dan { eligible office (codes "dan") (codes "ann") everything 0 ≡ false }
    ensures either_way { conflicting office (codes "approve") (codes "audit") ≡ true }
    ensures ann_revokes { may_revoke office (codes "ann") (codes "ann") everything 0 ≡ true }
    ensures carol_revokes { may_revoke office (codes "carol") (codes "ann") everything 0 ≡ true }
    ensures dan_revokes_not { may_revoke office (codes "dan") (codes "ann") everything 0 ≡ false }
{}

/// Worked days: eve may approve from the first second of 1970-01-04 to the last of 1970-01-05, and
/// revoke then; fay may from the second after the last day on which she audits.
pub fn worked_days()
    ensures eve_not_yet { eligible office (codes "eve") (codes "ann") everything 259_199 ≡ false }
    ensures eve_from { eligible office (codes "eve") (codes "ann") everything 259_200 ≡ true }
    ensures eve_until { eligible office (codes "eve") (codes "ann") everything 431_999 ≡ true }
    ensures eve_no_more { eligible office (codes "eve") (codes "ann") everything 432_000 ≡ false }
    ensures eve_revokes { may_revoke office (codes "eve") (codes "ann") everything 431_999 ≡ true }
    ensures eve_revokes_no_more { may_revoke office (codes "eve") (codes "ann") everything 432_000
        ≡ false }
    ensures fay_audits { eligible office (codes "fay") (codes "ann") everything 345_599 ≡ false }
    ensures fay_no_more { eligible office (codes "fay") (codes "ann") everything 345_600 ≡ true }
{}

/// Worked texts: one that is not TOML; one with an unknown key, in which the known ones are missing
/// too; one with a value of the wrong type; and the smallest roster.
pub fn worked_texts()
    ensures not_toml { IsLeastFault (codes "relays") NotToml }
    ensures unknown_key { IsLeastFault (codes "x = 1") UnknownKey }
    ensures missing_too { Has (codes "x = 1") WrongType }
    ensures wrong_type { IsLeastFault (codes "relays = 1") WrongType }
    ensures smallest_roster { IsRosterText smallest_text smallest }
{}

/// Worked texts with days: a roster; a first day after the last one; a text that is not a date; and
/// an entry with an unknown key.
pub fn worked_entries()
    ensures two_days { IsRosterText
        (text_with_days (codes "19700101") (codes "19700102")) (with_days (Between 0 1)) }
    ensures backward { IsLeastFault
        (text_with_days (codes "19700102") (codes "19700101")) OutOfRange }
    ensures no_day { IsLeastFault
        (text_with_days (codes "19700101") (codes "19700100")) OutOfRange }
    ensures other_key { IsLeastFault (codes "people={a=[{by='d'}]}") UnknownKey }
{}

/// A worked text with people, a duty held on some days, a conflict and a ceiling is the text of
/// that roster.
pub fn worked_roster()
    ensures { IsRosterText shop_text shop }
{}

/// Worked faults of what a text says: a host in upper case, a duty that is not listed, one that
/// conflicts with itself, no host; and, for a text with two faults, the lower one.
pub fn worked_faults()
    ensures bad_name { IsLeastFault
        (roster_text (codes "'H'") (codes "'d'") [] (codes "a=['d']")) BadName }
    ensures unknown_name { IsLeastFault
        (roster_text (codes "'h'") (codes "'d'") [] (codes "a=['e']")) UnknownName }
    ensures self_conflict { IsLeastFault
        (roster_text (codes "'h'") (codes "'d'") (codes "['d','d']") (codes "a=['d']"))
        SelfConflict }
    ensures out_of_range { IsLeastFault
        (roster_text [] (codes "'d'") [] (codes "a=['d']")) OutOfRange }
    ensures lesser { IsLeastFault
        (roster_text [] (codes "'d'") (codes "['d','d']") (codes "a=['d']")) SelfConflict }
{}
