//! Laws of the rights at a moment, each the contract of a function that does nothing.

ghost use Rattle.std.specs.Prelude.{◌≡◌, ◌↔◌, ◌≤◌, ◌<◌, ◌+◌, ℕ, List, ◌∷◌, ◌++◌, Contains, true};
ghost use Rattle.sudo_words.specs.declared.cmnd.Cmnd.{Cmnd};
ghost use Rattle.sudo_words.specs.Moment.{day_of, IsMoment};
ghost use Rattle.roster.specs.Agreement.{AgreeUntil};
ghost use Rattle.roster.specs.Fields.{CeilingFields, Entry, RosterFields};
ghost use Rattle.roster.specs.Relations.{ceiling_at, eligible, entries_for};
ghost use Rattle.roster.specs.Relations.{has_person, hold, holds, may_revoke};
ghost use Rattle.roster.specs.Worked.{longer_office, office};
ghost use Rattle.roster.specs.declared.days.Days.{Days as AnyDays};
ghost use Rattle.roster.specs.declared.days.Days.TheVariants.{Always, Between};

/// A duty that is always held is held at each moment; and an entry that is always held means the
/// same as one with the days from 1970-01-01 to 2099-12-31.
pub fn always_is_every_day()
    ensures held { (f : RosterFields Cmnd) (person duty : List ℕ) (at : ℕ) →
        Contains (entries_for f person) (duty, Always) → holds f person duty at ≡ true }
    ensures same { (f g : RosterFields Cmnd) (person duty other : List ℕ)
        (before after : List Entry) (at : ℕ)
        → IsMoment at → entries_for f person ≡ before ++ (other, Always) ∷ after
        → entries_for g person ≡ before ++ (other, Between 0 47_481) ∷ after
        → holds f person duty at ≡ holds g person duty at }
{}

/// Cutting the days of an entry in two, up to a day and from the day after it on, does not change
/// which duties the person holds at any moment.
pub fn cut_days_are_the_same()
    ensures { (f g : RosterFields Cmnd) (person duty other : List ℕ)
        (before after : List Entry) (from middle until at : ℕ) → from ≤ middle → middle < until
        → entries_for f person ≡ before ++ (other, Between from until) ∷ after
        → entries_for g person
        ≡ before ++ (other, Between from middle) ∷ (other, Between (middle + 1) until) ∷ after
        → holds f person duty at ≡ holds g person duty at }
{}

/// A person's entries are a set: neither their order nor repeats mean anything.
pub fn entries_are_a_set()
    ensures { (f g : RosterFields Cmnd) (person duty : List ℕ) (at : ℕ) →
        ((e : Entry) → Contains (entries_for f person) e ↔ Contains (entries_for g person) e) →
        holds f person duty at ≡ holds g person duty at }
{}

/// What somebody may do at a moment depends only on the duties that they hold then, and on the
/// conflicts.
pub fn same_duties_same_rights()
    ensures eligible { (f g : RosterFields Cmnd) (person asker : List ℕ)
        (c : CeilingFields Cmnd) (at : ℕ) → f.conflicts ≡ g.conflicts
        → ((duty : List ℕ) → holds f person duty at ≡ holds g person duty at)
        → eligible f person asker c at ≡ eligible g person asker c at }
    ensures may_revoke { (f g : RosterFields Cmnd) (person asker : List ℕ) (c : CeilingFields Cmnd)
        (at : ℕ) → ((duty : List ℕ) → holds f person duty at ≡ holds g person duty at)
        → may_revoke f person asker c at ≡ may_revoke g person asker c at }
{}

/// Rosters that agree until a moment list the same people, have the same ceilings, and give
/// everybody the same rights at each moment up to that one.
pub fn same_rights_until()
    ensures person { (f g : RosterFields Cmnd) (moment : ℕ) (person : List ℕ) →
        AgreeUntil moment f g → has_person f person ≡ has_person g person }
    ensures ceiling { (f g : RosterFields Cmnd) (moment : ℕ) (label : List ℕ) →
        AgreeUntil moment f g → ceiling_at f label ≡ ceiling_at g label }
    ensures eligible { (f g : RosterFields Cmnd) (moment : ℕ) (person asker : List ℕ)
        (c : CeilingFields Cmnd) (at : ℕ) → AgreeUntil moment f g → at ≤ moment
        → eligible f person asker c at ≡ eligible g person asker c at }
    ensures may_revoke { (f g : RosterFields Cmnd) (moment : ℕ) (person asker : List ℕ)
        (c : CeilingFields Cmnd) (at : ℕ) → AgreeUntil moment f g → at ≤ moment
        → may_revoke f person asker c at ≡ may_revoke g person asker c at }
{}

/// Two rosters agree until a moment if they differ only in the days of one entry, which are the
/// same up to the moment's day, or if one has one more entry, whose days begin after it. So a duty
/// may be ended, prolonged or given for the time to come.
pub fn later_days_agree()
    ensures changed { (f g : RosterFields Cmnd) (moment : ℕ) (name duty : List ℕ)
        (old new : AnyDays) (people more : List (List ℕ × List Entry)) (before after : List Entry)
        → f.conflicts ≡ g.conflicts → f.ceilings ≡ g.ceilings
        → f.people ≡ people ++ (name, before ++ (duty, old) ∷ after) ∷ more
        → g.people ≡ people ++ (name, before ++ (duty, new) ∷ after) ∷ more
        → ((day : ℕ) → day ≤ day_of moment → hold old day ≡ hold new day) → AgreeUntil moment f g }
    ensures begun { (f g : RosterFields Cmnd) (moment : ℕ) (name duty : List ℕ)
        (from until : ℕ) (people more : List (List ℕ × List Entry)) (before after : List Entry)
        → f.conflicts ≡ g.conflicts → f.ceilings ≡ g.ceilings
        → f.people ≡ people ++ (name, before ++ after) ∷ more
        → g.people ≡ people ++ (name, before ++ (duty, Between from until) ∷ after) ∷ more
        → day_of moment < from → AgreeUntil moment f g }
    ensures turned { (f g : RosterFields Cmnd) (moment : ℕ)
        → AgreeUntil moment f g → AgreeUntil moment g f }
    ensures chained { (f g h : RosterFields Cmnd) (moment : ℕ)
        → AgreeUntil moment f g → AgreeUntil moment g h → AgreeUntil moment f h }
{}

/// Worked agreement: an office, and the same one where eve approves for two more days, agree until
/// the last second of her last day in the first, and no longer.
pub fn worked_agreement()
    ensures until { AgreeUntil 431_999 office longer_office }
    ensures no_longer { ¬ AgreeUntil 432_000 office longer_office }
{}
