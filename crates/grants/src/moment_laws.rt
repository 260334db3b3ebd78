//! Laws of windows and of what rosters say about past moments, each the contract of a function that
//! does nothing.

ghost use Rattle.std.specs.Prelude.{◌≡◌, ◌↔◌, ◌≤◌, ℕ, List};
ghost use Rattle.sudo_words.specs.declared.cmnd.Cmnd.{Cmnd};
ghost use Rattle.sudo_policy.specs.declared.entry.Rule.{Rule};
ghost use Rattle.messages.specs.Fields.{RequestFields, VerdictFields};
ghost use Rattle.messages.specs.declared.request_name.RequestName.{RequestName};
ghost use Rattle.messages.specs.declared.message.Message.{Message};
ghost use Rattle.roster.specs.Agreement.{AgreeUntil};
ghost use Rattle.roster.specs.Fields.{CeilingFields, RosterFields};
ghost use Rattle.grants.specs.Admission.{Admits, IsDenial};
ghost use Rattle.grants.specs.GrantRules.{AreRules};
ghost use Rattle.grants.specs.Past.{AreMadeBy, made_at};
ghost use Rattle.grants.specs.Statuses.{InWindow, IsStatus};
ghost use Rattle.grants.specs.Verdicts.{counts, IsComplete};
ghost use Rattle.grants.specs.declared.denial.Denial.{Denial as AnyDenial};
ghost use Rattle.grants.specs.declared.outcome.Status.{Status};

/// A window is unbroken: each moment between two of its moments is one of them.
pub fn window_is_unbroken()
    ensures { (f : RosterFields Cmnd) (set : List Message)
        (q : RequestFields) (early moment late : ℕ) → InWindow f set q early
        → InWindow f set q late → early ≤ moment → moment ≤ late → InWindow f set q moment }
{}

/// The past is not rewritten. Two rosters that agree until a moment admit the same messages among
/// those made up to it, deny the others alike, and count the same verdicts; so a set of such
/// messages gives each name the same status and each request the same window, before that moment
/// and after it, whatever duties people hold later.
pub fn past_is_not_rewritten()
    ensures admits { (f g : RosterFields Cmnd) (moment : ℕ) (m : Message) →
        AgreeUntil moment f g → made_at m ≤ moment → Admits f m ↔ Admits g m }
    ensures denial { (f g : RosterFields Cmnd) (moment : ℕ) (m : Message) (d : AnyDenial) →
        AgreeUntil moment f g → made_at m ≤ moment → IsDenial f m d ↔ IsDenial g m d }
    ensures counts { (f g : RosterFields Cmnd) (moment : ℕ) (c : CeilingFields Cmnd)
        (v : VerdictFields) → AgreeUntil moment f g → v.at ≤ moment → counts f c v ≡ counts g c v }
    ensures complete { (f g : RosterFields Cmnd) (moment : ℕ) (set : List Message)
        (q : RequestFields) (at : ℕ) → AgreeUntil moment f g
        → AreMadeBy moment set → IsComplete f set q at ↔ IsComplete g set q at }
    ensures status { (f g : RosterFields Cmnd) (moment : ℕ) (set : List Message)
        (name : RequestName) (status : Status) → AgreeUntil moment f g
        → AreMadeBy moment set → IsStatus f set name status ↔ IsStatus g set name status }
    ensures window { (f g : RosterFields Cmnd) (moment : ℕ) (set : List Message)
        (q : RequestFields) (at : ℕ) → AgreeUntil moment f g
        → AreMadeBy moment set → InWindow f set q at ↔ InWindow g set q at }
    ensures rules { (f g : RosterFields Cmnd) (moment : ℕ) (set : List Message)
        (q : RequestFields) (host : List ℕ) (rules : List Rule) → AgreeUntil moment f g
        → AreMadeBy moment set → AreRules f set q host rules ↔ AreRules g set q host rules }
{}
