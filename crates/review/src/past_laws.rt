//! The law of reports of what was asked and answered in the past, the contract of a function that
//! does nothing.

ghost use Rattle.std.specs.Prelude.{◌↔◌, ◌≤◌, ℕ, List};
ghost use Rattle.std.specs.List.{flat_map};
ghost use Rattle.sudo_words.specs.declared.cmnd.Cmnd.{Cmnd};
ghost use Rattle.sudo_policy.specs.declared.entry.Entry.{Entry};
ghost use Rattle.messages.specs.declared.message.Message.{Message};
ghost use Rattle.roster.specs.Agreement.{AgreeUntil};
ghost use Rattle.roster.specs.Fields.{RosterFields};
ghost use Rattle.grants.specs.Past.{AreMadeBy};
ghost use Rattle.review.specs.Columns.{lines_text};
ghost use Rattle.review.specs.Report.{IsReport, conflicts_of, report_lines};

/// The past is not rewritten. Let two rosters agree until a moment, and each give a report of what
/// was asked and answered up to that moment. Whenever they are made, the two reports have the same
/// lines under LIVE, BARRED, BROAD and PARKED; under CONFLICTS each says who holds conflicting
/// duties by its own roster when it is made. So reports made by that moment are the same.
pub fn past_reports_stay()
    ensures lines { (f g : RosterFields Cmnd) (moment : ℕ) (base : List Entry)
        (set : List Message) (at : ℕ) (text : List ℕ) → AgreeUntil moment f g
        → AreMadeBy moment set → (r : IsReport f base set at text)
        → IsReport g base set at (lines_text (report_lines at r.live r.barred
        (flat_map (conflicts_of g at r.pairs) g.people) r.broad r.parked)) }
    ensures whole { (f g : RosterFields Cmnd) (moment : ℕ) (base : List Entry) (set : List Message)
        (at : ℕ) (text : List ℕ) → AgreeUntil moment f g → AreMadeBy moment set
        → at ≤ moment → IsReport f base set at text ↔ IsReport g base set at text }
{}
