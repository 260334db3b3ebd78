//! A law of what a desk answers, the contract of a function that does nothing.

ghost use Rattle.std.specs.Prelude.{◌≡◌, ℕ, List, Option, length};
ghost use Rattle.sudo_words.specs.declared.cmnd.Cmnd.{Cmnd as AnyCmnd};
ghost use Rattle.sudo_policy.specs.declared.entry.Entry.{Entry};
ghost use Rattle.messages.specs.declared.request_name.RequestName.{RequestName as AnyName};
ghost use Rattle.messages.specs.declared.message.Message.{Message as AnyMessage};
ghost use Rattle.roster.specs.Fields.{RosterFields};
ghost use Rattle.grants.specs.Summaries.{Kept};
ghost use Rattle.grants.specs.declared.outcome.Status.{Status as AnyStatus};
ghost use Rattle.outcomes.specs.HostFile.{Line, AreLines, IsHostFile, IsHostFileAfter, lines_after};
ghost use Rattle.outcomes.specs.Outcomes.{AreLive, ComesTo, LiveGrant};
ghost use Rattle.outcomes.specs.Parked.{AreParked};
ghost use Rattle.outcomes.specs.Summaries.{AllKeepTheSame, AreSummaries};
ghost use Rattle.desk.specs.Runs.{Event, IsRun, SameAcked};
ghost use Rattle.desk.specs.Texts.{AreTexts};

/// After two runs that begin with the same messages and acknowledge the same, every question is
/// answered alike: each name's status, the grants of each moment, what is parked, the summaries
/// (but for which request a disputed one keeps), each host's file, whole and after each moment, and
/// how many lines it has, so also whether these are too many. The texts of all messages are the
/// same too.
pub fn runs_answer_alike()
    ensures status { (f : RosterFields AnyCmnd) (old s t : List AnyMessage) (r u : List Event)
        → SameAcked r u → IsRun f old r s → IsRun f old u t
        → (name : AnyName) (a b : Option AnyStatus)
        → ComesTo f s name a → ComesTo f t name b → a ≡ b }
    ensures live { (f : RosterFields AnyCmnd) (old s t : List AnyMessage) (r u : List Event)
        → SameAcked r u → IsRun f old r s → IsRun f old u t → (moment : ℕ) (a b : List LiveGrant)
        → AreLive f s moment a → AreLive f t moment b → a ≡ b }
    ensures parked { (f : RosterFields AnyCmnd) (old s t : List AnyMessage) (r u : List Event)
        → SameAcked r u → IsRun f old r s → IsRun f old u t
        → (a b : List (List ℕ)) → AreParked s a → AreParked t b → a ≡ b }
    ensures summaries { (f : RosterFields AnyCmnd) (old s t : List AnyMessage) (r u : List Event)
        → SameAcked r u → IsRun f old r s → IsRun f old u t → (a b : List Kept)
        → AreSummaries s a → AreSummaries t b → AllKeepTheSame a b }
    ensures file { (f : RosterFields AnyCmnd) (old s t : List AnyMessage) (r u : List Event)
        → SameAcked r u → IsRun f old r s → IsRun f old u t → (base : List Entry)
        (host a b : List ℕ) → IsHostFile f base s host a → IsHostFile f base t host b → a ≡ b }
    ensures count { (f : RosterFields AnyCmnd) (old s t : List AnyMessage) (r u : List Event)
        → SameAcked r u → IsRun f old r s → IsRun f old u t → (host : List ℕ) (a b : List Line)
        → AreLines f s host a → AreLines f t host b → length a ≡ length b }
    ensures file_after { (f : RosterFields AnyCmnd) (old s t : List AnyMessage) (r u : List Event)
        → SameAcked r u → IsRun f old r s → IsRun f old u t
        → (base : List Entry) (host : List ℕ) (moment : ℕ) (a b : List ℕ)
        → IsHostFileAfter f base s host moment a → IsHostFileAfter f base t host moment b → a ≡ b }
    ensures count_after { (f : RosterFields AnyCmnd) (old s t : List AnyMessage) (r u : List Event)
        → SameAcked r u → IsRun f old r s → IsRun f old u t
        → (host : List ℕ) (moment : ℕ) (a b : List Line) → AreLines f s host a
        → AreLines f t host b → length (lines_after moment a) ≡ length (lines_after moment b) }
    ensures texts { (f : RosterFields AnyCmnd) (old s t : List AnyMessage) (r u : List Event)
        → SameAcked r u → IsRun f old r s → IsRun f old u t
        → (a b : List (List ℕ)) → AreTexts s a → AreTexts t b → a ≡ b }
{}
