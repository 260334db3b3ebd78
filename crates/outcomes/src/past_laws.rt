//! The law of what was granted in the past, the contract of a function that does nothing.

ghost use Rattle.std.specs.Prelude.{ℕ, List};
ghost use Rattle.sudo_words.specs.declared.cmnd.Cmnd.{Cmnd};
ghost use Rattle.messages.specs.declared.message.Message.{Message};
ghost use Rattle.roster.specs.Agreement.{AgreeUntil};
ghost use Rattle.roster.specs.Fields.{RosterFields};
ghost use Rattle.grants.specs.Past.{AreMadeBy};
ghost use Rattle.outcomes.specs.Alike.{GrantAlike};

/// The past is not rewritten. Two rosters that agree until a moment grant the same from messages
/// that were made up to it, before that moment and after it: a duty that ends, or begins, later
/// changes no status, no grant and no host's file. (Which verdicts are parked does not depend on
/// the roster.)
pub fn past_grants_stay()
    ensures { (f g : RosterFields Cmnd) (moment : ℕ) (set : List Message) →
        AgreeUntil moment f g → AreMadeBy moment set → GrantAlike f g set }
{}
