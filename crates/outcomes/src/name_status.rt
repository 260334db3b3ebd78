//! What a name comes to.

ghost use Rattle.std.specs.Prelude.{List};
ghost use Rattle.messages.specs.declared.message.Message.{Message as AnyMessage};
ghost use Rattle.outcomes.specs.Gathered.{AreGathered};
ghost use Rattle.outcomes.specs.Outcomes.{ComesTo};

use crate::gathering::Gathered;
use grants::{Status, status};
use messages::RequestName;
use roster::Roster;

/// The name's status, or none if the set has no request of the name. It takes no memory.
pub fn status_in(roster: &Roster, gathered: &Gathered, name: &RequestName) -> Option<Status>
    ensures { (set : List AnyMessage) → AreGathered set gathered.now
        → ComesTo roster.now.says set name.now result }
{
    match gathered.summaries.get(name) {
        Some(summary) => Some(status(roster, summary)),
        None => None,
    }
}
