//! The summaries that a report looks at.

ghost use Rattle.std.specs.Prelude.{List, Contains, IfOk};
ghost use Rattle.messages.specs.Wire.{IsMessage};
ghost use Rattle.messages.specs.declared.message.Message.{Message as AnyMessage};
ghost use Rattle.outcomes.specs.Gathered.{AreGathered};
ghost use Rattle.suspects.specs.LookedAt.{AreKnownSuspects, AreReviewed, AreSuspects};
ghost use Rattle.suspects.specs.private.Parts.{AreWritable};

use crate::part::{add_grants, add_names};
use grants::Summary;
use messages::RequestName;
use outcomes::{Gathered, live_in, summaries_in};
use roster::Roster;
use std::alloc::Global;
use std::collections::BTreeSet;
use sudo_words::{Moment, NoMemory};

/// The summaries of the suspects and of the requests whose grants are in force at the moment.
fn reviewed_beside(
    alloc: Global,
    roster: &Roster,
    gathered: &Gathered,
    suspects: &BTreeSet<RequestName>,
    at: Moment,
) -> Result<Vec<Summary>, NoMemory>
    ensures { (set : List AnyMessage) → AreWritable set gathered.now
        → AreSuspects roster.now.says set suspects.now.keys
        → IfOk result (λ list. AreReviewed roster.now.says set at list.items) }
{
    let live = live_in(alloc, roster, gathered, at)?;
    let mut part = Gathered::new(alloc);
    add_names(alloc, &mut part, gathered, suspects)?;
    add_grants(alloc, &mut part, gathered, &live)?;
    summaries_in(alloc, &part)
}

/// The summaries that a report at the moment looks at, by the asker in byte order, then by the
/// number: those of the suspects and of the requests whose grants are in force then. Where the
/// suspects are not known, these are the summaries of all names. The cost is that of the messages
/// about these names, and the logarithm of how many names there are.
pub fn reviewed_in(
    alloc: Global,
    roster: &Roster,
    gathered: &Gathered,
    suspects: &Option<BTreeSet<RequestName>>,
    at: Moment,
) -> Result<Vec<Summary>, NoMemory>
    ensures { (set : List AnyMessage) → AreGathered set gathered.now
        → ((m : AnyMessage) → Contains set m → IsMessage m)
        → AreKnownSuspects roster.now.says set suspects.now
        → IfOk result (λ list. AreReviewed roster.now.says set at list.items) }
{
    match suspects {
        Some(names) => reviewed_beside(alloc, roster, gathered, names, at),
        None => summaries_in(alloc, gathered),
    }
}
