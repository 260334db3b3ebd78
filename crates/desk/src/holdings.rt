//! What a desk holds: requests with the verdicts on them, and verdicts that wait for theirs.

ghost use Rattle.std.specs.Prelude.{List, Contains, IfOk, map, string_bytes};
ghost use Rattle.messages.specs.Wire.{IsMessage};
ghost use Rattle.messages.specs.declared.message.Message.{Message as AnyMessage};
ghost use Rattle.outcomes.specs.Gathered.{AreGathered};
ghost use Rattle.outcomes.specs.Parked.{AreParked};
ghost use Rattle.outcomes.specs.Summaries.{AreSummaries};
ghost use Rattle.suspects.specs.LookedAt.{AreReviewed};
ghost use Rattle.desk.specs.private.Known.{IsKnownIn};

use crate::loading::Known;
use grants::Summary;
use outcomes::{Gathered, parked_in, summaries_in};
use roster::Roster;
use std::alloc::Global;
use sudo_words::{Moment, NoMemory};
use suspects::{reviewed_in, suspects_among};

/// What a desk holds, name by name.
#[derive(Debug, Drop)]
pub struct Holdings {
    /// The summary of each name that somebody asks under, by the asker in byte order, then by the
    /// number.
    pub summaries: Vec<Summary>,
    /// The texts of the verdicts that wait for their request, each once, in byte order.
    pub parked: Vec<String>,
}

/// What a desk holds, from what is known of its set of messages.
pub(crate) fn holdings_in(alloc: Global, gathered: &Gathered) -> Result<Holdings, NoMemory>
    ensures summaries { (set : List AnyMessage) → AreGathered set gathered.now
        → IfOk result (λ held. AreSummaries set held.summaries.items) }
    ensures parked { (set : List AnyMessage) → AreGathered set gathered.now
        → IfOk result (λ held. AreParked set (map string_bytes held.parked.items)) }
{
    let summaries = summaries_in(alloc, gathered)?;
    let parked = parked_in(alloc, gathered)?;
    Ok(Holdings { summaries, parked })
}

/// What a report at the moment looks at, from what is known of a set of messages; from then on the
/// suspects are known too.
pub(crate) fn holdings_at(
    alloc: Global,
    roster: &Roster,
    known: &mut Known,
    at: Moment,
) -> Result<Holdings, NoMemory>
    ensures known { (set : List AnyMessage) → ((m : AnyMessage) → Contains set m → IsMessage m)
        → IsKnownIn roster.now.says set known.old → IsKnownIn roster.now.says set known.new }
    ensures reviewed { (set : List AnyMessage) → ((m : AnyMessage) → Contains set m → IsMessage m)
        → IsKnownIn roster.now.says set known.old
        → IfOk result (λ held. AreReviewed roster.now.says set at held.summaries.items) }
    ensures parked { (set : List AnyMessage) → IsKnownIn roster.now.says set known.old
        → IfOk result (λ held. AreParked set (map string_bytes held.parked.items)) }
{
    let summaries = reviewed_in(alloc, roster, &known.gathered, &known.suspects, at)?;
    let suspects = suspects_among(alloc, roster, &summaries)?;
    known.suspects = Some(suspects);
    let parked = parked_in(alloc, &known.gathered)?;
    Ok(Holdings { summaries, parked })
}
