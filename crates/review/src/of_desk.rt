//! The report of a desk.

ghost use Rattle.std.specs.Prelude.{List, IfOk, IfErr, string_bytes};
ghost use Rattle.messages.specs.declared.message.Message.{Message as AnyMessage};
ghost use Rattle.desk_store.specs.Sets.{Lists};
ghost use Rattle.desk.specs.Refusals.{IsWant};
ghost use Rattle.desk.specs.Serving.{OnlyAsks};
ghost use Rattle.review.specs.Report.{IsReport};

use crate::reporting::report_of;
use desk::{Desk, Holdings, Keeper, Refusal};
use sudo_words::Moment;

/// The report of what the desk holds, at the moment: which grants are in force and whether they are
/// needed beside the base, whose approvals did not count and why, who holds conflicting duties,
/// which grants are of ALL or of a directory, and which verdicts wait for their request (NIST SP
/// 800-53 AC-5, AC-6(7)).
///
/// Errors: `Storage` and `NoMemory`, as for every question to a desk.
pub fn report<K: Keeper>(desk: &mut Desk<K>, at: Moment) -> Result<String, Refusal>
    ensures report { (set : List AnyMessage) → K.is_up desk.new.keeper
        → Lists (K.holds desk.old.keeper) set
        → IfOk result (λ s. IsReport desk.old.roster.says desk.old.base set at (string_bytes s)) }
    ensures err { IfErr result IsWant }
    ensures asks { OnlyAsks K.Keeper desk.old desk.new result }
{
    let Holdings { summaries, parked } = desk.holdings_at(at)?;
    let alloc = *summaries.allocator();
    Ok(report_of(alloc, desk.roster(), desk.base(), &summaries, &parked, at)?)
}
