//! The summaries of a set of messages, in the order of their names.

ghost use Rattle.std.specs.Prelude.{◌≡◌, List, IfOk};
ghost use Rattle.std.specs.BTreeMap.{values};
ghost use Rattle.messages.specs.declared.message.Message.{Message as AnyMessage};
ghost use Rattle.outcomes.specs.Gathered.{AreGathered};
ghost use Rattle.outcomes.specs.Summaries.{AreSummaries};

use crate::gathering::Gathered;
use grants::Summary;
use messages::RequestName;
use std::alloc::Global;
use std::collections::BTreeMap;
use sudo_words::NoMemory;

/// Copies of the summaries in the order of their names.
fn in_order(
    alloc: Global,
    summaries: &BTreeMap<RequestName, Summary>,
) -> Result<Vec<Summary>, NoMemory>
    ensures { IfOk result (λ list. list.items ≡ values summaries.now) }
{
    let mut list = Vec::new(alloc);
    for summary in summaries.values() {
        list.push(summary.clone()?)?;
    }
    Ok(list)
}

/// The summaries of the set, by the asker in byte order, then by the number.
pub fn summaries_in(alloc: Global, gathered: &Gathered) -> Result<Vec<Summary>, NoMemory>
    ensures { (set : List AnyMessage) → AreGathered set gathered.now
        → IfOk result (λ list. AreSummaries set list.items) }
{
    in_order(alloc, &gathered.summaries)
}
