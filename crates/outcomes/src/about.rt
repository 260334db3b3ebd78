//! The messages about a name.

ghost use Rattle.std.specs.Prelude.{◌≡◌, ◌++◌, List, Contains, map};
ghost use Rattle.std.specs.Prelude.{IfOk, OnOk};
ghost use Rattle.messages.specs.Names.{name_of};
ghost use Rattle.messages.specs.Wire.{IsMessage};
ghost use Rattle.messages.specs.declared.message.Message.{Message as AnyMessage};
ghost use Rattle.messages.specs.declared.message.Message.TheVariants as message_of;
ghost use Rattle.grants.specs.Summaries.{StandsFor};
ghost use Rattle.outcomes.specs.About.{AreTold};
ghost use Rattle.outcomes.specs.Gathered.{AreGathered};

use crate::gathering::{Gathered, waited};
use grants::Summary;
use messages::{Message, RequestName, Verdict};
use std::alloc::Global;
use sudo_words::{NoMemory, Word, WordFault};

/// Adds copies of the verdicts.
fn push_copies(list: &mut Vec<Message>, verdicts: &[Verdict]) -> Result<(), NoMemory>
    ensures { OnOk result
        (list.new.items ≡ list.old.items ++ map (λ v. message_of.Verdict v) verdicts.now) }
{
    for verdict in verdicts {
        list.push(Message::Verdict(verdict.clone()?))?;
    }
    Ok(())
}

/// The messages about the name of a summary, unless the name is disputed: a summary keeps only one
/// request of a disputed name.
fn messages_of(alloc: Global, summary: &Summary) -> Result<Option<Vec<Message>>, NoMemory>
    ensures { (set : List AnyMessage) → StandsFor set summary.now
        → IfOk result (AreTold set (name_of summary.now.request)) }
{
    let Some(request) = summary.request() else {
        return Ok(None);
    };
    let mut list = Vec::new(alloc);
    list.push(Message::Request(request.clone()?))?;
    push_copies(&mut list, &summary.verdicts()?)?;
    Ok(Some(list))
}

/// The messages about the name, unless it is disputed.
fn messages_at(
    alloc: Global,
    gathered: &Gathered,
    name: &RequestName,
) -> Result<Option<Vec<Message>>, NoMemory>
    ensures { (set : List AnyMessage) → AreGathered set gathered.now
        → IfOk result (AreTold set name.now) }
{
    match gathered.summaries.get(name) {
        Some(summary) => messages_of(alloc, summary),
        None => {
            let mut list = Vec::new(alloc);
            push_copies(&mut list, waited(&gathered.waiting, name))?;
            Ok(Some(list))
        }
    }
}

/// The messages of the set about the asker's request under the number: the request and the verdicts
/// on it, or the verdicts that wait for it. `None` exactly if different requests have the name:
/// only one of them is kept, so that the caller has to read all messages.
///
/// The cost grows with the name's messages, and with the logarithm of the number of names.
pub fn messages_in(
    alloc: Global,
    gathered: &Gathered,
    asker: &str,
    no: u32,
) -> Result<Option<Vec<Message>>, NoMemory>
    ensures { (set : List AnyMessage) → AreGathered set gathered.now
        → ((m : AnyMessage) → Contains set m → IsMessage m)
        → IfOk result (AreTold set (record { by = asker.now; no = no })) }
{
    match Word::read(alloc, asker) {
        Ok(by) => messages_at(alloc, gathered, &RequestName { by, no }),
        // Nobody has such a name.
        Err(WordFault::BadWord) => Ok(Some(Vec::new(alloc))),
        Err(WordFault::NoMemory) => Err(NoMemory),
    }
}
