//! What the audit tells about each name.

ghost use Rattle.std.specs.Prelude.{◌≡◌, List, IfOk, IfErr};
ghost use Rattle.messages.specs.declared.message.Message.{Message as AnyMessage};
ghost use Rattle.desk_store.specs.Sets.{Lists};
ghost use Rattle.outcomes.specs.Outcomes.{ComesTo};
ghost use Rattle.desk.specs.Refusals.{IsWant};
ghost use Rattle.desk.specs.Serving.{OnlyAsks};
ghost use Rattle.desk_audit.specs.Audit.{IsAudit};
ghost use Rattle.desk_audit.specs.private.ByName.{Gathers};
ghost use Rattle.desk_audit.specs.private.Entries.{AreEntriesOf};

use crate::gathering::{ByName, gather};
use desk::{Desk, Keeper, Refusal};
use findings::{About, AuditEntry};
use messages::RequestName;
use std::alloc::Global;

/// The entry of a name.
fn entry_of<K: Keeper>(
    desk: &mut Desk<K>,
    name: RequestName,
    about: About,
) -> Result<AuditEntry, Refusal>
    ensures status { (set : List AnyMessage) → K.is_up desk.new.keeper
        → Lists (K.holds desk.old.keeper) set
        → IfOk result (λ entry. ComesTo desk.old.roster.says set name entry.status) }
    ensures same { IfOk result (λ entry. (entry.name ≡ name) × (entry.about ≡ about)) }
    ensures err { IfErr result IsWant }
    ensures asks { OnlyAsks K.Keeper desk.old desk.new result }
{
    let status = desk.status_of(&name)?;
    Ok(AuditEntry {
        name,
        about,
        status,
    })
}

/// The entries of these names, in their order.
pub(crate) fn entries_of<K: Keeper>(
    alloc: Global,
    desk: &mut Desk<K>,
    all: ByName,
) -> Result<Vec<AuditEntry>, Refusal>
    ensures told { (set list : List AnyMessage) → K.is_up desk.new.keeper
        → K.is_desk desk.old.keeper → Lists (K.holds desk.old.keeper) set → Gathers list all
        → IfOk result (λ entries. AreEntriesOf desk.old.roster.says set list entries.items) }
    ensures err { IfErr result IsWant }
    // Without a name the keeper is not asked, and so the keeper is up only if it was up before.
    ensures asks { (K.is_clean desk.old.keeper → K.is_up desk.old.keeper)
        → OnlyAsks K.Keeper desk.old desk.new result }
{
    let mut entries = Vec::new(alloc);
    for (name, about) in all {
        let entry = entry_of(desk, name, about)?;
        entries.push(entry)?;
    }
    Ok(entries)
}

/// The entries of all names that somebody asks under or that a verdict is about, in the order of
/// names, each once and with all its messages.
///
/// Each status is what the messages about the name come to. The audit is refused only for want of
/// memory or of storage. Nothing in the desk changes.
pub fn audit<K: Keeper>(desk: &mut Desk<K>) -> Result<Vec<AuditEntry>, Refusal>
    ensures audit { (set : List AnyMessage) → K.is_up desk.new.keeper
        → Lists (K.holds desk.old.keeper) set
        → IfOk result (λ entries. IsAudit desk.old.roster.says set entries.items) }
    ensures err { IfErr result IsWant }
    ensures asks { OnlyAsks K.Keeper desk.old desk.new result }
{
    let list = desk.messages()?;
    let alloc = *list.allocator();
    let all = gather(alloc, list)?;
    entries_of(alloc, desk, all)
}
