//! What is told of one name: from the name's messages alone, where these are known without reading
//! all messages.

ghost use Rattle.std.specs.Prelude.{◌≡◌, List, IfOk, IfErr, filter};
ghost use Rattle.messages.specs.declared.message.Message.{Message as AnyMessage};
ghost use Rattle.desk_store.specs.Sets.{Lists};
ghost use Rattle.desk.specs.Refusals.{IsWant};
ghost use Rattle.desk.specs.Serving.{OnlyAsks};
ghost use Rattle.desk_audit.specs.Documents.{AreOfName, is_named};

use crate::entry::{audit, entries_of};
use crate::gathering::gather;
use desk::{Desk, Keeper, Refusal};
use findings::AuditEntry;

/// Whether the entry is that of the asker's request under the number.
fn is_named(entry: &AuditEntry, asker: &str, no: u32) -> bool
    ensures { result ≡ is_named asker.now no entry.now }
{
    entry.name.by.as_str() == asker && entry.name.no == no
}

/// The entries that are those of the asker's request under the number.
fn named_among(entries: Vec<AuditEntry>, asker: &str, no: u32) -> Vec<AuditEntry>
    ensures { result.items ≡ filter (is_named asker.now no) entries.items }
{
    let mut entries = entries;
    entries.retain(|entry| is_named(entry, asker, no));
    entries
}

/// The name's entry, made from all messages, or none where no message is about the name.
fn entries_in_audit<K: Keeper>(
    desk: &mut Desk<K>,
    asker: &str,
    no: u32,
) -> Result<Vec<AuditEntry>, Refusal>
    ensures of_name { (set : List AnyMessage) → K.is_up desk.new.keeper
        → Lists (K.holds desk.old.keeper) set
        → IfOk result (λ entries. AreOfName desk.old.roster.says set
        (record { by = asker.now; no = no }) entries.items) }
    ensures err { IfErr result IsWant }
    ensures asks { OnlyAsks K.Keeper desk.old desk.new result }
{
    Ok(named_among(audit(desk)?, asker, no))
}

/// The name's entry, or none where no message is about the name. The call reads the name's messages
/// alone, unless different requests have the name.
pub(crate) fn entries_about<K: Keeper>(
    desk: &mut Desk<K>,
    asker: &str,
    no: u32,
) -> Result<Vec<AuditEntry>, Refusal>
    ensures of_name { (set : List AnyMessage) → K.is_up desk.new.keeper
        → Lists (K.holds desk.old.keeper) set
        → IfOk result (λ entries. AreOfName desk.old.roster.says set
        (record { by = asker.now; no = no }) entries.items) }
    ensures err { IfErr result IsWant }
    ensures asks { OnlyAsks K.Keeper desk.old desk.new result }
{
    let told = desk.messages_about(asker, no)?;
    match told {
        Some(list) => {
            let alloc = *list.allocator();
            let all = gather(alloc, list)?;
            entries_of(alloc, desk, all)
        }
        None => entries_in_audit(desk, asker, no),
    }
}
