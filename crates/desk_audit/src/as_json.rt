//! What an audit tells of a desk, as one JSON document.

ghost use Rattle.std.specs.Prelude.{List, IfOk, IfErr, string_bytes};
ghost use Rattle.messages.specs.declared.message.Message.{Message as AnyMessage};
ghost use Rattle.desk_store.specs.Sets.{Lists};
ghost use Rattle.desk.specs.Refusals.{IsWant};
ghost use Rattle.desk.specs.Serving.{OnlyAsks};
ghost use Rattle.desk_audit.specs.Documents.{IsAuditText, IsNameText, IsOpenText};

use crate::entry::audit;
use crate::one_name::entries_about;
use desk::{Desk, Keeper, Refusal};
use findings::{Pick, json, open_among};
use sudo_words::Moment;

/// What is told of the names that are asked about, as one JSON document and a newline: what
/// `desk-audit` prints.
///
/// Errors: `Storage` and `NoMemory`, as for every question to a desk.
pub fn document<K: Keeper>(desk: &mut Desk<K>, pick: &Pick) -> Result<String, Refusal>
    ensures document { (set : List AnyMessage) → K.is_up desk.new.keeper
        → Lists (K.holds desk.old.keeper) set → IfOk result
        (λ s. IsAuditText desk.old.roster.says set pick.now (string_bytes s)) }
    ensures err { IfErr result IsWant }
    ensures asks { OnlyAsks K.Keeper desk.old desk.new result }
{
    let entries = pick.among(audit(desk)?);
    let alloc = *entries.allocator();
    Ok(json(alloc, desk.roster(), pick, &entries)?)
}

/// What is told of the asker's request under the number, as one JSON document and a newline. Where
/// no message is about it, the document tells of no name.
///
/// Errors: `Storage` and `NoMemory`, as for every question to a desk.
pub fn document_of<K: Keeper>(desk: &mut Desk<K>, asker: &str, no: u32) -> Result<String, Refusal>
    ensures document { (set : List AnyMessage) → K.is_up desk.new.keeper
        → Lists (K.holds desk.old.keeper) set → IfOk result
        (λ s. IsNameText desk.old.roster.says set
        (record { by = asker.now; no = no }) (string_bytes s)) }
    ensures err { IfErr result IsWant }
    ensures asks { OnlyAsks K.Keeper desk.old desk.new result }
{
    let entries = entries_about(desk, asker, no)?;
    let alloc = *entries.allocator();
    Ok(json(alloc, desk.roster(), &Pick::all(), &entries)?)
}

/// What is told of the requests that do not end before the moment, as one JSON document and a
/// newline: it says of each that waits who may approve it at the moment.
///
/// Errors: `Storage` and `NoMemory`, as for every question to a desk.
pub fn open_document<K: Keeper>(desk: &mut Desk<K>, at: Moment) -> Result<String, Refusal>
    ensures document { (set : List AnyMessage) → K.is_up desk.new.keeper
        → Lists (K.holds desk.old.keeper) set → IfOk result
        (λ s. IsOpenText desk.old.roster.says set at (string_bytes s)) }
    ensures err { IfErr result IsWant }
    ensures asks { OnlyAsks K.Keeper desk.old desk.new result }
{
    let entries = open_among(audit(desk)?, at);
    let alloc = *entries.allocator();
    Ok(json(alloc, desk.roster(), &Pick::told_at(at), &entries)?)
}
