//! What the rows of a desk's tables say.

ghost use Rattle.std.specs.Prelude.{◌≡◌, List, ℕ, Some, IfOk, IfSome, IfNone, IsUtf8};
ghost use Rattle.std.specs.String.{string_bytes};
ghost use Rattle.sqlite.specs.declared.types.Value.TheVariants.{Text};
ghost use Rattle.sqlite.specs.Order.{column};
ghost use Rattle.messages.specs.Wire.{wire};
ghost use Rattle.store_tables.specs.Stored.{IsWritten};
ghost use Rattle.store_opening.specs.private.Reading.{IsForeign, IsKeepable, AreBodies};
ghost use Rattle.store_opening.specs.private.Reading.{HasForeign, body, shown_mark};

use crate::compare::is_number;
use crate::stored::Stored;
use messages::{Message, MessageFault, MessageReader};
use sqlite::Row;
use sqlite_value::value::ValueRef;
use std::alloc::Global;
use sudo_words::NoMemory;

/// The text in the column, if it is UTF-8.
pub(crate) fn text_at(alloc: Global, row: &Row, at: usize) -> Result<Option<String>, NoMemory>
    ensures text { IfOk result
        (λ found. IfSome found (λ s. column row.now at ≡ Text (string_bytes s))) }
    ensures none { IfOk result
        (λ found. IfNone found ((t : List ℕ) → column row.now at ≡ Text t → ¬ IsUtf8 t)) }
{
    let Ok(ValueRef::Text(bytes)) = row.get_ref(at) else {
        return Ok(None);
    };
    match std::str::from_utf8(bytes) {
        Ok(text) => Ok(Some(String::from_str(alloc, text)?)),
        Err(_) => Ok(None),
    }
}

/// The roster's text from the rows of `desk`, if there is exactly one, and it has the id 1 and this
/// schema.
pub(crate) fn roster_of(
    alloc: Global,
    rows: &[Row],
    version: u32,
) -> Result<Option<String>, NoMemory>
    ensures text { IfOk result
        (λ found. IfSome found (λ s. shown_mark version rows.now ≡ Some (string_bytes s))) }
    ensures none { IfOk result
        (λ found. IfNone found ((t : List ℕ) → shown_mark version rows.now ≡ Some t → ¬ IsUtf8 t)) }
{
    match rows {
        [row] if is_number(row, 0, 1) && is_number(row, 1, version) => text_at(alloc, row, 2),
        _ => Ok(None),
    }
}

/// The message whose text the bytes are.
fn message_of(
    alloc: Global,
    reader: &mut MessageReader,
    bytes: &[u8],
) -> Result<Option<Message>, NoMemory>
    ensures message { IfOk result
        (λ found. IfSome found (λ m. (bytes.now ≡ wire m) × IsKeepable m)) }
    ensures none { IfOk result (λ found. IfNone found (¬ IsWritten bytes.now)) }
{
    match reader.read(alloc, bytes) {
        Ok(message) => Ok(Some(message)),
        Err(MessageFault::NoMemory) => Err(NoMemory),
        Err(_) => Ok(None),
    }
}

/// The message whose text the row shows.
pub(crate) fn message_in(
    alloc: Global,
    reader: &mut MessageReader,
    row: &Row,
) -> Result<Option<Message>, NoMemory>
    ensures message { IfOk result
        (λ found. IfSome found (λ m. (column row.now 0 ≡ body m) × IsKeepable m)) }
    ensures none { IfOk result (λ found. IfNone found (IsForeign (column row.now 0))) }
{
    let Ok(ValueRef::Text(bytes)) = row.get_ref(0) else {
        return Ok(None);
    };
    message_of(alloc, reader, bytes)
}

/// The message whose text the row shows, with a copy of this text, not one written anew.
#[tactic(auto, using(crate::proofs::ReadingLemmas::written_utf8))]
fn stored_in(
    alloc: Global,
    reader: &mut MessageReader,
    row: &Row,
) -> Result<Option<Stored>, NoMemory>
    ensures message { IfOk result
        (λ found. IfSome found (λ m. (column row.now 0 ≡ body m) × IsKeepable m)) }
    ensures none { IfOk result (λ found. IfNone found (IsForeign (column row.now 0))) }
{
    let Some(body) = text_at(alloc, row, 0)? else {
        return Ok(None);
    };
    let Some(message) = message_of(alloc, reader, body.as_bytes())? else {
        return Ok(None);
    };
    Ok(Some(Stored::new(body, message)))
}

/// The messages whose texts the rows show, if they show nothing else. Each row is freed once its
/// message is read: so the texts are not in memory twice.
pub(crate) fn all_stored(alloc: Global, rows: Vec<Row>) -> Result<Option<Vec<Stored>>, NoMemory>
    ensures all { IfOk result (λ found. IfSome found (λ ms. AreBodies rows.items ms.items)) }
    ensures none { IfOk result (λ found. IfNone found (HasForeign rows.items)) }
{
    let mut reader = MessageReader::new(alloc);
    let mut all = Vec::with_capacity(alloc, rows.len())?;
    for row in rows {
        let Some(one) = stored_in(alloc, &mut reader, &row)? else {
            return Ok(None);
        };
        all.push(one)?;
    }
    Ok(Some(all))
}
