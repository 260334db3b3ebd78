//! What single columns of a desk's rows say, as values. A value that no desk writes is a failure.

ghost use Rattle.std.specs.Prelude.{◌≡◌, if◌then◌else◌, Bool, List, ℕ, Ok, MatchResult, true, pos};
ghost use Rattle.sqlite.specs.declared.types.Value.TheVariants.{Int, Text};
ghost use Rattle.sqlite.specs.Order.{column};
ghost use Rattle.sudo_words.specs.Moment.{IsMoment};
ghost use Rattle.sudo_words.specs.Word.{is_name};
ghost use Rattle.messages.specs.Fields.{IsNumbered};
ghost use Rattle.messages.specs.Wire.{kind_text};
ghost use Rattle.messages.specs.declared.kind.VerdictKind.{VerdictKind as AnyKind};
ghost use Rattle.messages.specs.declared.message.Message.{Message as AnyMessage};
ghost use Rattle.store_opening.specs.private.Reading.{IsKeepable, body};
ghost use Rattle.store_opening.specs.private.Showing.{IsNoStray};

use crate::compare::is_number;
use crate::reading::text_at;
use messages::{Message, MessageFault, MessageReader, VerdictKind};
use sqlite::Row;
use sqlite_value::value::ValueRef;
use std::alloc::Global;
use store_tables::Fault;
use sudo_words::{Moment, Name};

/// The name in the column.
pub(crate) fn name_at(alloc: Global, row: &Row, at: usize) -> Result<Name, Fault>
    ensures { (name : List ℕ) → is_name name ≡ true → column row.now at ≡ Text name
        → MatchResult result (λ found. found ≡ name) IsNoStray }
{
    let Some(text) = text_at(alloc, row, at)? else {
        return Err(Fault::Stray);
    };
    match Name::from_string(text) {
        Ok(name) => Ok(name),
        Err(_) => Err(Fault::Stray),
    }
}

/// The number of a request in the column.
pub(crate) fn number_at(row: &Row, at: usize) -> Result<u32, Fault>
    ensures { (number : ℕ) → IsNumbered number
        → column row.now at ≡ Int (pos number) → result ≡ Ok number }
{
    let Ok(ValueRef::Int(number)) = row.get_ref(at) else {
        return Err(Fault::Stray);
    };
    match u32::try_from(number) {
        Ok(number) => Ok(number),
        Err(_) => Err(Fault::Stray),
    }
}

/// The moment in the column.
pub(crate) fn moment_at(row: &Row, at: usize) -> Result<Moment, Fault>
    ensures { (moment : ℕ) → IsMoment moment
        → column row.now at ≡ Int (pos moment) → result ≡ Ok moment }
{
    let Ok(ValueRef::Int(secs)) = row.get_ref(at) else {
        return Err(Fault::Stray);
    };
    let Ok(secs) = u64::try_from(secs) else {
        return Err(Fault::Stray);
    };
    match Moment::from_secs(secs) {
        Some(moment) => Ok(moment),
        None => Err(Fault::Stray),
    }
}

/// The kind of verdict in the column.
pub(crate) fn kind_at(row: &Row, at: usize) -> Result<VerdictKind, Fault>
    ensures { (kind : AnyKind) → column row.now at ≡ Text (kind_text kind) → result ≡ Ok kind }
{
    let Ok(ValueRef::Text(bytes)) = row.get_ref(at) else {
        return Err(Fault::Stray);
    };
    VerdictKind::of_word(bytes).ok_or(Fault::Stray)
}

/// Whether the column says yes, by a 1, or no, by a 0.
pub(crate) fn flag_at(row: &Row, at: usize) -> Result<bool, Fault>
    ensures { (flag : Bool) → column row.now at ≡ Int (if flag then pos 1 else pos 0)
        → result ≡ Ok flag }
{
    if is_number(row, at, 1) {
        return Ok(true);
    }
    if is_number(row, at, 0) {
        return Ok(false);
    }
    Err(Fault::Stray)
}

/// The message whose text is in the column.
pub(crate) fn message_at(
    alloc: Global,
    reader: &mut MessageReader,
    row: &Row,
    at: usize,
) -> Result<Message, Fault>
    ensures { (m : AnyMessage) → IsKeepable m → column row.now at ≡ body m
        → MatchResult result (λ found. found ≡ m) IsNoStray }
{
    let Ok(ValueRef::Text(bytes)) = row.get_ref(at) else {
        return Err(Fault::Stray);
    };
    match reader.read(alloc, bytes) {
        Ok(message) => Ok(message),
        Err(MessageFault::NoMemory) => Err(Fault::NoMemory),
        Err(_) => Err(Fault::Stray),
    }
}
