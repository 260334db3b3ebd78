//! The members of a message's tree.

ghost use Rattle.std.specs.Prelude.{◌≡◌, ◌⊎◌, List, ℕ, Some, Ok, true, codes, decimal};
ghost use Rattle.std.specs.Prelude.{IfOk, IfErr, IsOkAnd, MatchResult};
ghost use Rattle.json.specs.Json.{string, number, array};
ghost use Rattle.json.specs.Find.{get};
ghost use Rattle.json.specs.Value.{value_view, items_view};
ghost use Rattle.sudo_words.specs.Moment.{IsMoment};
ghost use Rattle.messages.specs.Wire.{moment_text};
ghost use Rattle.messages.specs.Fields.{IsNumbered};
ghost use Rattle.messages.specs.private.Members.{text_items};
ghost use Rattle.messages.specs.declared.fault.MessageFault.TheVariants.{BadField, NoMemory};

use crate::fault::MessageFault;
use json::Value;
use std::alloc::Global;
use sudo_words::{Form, Moment, Word, WordFault};

/// The highest number of a request.
const LAST_NUMBER: u64 = 999_999_999;

/// The text of a value that is a string; else `BadField`.
pub(crate) fn text_of<'a>(value: &Value<'a>) -> Result<&'a str, MessageFault>
    ensures found { IfOk result (λ s. value_view value.now ≡ string s.now) }
    ensures only { (w : List ℕ) → value_view value.now ≡ string w
        → IsOkAnd result (λ s. s.now ≡ w) }
    ensures err { IfErr result (λ e. e ≡ BadField) }
{
    value.as_str().ok_or(MessageFault::BadField)
}

/// The text of a member.
pub(crate) fn text_member<'a>(value: &Value<'a>, name: &str) -> Result<&'a str, MessageFault>
    ensures only { (w : List ℕ) → get name.now (value_view value.now) ≡ Some (string w)
        → IsOkAnd result (λ s. s.now ≡ w) }
    ensures err { IfErr result (λ e. e ≡ BadField) }
{
    match value.get(name) {
        Some(member) => text_of(member),
        None => Err(MessageFault::BadField),
    }
}

/// The text, read as a word.
pub(crate) fn word_of<F: Form>(alloc: Global, text: &str) -> Result<Word<F>, MessageFault>
    ensures found { IfOk result (λ v. (v ≡ text.now) × (F.has v ≡ true)) }
    ensures only { F.has text.now ≡ true
        → MatchResult result (λ v. v ≡ text.now) (λ e. e ≡ NoMemory) }
    ensures err { IfErr result (λ e. (e ≡ BadField) ⊎ (e ≡ NoMemory)) }
{
    match Word::read(alloc, text) {
        Ok(word) => Ok(word),
        Err(WordFault::BadWord) => Err(MessageFault::BadField),
        Err(WordFault::NoMemory) => Err(MessageFault::NoMemory),
    }
}

/// The word of a member.
pub(crate) fn word_member<F: Form>(
    alloc: Global,
    value: &Value<'_>,
    name: &str,
) -> Result<Word<F>, MessageFault>
    ensures found { IfOk result (λ v. F.has v ≡ true) }
    ensures only { (w : List ℕ) → F.has w ≡ true
        → get name.now (value_view value.now) ≡ Some (string w)
        → MatchResult result (λ v. v ≡ w) (λ e. e ≡ NoMemory) }
    ensures err { IfErr result (λ e. (e ≡ BadField) ⊎ (e ≡ NoMemory)) }
{
    word_of(alloc, text_member(value, name)?)
}

/// The moment of a member that is a moment's canonical text.
#[tactic(auto, using(crate::proofs::PlainTexts::moment_stamped))]
pub(crate) fn moment_member(value: &Value<'_>, name: &str) -> Result<Moment, MessageFault>
    ensures found { IfOk result IsMoment }
    ensures only { (t : ℕ) → IsMoment t
        → get name.now (value_view value.now) ≡ Some (string (moment_text t)) → result ≡ Ok t }
    ensures err { IfErr result (λ e. e ≡ BadField) }
{
    Moment::read_stamp(text_member(value, name)?).ok_or(MessageFault::BadField)
}

/// The value, read as the number of a request.
fn number_of(value: &Value<'_>) -> Result<u32, MessageFault>
    ensures found { IfOk result IsNumbered }
    ensures only { (n : ℕ) → IsNumbered n → value_view value.now ≡ number (decimal n)
        → result ≡ Ok n }
    ensures err { IfErr result (λ e. e ≡ BadField) }
{
    match value.as_u64() {
        Some(n) if n <= LAST_NUMBER => Ok(n as u32),
        _ => Err(MessageFault::BadField),
    }
}

/// The number of the request: the member `no`.
pub(crate) fn number_member(value: &Value<'_>) -> Result<u32, MessageFault>
    ensures found { IfOk result IsNumbered }
    ensures only { (n : ℕ) → IsNumbered n
        → get (codes "no") (value_view value.now) ≡ Some (number (decimal n)) → result ≡ Ok n }
    ensures err { IfErr result (λ e. e ≡ BadField) }
{
    match value.get("no") {
        Some(member) => number_of(member),
        None => Err(MessageFault::BadField),
    }
}

/// The elements of a member that is a list.
pub(crate) fn list_member<'v, 'a>(
    value: &'v Value<'a>,
    name: &str,
) -> Result<&'v [Value<'a>], MessageFault>
    ensures only { (ws : List (List ℕ))
        → get name.now (value_view value.now) ≡ Some (array (text_items ws))
        → IsOkAnd result (λ items. items_view items.now ≡ text_items ws) }
    ensures err { IfErr result (λ e. e ≡ BadField) }
{
    match value.get(name) {
        Some(Value::Array(items)) => Ok(items.as_slice()),
        _ => Err(MessageFault::BadField),
    }
}
