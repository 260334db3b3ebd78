//! Canonical JSON texts.

ghost use Rattle.std.specs.Prelude.{◌≡◌, ◌⊎◌, IfOk, IfErr};
ghost use Rattle.serde_json.specs.View.{view, items_view, members_view};
ghost use Rattle.serde_json.specs.Written as written;
ghost use Rattle.messages.specs.Canonical.{IsCanonicalText, IsTextOf};
ghost use Rattle.messages.specs.private.Members.{ReadsAs};
ghost use Rattle.messages.specs.declared.fault.MessageFault.TheVariants.{NotCanonical, NoMemory};

use crate::fault::MessageFault;
use serde_json::{Category, Map, Value};
use std::alloc::Global;

/// Whether some number of the value is not whole.
#[cycle(has_float)]
fn has_float(value: &Value) -> bool
    ensures { result ≡ written.has_float (view value.now) }
{
    match value {
        Value::Null | Value::Bool(_) | Value::String(_) => false,
        Value::Number(number) => number.is_f64(),
        Value::Array(items) => items_have_float(items),
        Value::Object(members) => members_have_float(members),
    }
}

#[cycle(has_float)]
fn items_have_float(items: &Vec<Value>) -> bool
    ensures { result ≡ written.items_have_float (items_view items.now.items) }
{
    for item in items {
        if has_float(item) {
            return true;
        }
    }
    false
}

#[cycle(has_float)]
fn members_have_float(members: &Map<String, Value>) -> bool
    ensures { result ≡ written.members_have_float (members_view members.now.entries) }
{
    for (_, member) in members.iter() {
        if has_float(member) {
            return true;
        }
    }
    false
}

/// The value that the bytes read as.
pub(crate) fn value_of(alloc: Global, body: &[u8]) -> Result<Value, MessageFault>
    ensures ok { IfOk result (λ v. ReadsAs body.now (view v)) }
    ensures err { IfErr result
        (λ e. (e ≡ NoMemory) ⊎ ((e ≡ NotCanonical) × ¬ IsCanonicalText body.now)) }
{
    match Value::from_slice(alloc, body) {
        Ok(value) => Ok(value),
        Err(e) => match e.classify() {
            Category::Memory => Err(MessageFault::NoMemory),
            _ => Err(MessageFault::NotCanonical),
        },
    }
}

/// Checks that the bytes, which read as the value, are its canonical text: `NotCanonical` if they
/// are not.
pub(crate) fn canonical(alloc: Global, value: &Value, body: &[u8]) -> Result<(), MessageFault>
    ensures ok { IfOk result
        (λ _. ReadsAs body.now (view value.now) → IsTextOf body.now (view value.now)) }
    ensures err { IfErr result (λ e. (e ≡ NoMemory)
        ⊎ ((e ≡ NotCanonical) × (ReadsAs body.now (view value.now) → ¬ IsCanonicalText body.now))) }
{
    if has_float(value) {
        return Err(MessageFault::NotCanonical);
    }
    let text = value.to_string(alloc)?;
    if text.as_bytes() != body {
        return Err(MessageFault::NotCanonical);
    }
    Ok(())
}
