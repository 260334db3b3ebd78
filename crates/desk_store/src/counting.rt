//! How many messages a database was found to have.

ghost use Rattle.std.specs.Prelude.{◌≡◌, true, map, IfOk, IfSome};
ghost use Rattle.std.specs.Cmp.Lexicographic.{slice_cmp};
ghost use Rattle.std.specs.List.Sorted.{IsStrictlySortedBy};
ghost use Rattle.std.specs.Ordering.{nat_cmp};
ghost use Rattle.messages.specs.Wire.{wire};
ghost use Rattle.desk_store.specs.Keeping.{IsCountIn};

use std::alloc::Global;
use store_opening::Stored;
use sudo_words::NoMemory;

/// The text of each message.
fn texts_of(alloc: Global, messages: &[Stored]) -> Result<Vec<&str>, NoMemory>
    ensures { IfOk result (λ texts. map (λ t. t.now) texts.items ≡ map wire messages.now) }
{
    let mut texts = Vec::with_capacity(alloc, messages.len())?;
    for stored in messages {
        texts.push(stored.body())?;
    }
    Ok(texts)
}

/// Whether each text comes before the next one, so that no two are the same.
fn ascends(texts: &[&str]) -> bool
    ensures { result ≡ true → IsStrictlySortedBy (λ a b. slice_cmp nat_cmp a.now b.now) texts.now }
{
    for i in 1..texts.len() {
        if texts[i - 1] >= texts[i] {
            return false;
        }
    }
    true
}

/// How many messages these are, if no two are the same and memory suffices to see it.
pub(crate) fn count_of(alloc: Global, messages: &[Stored]) -> Option<usize>
    ensures { IfSome result (IsCountIn messages.now) }
{
    let Ok(mut texts) = texts_of(alloc, messages) else {
        return None;
    };
    texts.sort_unstable();
    if ascends(texts.as_slice()) {
        Some(messages.len())
    } else {
        None
    }
}
