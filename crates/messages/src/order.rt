//! Lists of texts in byte order.

ghost use Rattle.std.specs.Prelude.{◌≡◌, List, ℕ};
ghost use Rattle.json.specs.Value.{items_view};
ghost use Rattle.messages.specs.private.Members.{text_items};
ghost use Rattle.messages.specs.Order as order;

use json::Value;

/// Whether the texts come after `low`, each before the next.
fn rise_from(low: &str, items: &[Value<'_>]) -> bool
    ensures { (ws : List (List ℕ)) → items_view items.now ≡ text_items ws
        → result ≡ order.rises_from low.now ws }
{
    match items {
        [] => true,
        [item, rest @ ..] => match item.as_str() {
            Some(text) => low < text && rise_from(text, rest),
            None => false,
        },
    }
}

/// Whether each text comes before the next.
pub(crate) fn texts_rise(items: &[Value<'_>]) -> bool
    ensures { (ws : List (List ℕ)) → items_view items.now ≡ text_items ws
        → result ≡ order.is_rising ws }
{
    match items {
        [] => true,
        [item, rest @ ..] => match item.as_str() {
            Some(text) => rise_from(text, rest),
            None => false,
        },
    }
}
