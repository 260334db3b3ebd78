//! The laws, each the contract of a function that does nothing. This file has the laws of messages
//! and of their texts.

ghost use Rattle.std.specs.Prelude.{◌≡◌, ◌⊎◌, ◌↔◌};
ghost use Rattle.std.specs.declared.cmp.Ordering.TheVariants.{Less};
ghost use Rattle.messages.specs.Canonical.{IsCanonicalText};
ghost use Rattle.messages.specs.Names.{NamePrecedes, RequestName as AnyName};
ghost use Rattle.messages.specs.Wire.{wire, IsMessage};
ghost use Rattle.messages.specs.declared.message.Message.{Message as AnyMessage};

use crate::request_name::RequestName;

// worked texts of messages
pub use crate::wire_laws::worked_messages;
// worked texts of JSON
pub use crate::text_laws::{worked_canonical_json, worked_other_json};

/// No text is the text of two messages: messages are equal exactly if their texts are.
pub fn one_message()
    ensures { (m n : AnyMessage) → IsMessage m → IsMessage n → wire m ≡ wire n → m ≡ n }
{}

/// The text of a message is canonical.
pub fn wire_is_canonical()
    ensures { (m : AnyMessage) → IsMessage m → IsCanonicalText (wire m) }
{}

/// Names are compared by the asker in byte order, then by the number. That is a strict order:
/// either one of two names comes before the other, or they are the same.
pub fn names_in_order()
    ensures order { (a b : AnyName) → (⟦<RequestName as Ord>⟧.cmp a b ≡ Less) ↔ NamePrecedes a b }
    ensures one { (a b : AnyName) → NamePrecedes a b ⊎ ((a ≡ b) ⊎ NamePrecedes b a) }
    ensures strict { (a b : AnyName) → NamePrecedes a b → ¬ NamePrecedes b a }
    ensures behind { (a b c : AnyName) → NamePrecedes a b → NamePrecedes b c → NamePrecedes a c }
{}
