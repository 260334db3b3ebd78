//! The laws, each the contract of a function that does nothing. The laws of policies' texts are
//! written here, and the others are re-exported.

ghost use Rattle.std.specs.Prelude.{◌≡◌, ℕ, List};
ghost use Rattle.sudo_policy.specs.declared.entry.Entry.{Entry as Entered};
ghost use Rattle.sudo_policy.specs.Spelling.{Spells};
ghost use Rattle.sudo_policy.specs.Policy.{IsPolicy};
ghost use Rattle.sudo_policy.specs.Printing.{canon};

// the weights and depths of aliases
pub use crate::alias_laws::alias_weighs_its_list;

/// No text spells two policies.
pub fn one_policy()
    ensures { (text : List ℕ) (a b : List Entered) → Spells text a → Spells text b → a ≡ b }
{}

/// The canonical text of a policy spells it.
pub fn canon_spells()
    ensures { (es : List Entered) → IsPolicy es → Spells (canon es) es }
{}

/// Two policies with the same canonical text are the same policy.
pub fn canon_is_one()
    ensures { (a b : List Entered) → IsPolicy a → IsPolicy b → canon a ≡ canon b → a ≡ b }
{}
