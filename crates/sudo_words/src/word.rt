//! Texts of a given form.

ghost use Rattle.std.specs.Prelude.{◌≡◌, List, ℕ, IfOk, Bool, MatchResult, string_bytes, true};
ghost use Rattle.sudo_words.specs.declared.fault.WordFault.TheVariants.{NoMemory};

use crate::fault::WordFault;
use std::alloc::Global;
use std::cmp::Ordering;
use std::marker::{Model, PhantomData};

/// Which texts are words of a form.
pub trait Form {
    ghost has: { List ℕ → Bool };

    /// Whether the text is a word of the form.
    fn test(text: &[u8]) -> bool
        ensures { result ≡ has text.now };
}

/// A text of a form, which contracts see as its bytes.
#[derive(Clone, Debug, Drop)]
pub struct Word<F: Form> {
    text: String,
    form: PhantomData<F>,
}

impl<F: Form> Model for Word<F> {
    ghost use Rattle.std.specs.Prelude.{◌≡◌, List, ℕ, string_bytes, true};

    ghost Value = { List ℕ };

    ghost view = { λ w. string_bytes w.text };

    ghost invariant = { λ w. F.has (string_bytes w.text) ≡ true };
}

impl<F: Form> Word<F> {
    /// The text as a word; `BadWord` if it does not have the form.
    pub fn read(alloc: Global, text: &str) -> Result<Word<F>, WordFault>
        ensures found { IfOk result (λ w. (w ≡ text.now) × (F.has text.now ≡ true)) }
        ensures only { F.has text.now ≡ true
            → MatchResult result (λ w. w ≡ text.now) (λ e. e ≡ NoMemory) }
    {
        if !F::test(text.as_bytes()) {
            return Err(WordFault::BadWord);
        }
        Ok(Word {
            text: String::from_str(alloc, text)?,
            form: PhantomData,
        })
    }

    /// The text as a word, without a copy; `BadWord` if it does not have the form.
    pub fn from_string(text: String) -> Result<Word<F>, WordFault>
        ensures found { IfOk result
            (λ w. (w ≡ string_bytes text) × (F.has (string_bytes text) ≡ true)) }
        ensures only { F.has (string_bytes text) ≡ true → result ≡ Ok (string_bytes text) }
    {
        if F::test(text.as_bytes()) {
            Ok(Word {
                text,
                form: PhantomData,
            })
        } else {
            Err(WordFault::BadWord)
        }
    }

    /// The word's text.
    pub fn as_str(&self) -> &str
        ensures value { result.now ≡ self.now }
        ensures form { F.has self.now ≡ true }
    {
        self.text.as_str()
    }
}

impl<F: Form> PartialEq for Word<F> {
    ghost use Rattle.std.specs.Str.{bytes_eq};
    ghost use Rattle.std.specs.Cmp.Rules.{comparing};
    ghost use Rattle.std.proofs.Common.{rules};

    ghost eq = { bytes_eq };

    ghost laws = { Prim.search (comparing, rules) };

    fn eq(&self, other: &Word<F>) -> bool {
        self.text.as_str() == other.text.as_str()
    }
}

impl<F: Form> Eq for Word<F> {
    ghost use Rattle.std.specs.Cmp.Rules.{comparing};
    ghost use Rattle.std.proofs.Common.{rules};

    ghost laws = { Prim.search (comparing, rules) };
}

impl<F: Form> PartialOrd for Word<F> {
    ghost use Rattle.std.specs.Prelude.{Some};
    ghost use Rattle.std.specs.Cmp.Lexicographic.{slice_cmp, texts_po};
    ghost use Rattle.std.specs.Ordering.{nat_cmp};

    ghost partial_cmp = { λ x y. Some (slice_cmp nat_cmp x y) };

    ghost laws = { texts_po };

    fn partial_cmp(&self, other: &Word<F>) -> Option<Ordering> {
        Some(self.cmp(other))
    }
}

/// In the order of the bytes.
impl<F: Form> Ord for Word<F> {
    ghost use Rattle.std.proofs.Common.{refl};
    ghost use Rattle.std.specs.Cmp.Lexicographic.{slice_cmp, nat_list_cmp_total, texts_ties};
    ghost use Rattle.std.specs.Ordering.{nat_cmp};

    ghost cmp = { slice_cmp nat_cmp };

    ghost total = { nat_list_cmp_total };

    ghost matches_partial_cmp = { λ x y. refl };

    ghost matches_eq = { texts_ties };

    fn cmp(&self, other: &Word<F>) -> Ordering {
        self.text.as_str().cmp(other.text.as_str())
    }
}
