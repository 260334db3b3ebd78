//! Other words: `other0`, `other1` and so on. The first word that is not taken is used.

ghost use Rattle.std.specs.Prelude.{◌≡◌, ◌<◌, true, IfOk};
ghost use Rattle.std.specs.List.Sorted.{IsStrictlySortedBy};
ghost use Rattle.sudo_words.specs.Lists.{text_order};
ghost use Rattle.sudo_beyond.specs.Cases.{other as word_of, IsFirstOther, has_word};
ghost use Rattle.sudo_beyond.specs.private.Gathering.{IsFormOfOthers};

use std::alloc::Global;
use sudo_words::{Form, NoMemory, Word, is_among};

/// The word `other` and this number.
pub fn other<F: Form>(alloc: Global, number: usize) -> Result<Word<F>, NoMemory>
    requires { F.has (word_of number) ≡ true }
    ensures { IfOk result (λ w. w ≡ word_of number) }
{
    match Word::from_string(format!(in alloc; "other{number}")?) {
        Ok(word) => Ok(word),
        Err(_) => Err(NoMemory),
    }
}

/// The first other word that is not in `standing`, which is in order. It is one of the first
/// `standing.len() + 1` words.
pub fn first_other<F: Form>(alloc: Global, standing: &[Word<F>]) -> Result<Word<F>, NoMemory>
    requires form { IsFormOfOthers F.has }
    requires sorted { IsStrictlySortedBy text_order standing.now }
    ensures { IfOk result (λ w. IsFirstOther (has_word standing.now) w) }
{
    for number in 0..standing.len() {
        let word = other(alloc, number)?;
        if !is_among(standing, &word) {
            return Ok(word);
        }
    }
    other(alloc, standing.len())
}
