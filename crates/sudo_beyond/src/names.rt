//! The names that are tried.

ghost use Rattle.std.specs.Prelude.{◌≡◌, ◌∷◌, [], IfOk, IfSome, true};
ghost use Rattle.sudo_beyond.specs.Cases.{AreNameCases, AreNamesAndOther};
ghost use Rattle.sudo_beyond.specs.private.Gathering.{IsFormOfOthers};

use crate::other::first_other;
use std::alloc::Global;
use sudo_words::{Form, Items, NoMemory, Word, in_order};

/// The names in `standing`, each once, in byte order, and then the first other name.
fn names_and_other<F: Form>(
    alloc: Global,
    standing: Vec<Word<F>>,
) -> Result<Items<Word<F>>, NoMemory>
    requires { IsFormOfOthers F.has }
    ensures { IfOk result (λ cases. AreNamesAndOther standing.items cases) }
{
    let mut cases = in_order(standing);
    let other_name = first_other(alloc, &cases)?;
    cases.push(other_name)?;
    Ok(Items::new(cases))
}

/// A list of the fixed name alone, which has its form.
fn fixed_alone<F: Form>(alloc: Global, fixed: &Word<F>) -> Result<Items<Word<F>>, NoMemory>
    ensures form { F.has fixed.now ≡ true }
    ensures alone { IfOk result (λ cases. cases ≡ fixed.now ∷ []) }
{
    match Word::read(alloc, fixed.as_str()) {
        Ok(name) => Ok(Items::new(vec![in alloc; name]?)),
        Err(_) => Err(NoMemory),
    }
}

/// The fixed name alone; or, if none is fixed, the names in `standing` and the first other name.
pub fn name_cases<F: Form>(
    alloc: Global,
    fixed: &Option<Word<F>>,
    standing: Vec<Word<F>>,
) -> Result<Items<Word<F>>, NoMemory>
    requires { IsFormOfOthers F.has }
    ensures form { IfSome fixed.now (λ name. F.has name ≡ true) }
    ensures cases { IfOk result (λ cases. AreNameCases fixed.now standing.items cases) }
{
    match fixed {
        Some(name) => fixed_alone(alloc, name),
        None => names_and_other(alloc, standing),
    }
}
