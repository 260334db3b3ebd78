//! Names of requests, each found by binary search.

ghost use Rattle.std.specs.Prelude.{◌≡◌, ◌≤◌, ℕ, ℤ, List, true, IfOk, count_by};
ghost use Rattle.std.specs.List.{list_any};
ghost use Rattle.std.specs.List.Sorted.{IsSorted, IsPermutation};
ghost use Rattle.store_opening.specs.private.Names.{differ, differs, is_at};
ghost use Rattle.store_opening.specs.private.Names.{name_cmp, asked_cmp, repeats};

use std::alloc::Global;
use sudo_words::NoMemory;

/// A name as a row shows it, in the order of names: who asked, as bytes, and the number. A rowid is
/// a name with no bytes.
#[derive(Clone, Copy, Debug, PartialEq, Eq, PartialOrd, Ord)]
pub(crate) struct NameKey<'a> {
    pub(crate) by: &'a [u8],
    pub(crate) number: i64,
}

/// A name, and the text of a request under it.
#[derive(Clone, Copy, Debug, PartialEq, Eq, PartialOrd, Ord)]
pub(crate) struct Asked<'a> {
    pub(crate) name: NameKey<'a>,
    pub(crate) text: &'a [u8],
}

/// Whether the name is one of these, which are in order.
pub(crate) fn is_among(names: &[NameKey<'_>], name: &NameKey<'_>) -> bool
    requires { IsSorted name_cmp names.now }
    ensures { result ≡ list_any (is_at name.now.by.now name.now.number) names.now }
{
    names.binary_search(name).is_ok()
}

/// The names, in order.
pub(crate) fn in_order<'a>(mut names: Vec<NameKey<'a>>) -> Vec<NameKey<'a>>
    ensures sorted { IsSorted name_cmp result.items }
    ensures same { IsPermutation names.entry.items result.items }
{
    names.sort_unstable();
    names
}

/// Names with texts, in the order of the names.
pub(crate) fn texts_in_order<'a>(mut asked: Vec<Asked<'a>>) -> Vec<Asked<'a>>
    ensures sorted { IsSorted asked_cmp result.items }
    ensures same { IsPermutation asked.entry.items result.items }
{
    asked.sort_unstable();
    asked
}

fn is_same(a: &NameKey<'_>, b: &NameKey<'_>) -> bool
    ensures { result ≡ is_at a.now.by.now a.now.number b.now }
{
    b.by == a.by && b.number == a.number
}

/// The two requests have the same name and different texts.
fn differ(a: &Asked<'_>, b: &Asked<'_>) -> bool
    ensures { result ≡ differ a.now b.now }
{
    is_same(&a.name, &b.name) && a.text != b.text
}

/// The names that have two texts among these, which are in order.
pub(crate) fn disputed<'a>(alloc: Global, asked: &[Asked<'a>]) -> Result<Vec<NameKey<'a>>, NoMemory>
    ensures { IfOk result (λ names. (asker : List ℕ) (number : ℤ)
        → list_any (is_at asker number) names.items ≡ differs asker number asked.now) }
{
    let mut names = Vec::new(alloc);
    for i in 1..asked.len() {
        let a = &asked[i - 1];
        let b = &asked[i];
        if differ(a, b) {
            names.push(a.name)?;
        }
    }
    Ok(names)
}

/// Two neighbours are the same.
fn repeats(names: &[NameKey<'_>]) -> bool
    ensures { result ≡ repeats names.now }
{
    for i in 1..names.len() {
        if is_same(&names[i - 1], &names[i]) {
            return true;
        }
    }
    false
}

/// Whether none of these names comes twice.
pub(crate) fn are_apart(mut names: Vec<NameKey<'_>>) -> bool
    ensures { result ≡ true → (asker : List ℕ) (number : ℤ)
        → count_by (is_at asker number) names.entry.items ≤ 1 }
{
    names.sort_unstable();
    !repeats(names.as_slice())
}
