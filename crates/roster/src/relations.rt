//! Look-ups in what a roster says. They take no memory.

ghost use Rattle.std.specs.Prelude.{◌≡◌, ◌≤◌, length, option_map};
ghost use Rattle.std.specs.List.{list_any};
ghost use Rattle.roster.specs.Relations as relations;
ghost use Rattle.roster.specs.Rules as rules;

use crate::days::Days;
use std::cmp::Ordering;
use sudo_words::{Day, Form, Items, Label, Name, Word};

/// Whether one of the words is this text.
pub(crate) fn is_among<F: Form>(words: &[Word<F>], text: &str) -> bool
    ensures { result ≡ rules.is_among words.now text.now }
{
    words.iter().any(|w| w.as_str() == text)
}

/// What the list has under the name, found by binary search.
pub(crate) fn entry_of<'e, F: Form, T>(entries: &'e [(Word<F>, T)], name: &Word<F>) -> Option<&'e T>
    requires { relations.AreRising entries.now }
    ensures { option_map (λ x. x.now) result ≡ relations.entry_of entries.now name.now }
{
    let mut low = 0;
    let mut high = entries.len();
    'halves: while low < high {
        let middle = low + (high - low) / 2;
        let entry = &entries[middle];
        match entry.0.cmp(name) {
            Ordering::Less => low = middle + 1,
            Ordering::Equal => return Some(&entry.1),
            Ordering::Greater => high = middle,
        }
    }
    None
}

/// The entries of the person, none where the person is not listed.
pub(crate) fn entries_of<'p>(
    people: &'p [(Name, Items<(Label, Days)>)],
    person: &Name,
) -> &'p [(Label, Days)]
    requires { relations.AreRising people.now }
    ensures { result.now ≡ relations.or_none (relations.entry_of people.now person.now) }
{
    match entry_of(people, person) {
        Some(entries) => entries.as_slice(),
        None => &[],
    }
}

/// Whether one of the entries has the duty, and the day is one of its days. It takes no memory.
pub fn give(entries: &[(Label, Days)], duty: &Label, day: Day) -> bool
    ensures { result ≡ list_any (relations.gives duty.now day) entries.now }
{
    entries.iter().any(|e| e.0 == *duty && e.1.hold(day))
}

/// The first of the words in byte order.
pub(crate) fn first_of<F: Form>(words: &[Word<F>]) -> &Word<F>
    requires { 1 ≤ length words.now }
    ensures { relations.IsFirst words.now result.now }
{
    let mut first = &words[0];
    for word in words {
        if *word < *first {
            first = word;
        }
    }
    first
}
