//! Who first gave a verdict that counts, and by which moment enough people have.

ghost use Rattle.std.specs.Prelude.{◌≡◌, ◌≤◌, map, option_map};
ghost use Rattle.std.specs.List.{list_any};
ghost use Rattle.std.specs.Str.{bytes_eq};
ghost use Rattle.grants.specs.private.Firsts as spec;
ghost use Rattle.grants.specs.private.Voters.{counting};

use crate::marks::Mark;
use crate::voters::Voters;
use std::collections::BTreeSet;
use sudo_words::{Moment, Name};

/// Whether the mark is earlier than the other, if there is one.
fn is_sooner(mark: &Mark, other: &Option<&Mark>) -> bool
    ensures { result ≡ spec.is_sooner mark.now (option_map (λ m. m.now) other.now) }
{
    match other {
        None => true,
        Some(other) => mark.at < other.at,
    }
}

/// Whether one of the people gave the mark's verdict.
fn is_of(people: &[&Name], mark: &Mark) -> bool
    ensures { result ≡ list_any (λ p. bytes_eq p.now mark.now.person) people.now }
{
    people.iter().any(|person| **person == mark.person)
}

/// Whether the mark counts and none of the others gave it.
fn is_of_another(voters: &Voters, others: &[&Name], mark: &Mark) -> bool
    ensures { result
        ≡ spec.is_of_another (counting voters.now) (map (λ p. p.now) others.now) mark.now }
{
    !is_of(others, mark) && voters.count(mark)
}

/// The first mark that counts and that none of the others gave. Whether a mark counts is asked only
/// if it is earlier than the first so far.
fn earliest<'m>(voters: &Voters, others: &[&Name], marks: &'m BTreeSet<Mark>) -> Option<&'m Mark>
    ensures { option_map (λ m. m.now) result ≡ spec.earliest_of
        (spec.is_of_another (counting voters.now) (map (λ p. p.now) others.now)) marks.now.keys }
{
    let mut first = None;
    for mark in marks {
        if is_sooner(mark, &first) && is_of_another(voters, others, mark) {
            first = Some(mark);
        }
    }
    first
}

/// The moment by which n different people have given a verdict that counts, for n from 1 to 3. It
/// goes through the marks at most n times.
pub(crate) fn nth(voters: &Voters, n: u64, marks: &BTreeSet<Mark>) -> Option<Moment>
    requires some { 1 ≤ n }
    requires few { n ≤ 3 }
    ensures { result ≡ spec.nth_of (counting voters.now) n marks.now.keys }
{
    let first = earliest(voters, &[], marks)?;
    if n == 1 {
        return Some(first.at);
    }
    let second = earliest(voters, &[&first.person], marks)?;
    if n == 2 {
        return Some(second.at);
    }
    let third = earliest(voters, &[&first.person, &second.person], marks)?;
    Some(third.at)
}
