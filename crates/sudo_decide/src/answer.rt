//! What items and lists answer: `Some(true)` is yes, `Some(false)` is no, and `None` is silence.

ghost use Rattle.std.specs.Prelude.{◌≡◌, reverse, take};
ghost use Rattle.std.specs.List.{flat_map};
ghost use Rattle.sudo_policy.specs.Policy.{IsPolicy};
ghost use Rattle.sudo_decide.specs.Decision as answers;
ghost use Rattle.sudo_decide.specs.Kinds.{aliases_say, item_says_by, list_says_by};

use crate::invocation::Invocation;
use crate::kind::{Kind, Meaning};
use sudo_policy::{Policy, Signed};
use sudo_words::AliasName;

/// Whether the answer is yes; neither a no nor silence is.
pub(crate) fn is_yes(answer: Option<bool>) -> bool
    ensures { result ≡ answers.is_yes answer }
{
    answer.unwrap_or(false)
}

/// Negation swaps yes and no, and keeps silence.
pub(crate) fn signed_answer(negated: bool, answer: Option<bool>) -> Option<bool>
    ensures { result ≡ answers.signed_answer negated answer }
{
    if negated { answer.map(|b| !b) } else { answer }
}

/// An alias answers what its list answers by the definitions above its own. An alias that is not
/// defined before the place `below` is silent.
#[cycle(answers)]
fn alias_answer<K: Kind>(p: &Policy, below: usize, name: &AliasName, i: &Invocation) -> Option<bool>
    requires { IsPolicy p.now }
    ensures { result
        ≡ aliases_say (K.says i.now) (flat_map K.def (reverse (take below p.now))) name.now }
{
    let (place, list) = K::definition(p, name)?;
    if place < below {
        list_answer::<K>(p, place, list, i)
    } else {
        None
    }
}

/// What an item answers, by the definitions before the place `below`.
#[cycle(answers)]
fn item_answer<K: Kind>(p: &Policy, below: usize, item: &K::Item, i: &Invocation) -> Option<bool>
    requires { IsPolicy p.now }
    ensures { result
        ≡ item_says_by (K.says i.now) (flat_map K.def (reverse (take below p.now))) item.now }
{
    match K::meaning(item, i) {
        Meaning::Answer(answer) => answer,
        Meaning::Alias(name) => alias_answer::<K>(p, below, name, i),
    }
}

/// A list's answer is the last one that its items give, by the definitions before the place
/// `below`.
#[cycle(answers)]
fn list_answer<K: Kind>(
    p: &Policy,
    below: usize,
    list: &[Signed<K::Item>],
    i: &Invocation,
) -> Option<bool>
    requires { IsPolicy p.now }
    ensures { result
        ≡ list_says_by (K.says i.now) (flat_map K.def (reverse (take below p.now))) list.now }
{
    let mut answer = None;
    for x in list {
        answer = signed_answer(x.negated, item_answer::<K>(p, below, &x.item, i)).or(answer);
    }
    answer
}

/// What an item answers by the definitions of the policy.
pub(crate) fn item_says<K: Kind>(p: &Policy, item: &K::Item, i: &Invocation) -> Option<bool>
    ensures { result ≡ item_says_by (K.says i.now) (flat_map K.def (reverse p.now)) item.now }
{
    item_answer::<K>(p, p.entries().len(), item, i)
}

/// What a list answers by the definitions of the policy.
pub(crate) fn list_says<K: Kind>(
    p: &Policy,
    list: &[Signed<K::Item>],
    i: &Invocation,
) -> Option<bool>
    ensures { result ≡ list_says_by (K.says i.now) (flat_map K.def (reverse p.now)) list.now }
{
    list_answer::<K>(p, p.entries().len(), list, i)
}
