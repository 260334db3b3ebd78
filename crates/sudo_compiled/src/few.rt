//! Lists that mostly have one item, or are what an alias stands for.

ghost use Rattle.std.specs.Prelude.{◌≡◌, ◌∷◌, [], map};
ghost use Rattle.sudo_decide.specs.Decision as answers;
ghost use Rattle.sudo_compiled.specs.Compiled as compiled;
ghost use Rattle.sudo_compiled.specs.private.Kept.{turned};

use crate::listed::{cmnds_say, plains_say};
use crate::plain::Plain;
use std::marker::Model;
use std::rc::Rc;
use std::slice;
use sudo_policy::Signed;
use sudo_words::{Arg, Cmnd, FilePath};

/// How a list is kept.
#[derive(Drop)]
enum Kept<P> {
    /// One item.
    One(Signed<P>),
    /// Any number of items.
    More(Vec<Signed<P>>),
    /// What an alias stands for, turned over where the use of the alias is negated.
    Alias(bool, Rc<Vec<Signed<P>>>),
}

/// A list, which contracts see as the list of its items. A single item is kept in place,
/// without memory for a list, and what an alias stands for is shared by all its uses.
#[derive(Drop)]
pub struct Few<P> {
    kept: Kept<P>,
}

impl<P> Model for Few<P> {
    ghost use Rattle.std.specs.Prelude.{List};
    ghost use Rattle.sudo_policy.specs.declared.entry.Signed.{Signed as OneItem};

    ghost Value = { List (OneItem P) };

    ghost use Rattle.sudo_compiled.specs.private.Kept.{items_of};

    ghost view = { λ f. items_of f.kept };
}

impl<P> Few<P> {
    /// The list of one item.
    pub(crate) fn one(item: Signed<P>) -> Few<P>
        ensures { result ≡ item ∷ [] }
    {
        Few {
            kept: Kept::One(item),
        }
    }

    /// The list of these items.
    pub(crate) fn more(items: Vec<Signed<P>>) -> Few<P>
        ensures { result ≡ items.items }
    {
        Few {
            kept: Kept::More(items),
        }
    }

    /// The list that an alias stands for, turned over where the use of the alias is negated.
    pub(crate) fn alias(negated: bool, items: Rc<Vec<Signed<P>>>) -> Few<P>
        ensures { result ≡ map (turned negated) items.value.items }
    {
        Few {
            kept: Kept::Alias(negated, items),
        }
    }
}

/// An answer, turned over where the list is negated.
fn signed(negated: bool, answer: Option<bool>) -> Option<bool>
    ensures { result ≡ answers.signed_answer negated answer }
{
    if negated { answer.map(|b| !b) } else { answer }
}

/// What a list of names says, with its items turned over where it is negated.
fn turned_plains_say(negated: bool, list: &[Signed<Plain>], asked: &[u8]) -> Option<bool>
    ensures { result ≡ compiled.plains_say asked.now (map (turned negated) list.now) }
{
    signed(negated, plains_say(list, asked))
}

/// What a list of commands says, with its items turned over where it is negated.
fn turned_cmnds_say(
    negated: bool,
    list: &[Signed<Cmnd>],
    path: &FilePath,
    args: &[Arg],
) -> Option<bool>
    ensures { result ≡ compiled.cmnds_say path.now args.now (map (turned negated) list.now) }
{
    signed(negated, cmnds_say(list, path, args))
}

impl Few<Plain> {
    /// What the list says about this name.
    pub(crate) fn says_of(&self, asked: &[u8]) -> Option<bool>
        ensures { result ≡ compiled.plains_say asked.now self.now }
    {
        match &self.kept {
            Kept::One(item) => plains_say(slice::from_ref(item), asked),
            Kept::More(items) => plains_say(items.as_slice(), asked),
            Kept::Alias(negated, items) => {
                turned_plains_say(*negated, items.as_ref().as_slice(), asked)
            }
        }
    }
}

impl Few<Cmnd> {
    /// What the list says about the path with these arguments.
    pub(crate) fn says_of_run(&self, path: &FilePath, args: &[Arg]) -> Option<bool>
        ensures { result ≡ compiled.cmnds_say path.now args.now self.now }
    {
        match &self.kept {
            Kept::One(cmnd) => cmnds_say(slice::from_ref(cmnd), path, args),
            Kept::More(cmnds) => cmnds_say(cmnds.as_slice(), path, args),
            Kept::Alias(negated, cmnds) => {
                turned_cmnds_say(*negated, cmnds.as_ref().as_slice(), path, args)
            }
        }
    }
}
