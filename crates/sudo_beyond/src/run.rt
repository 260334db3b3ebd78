//! What is run: a path with its arguments.

use std::cmp::Ordering;
use std::marker::Model;
use sudo_words::{Arg, FilePath};

/// The arguments of a command, in order.
///
/// Two lists of arguments are compared as lists of texts: the first text that differs decides, and
/// otherwise the length.
#[derive(Clone, Drop)]
pub struct Args {
    items: Vec<Arg>,
}

impl Model for Args {
    ghost use Rattle.std.specs.Prelude.{List, ℕ};

    ghost Value = { List (List ℕ) };

    ghost view = { λ a. a.items.items };
}

impl Args {
    ghost use Rattle.std.specs.Prelude.{◌≡◌};

    /// The list of these arguments.
    pub fn new(items: Vec<Arg>) -> Args
        ensures { result ≡ items.items }
    {
        Args { items }
    }

    /// The arguments.
    pub fn as_slice(&self) -> &[Arg]
        ensures { result.now ≡ self.now }
    {
        &self.items
    }

    /// Gives the arguments back.
    pub fn into_vec(self) -> Vec<Arg>
        ensures { result.items ≡ self }
    {
        self.items
    }
}

impl PartialEq for Args {
    ghost use Rattle.std.specs.Str.{bytes_eq};
    ghost use Rattle.std.specs.Cmp.{partial_equiv_from_equiv};
    ghost use Rattle.std.specs.Cmp.Lexicographic.{pointwise, lists_per, nat_list_eq_equiv};

    ghost eq = { pointwise bytes_eq };

    ghost laws = { lists_per (partial_equiv_from_equiv nat_list_eq_equiv) };

    fn eq(&self, other: &Args) -> bool {
        self.as_slice() == other.as_slice()
    }
}

impl Eq for Args {
    ghost use Rattle.std.specs.Cmp.Lexicographic.{lists_equiv, nat_list_eq_equiv};

    ghost laws = { lists_equiv nat_list_eq_equiv };
}

impl PartialOrd for Args {
    ghost use Rattle.std.specs.Prelude.{Some};
    ghost use Rattle.std.specs.Str.{bytes_eq};
    ghost use Rattle.std.specs.Cmp.{IsPartialOrder};
    ghost use Rattle.std.specs.Cmp.Lexicographic.{pointwise, slice_cmp, lists_po};
    ghost use Rattle.std.specs.Cmp.Lexicographic.{lists_agrees, texts_po};
    ghost use Rattle.std.specs.Ordering.{nat_cmp};
    ghost use Rattle.std.proofs.Common.{refl, subst};

    ghost partial_cmp = { λ x y. Some (slice_cmp (slice_cmp nat_cmp) x y) };

    ghost laws = { subst (IsPartialOrder (pointwise bytes_eq))
        (λ i x y. lists_agrees {R = slice_cmp nat_cmp}
        {C = λ v w. Some (slice_cmp nat_cmp v w)} (λ v w. refl) x y i) (lists_po texts_po) };

    fn partial_cmp(&self, other: &Args) -> Option<Ordering> {
        Some(self.cmp(other))
    }
}

impl Ord for Args {
    ghost use Rattle.std.proofs.Common.{refl};
    ghost use Rattle.std.specs.Cmp.Lexicographic.{slice_cmp, lists_total, lists_ties};
    ghost use Rattle.std.specs.Cmp.Lexicographic.{nat_list_cmp_total, texts_ties};
    ghost use Rattle.std.specs.Ordering.{nat_cmp};

    ghost cmp = { slice_cmp (slice_cmp nat_cmp) };

    ghost total = { lists_total nat_list_cmp_total };

    ghost matches_partial_cmp = { λ x y. refl };

    ghost matches_eq = { lists_ties (slice_cmp nat_cmp) texts_ties };

    fn cmp(&self, other: &Args) -> Ordering {
        self.as_slice().cmp(other.as_slice())
    }
}

/// A path that is run with arguments. Runs are in order by their paths, and those of one path by
/// their arguments.
#[derive(PartialEq, Eq, PartialOrd, Ord, Drop)]
pub struct Run {
    /// The path.
    pub path: FilePath,
    /// The arguments, in order.
    pub args: Args,
}
