//! Pairs of duties in order, looked up by binary search.

ghost use Rattle.std.specs.Prelude.{◌≡◌, IfOk};
ghost use Rattle.std.specs.List.{list_any};
ghost use Rattle.roster.specs.Relations as relations;
ghost use Rattle.roster.specs.private.LookupOrders as orders;

use std::alloc::AllocError;
use std::cmp::Ordering;
use sudo_words::{Items, Label};

/// The same pairs in their order; an error where memory runs out.
pub(crate) fn in_order(pairs: &Items<(Label, Label)>) -> Result<Items<(Label, Label)>, AllocError>
    ensures { IfOk result (orders.IsInOrder relations.pair_order pairs.now) }
{
    let mut ordered = pairs.clone()?.into_vec();
    ordered.sort_unstable();
    Ok(Items::new(ordered))
}

fn compare(pair: &(Label, Label), first: &Label, second: &Label) -> Ordering
    ensures { result ≡ relations.pair_order pair.now (first.now, second.now) }
{
    pair.0.cmp(first).then(pair.1.cmp(second))
}

/// Whether the two duties are one of the pairs, this way round.
fn has_pair(ordered: &[(Label, Label)], first: &Label, second: &Label) -> bool
    requires { orders.AreInOrder ordered.now }
    ensures { result ≡ list_any (relations.is_pair first.now second.now) ordered.now }
{
    let mut low = 0;
    let mut high = ordered.len();
    'halves: while low < high {
        let middle = low + (high - low) / 2;
        let pair = &ordered[middle];
        match compare(pair, first, second) {
            Ordering::Less => low = middle + 1,
            Ordering::Equal => return true,
            Ordering::Greater => high = middle,
        }
    }
    false
}

/// Whether the two duties are one of the pairs, either way round.
#[tactic(auto, using(crate::proofs::PairLemmas::either_way_round))]
pub(crate) fn are_paired(ordered: &[(Label, Label)], first: &Label, second: &Label) -> bool
    requires { orders.AreInOrder ordered.now }
    ensures { result ≡ list_any (relations.joins first.now second.now) ordered.now }
{
    has_pair(ordered, first, second) || has_pair(ordered, second, first)
}
