//! The pairs of duties that conflict.

ghost use Rattle.std.specs.Prelude.{◌≡◌, ◌&&◌, IfOk};
ghost use Rattle.std.specs.List.{list_any};
ghost use Rattle.roster.specs.Relations as relations;

use crate::days::Days;
use crate::pairs::{are_paired, in_order};
use std::alloc::AllocError;
use std::marker::Model;
use sudo_words::{Day, Items, Label};

/// The pairs as they are listed, which contracts see, and once more in the order in which they are
/// looked up.
#[derive(Drop)]
pub(crate) struct Conflicts {
    listed: Items<(Label, Label)>,
    ordered: Items<(Label, Label)>,
}

impl Model for Conflicts {
    ghost use Rattle.std.specs.Prelude.{List, ℕ};
    ghost use Rattle.roster.specs.Relations.{pair_order};
    ghost use Rattle.roster.specs.private.LookupOrders.{IsInOrder};

    ghost Value = { List (List ℕ × List ℕ) };

    ghost view = { λ c. c.listed };

    ghost invariant = { λ c. IsInOrder pair_order c.listed c.ordered };
}

impl Conflicts {
    /// These pairs; an error where memory runs out.
    pub(crate) fn of(listed: Items<(Label, Label)>) -> Result<Conflicts, AllocError>
        ensures { IfOk result (λ c. c ≡ listed) }
    {
        let ordered = in_order(&listed)?;
        Ok(Conflicts { listed, ordered })
    }

    pub(crate) fn as_slice(&self) -> &[(Label, Label)]
        ensures { result.now ≡ self.now }
    {
        self.listed.as_slice()
    }

    /// Whether the two duties are one of the pairs, either way round.
    pub(crate) fn joins(&self, first: &Label, second: &Label) -> bool
        ensures { result ≡ list_any (relations.joins first.now second.now) self.now }
    {
        are_paired(self.ordered.as_slice(), first, second)
    }

    /// Whether one of the entries has a duty that is paired with this one, and the day is one of
    /// its days.
    pub(crate) fn join_one(&self, entries: &[(Label, Days)], duty: &Label, day: Day) -> bool
        ensures { result ≡ list_any (λ e. relations.hold e.1 day
            && list_any (relations.joins e.0 duty.now) self.now) entries.now }
    {
        entries
            .iter()
            .any(|e| e.1.hold(day) && self.joins(&e.0, duty))
    }
}
