//! Policies as they grow, entry by entry.

ghost use Rattle.std.specs.Prelude.{◌≡◌, ◌++◌, ◌∷◌, [], IfErr, IsOk, OnOk};
ghost use Rattle.sudo_policy.specs.declared.fault.LineFault.TheVariants as fault;
ghost use Rattle.sudo_policy.specs.Policy.{IsEntry, IsPolicy};
ghost use Rattle.sudo_policy.specs.private.AliasKinds.{Adds, IsDraft, IsWhole};

use crate::alias_kinds::AliasKinds;
use crate::aliases::MOST_WEIGHT;
use crate::entry::Entry;
use crate::fault::LineFault;
use crate::lengths::{MOST_TEXT_BYTES, line_len};
use std::alloc::Global;

/// The most entries that a policy has.
const MOST_ENTRIES: usize = 16_384;

/// Adds one more to a list.
fn push<T: Drop>(items: &mut Vec<T>, item: T) -> Result<(), LineFault>
    ensures found { OnOk result (items.new.items ≡ items.old.items ++ item ∷ []) }
    ensures only { IfErr result (λ e. e ≡ fault.NoMemory) }
{
    items.push(item)?;
    Ok(())
}

/// Adds an item to a list if it was entered without a fault, and returns that fault otherwise.
fn push_entered<T: Drop>(
    items: &mut Vec<T>,
    item: T,
    entered: Result<(), LineFault>,
) -> Result<(), LineFault>
    ensures found { OnOk result (IsOk entered × (items.new.items ≡ items.old.items ++ item ∷ [])) }
    ensures only { IfErr entered (λ e. e ≡ fault.NoMemory)
        → IfErr result (λ e. e ≡ fault.NoMemory) }
{
    entered?;
    push(items, item)
}

/// Entries that are a policy, what is kept of their aliases, their weight, and the length of their
/// canonical text.
#[derive(Drop)]
pub struct Draft {
    /// The entries, in order.
    pub entries: Vec<Entry>,
    /// Where each alias is defined, its weight and its depth.
    pub scope: AliasKinds,
    /// What the rules weigh.
    pub weight: usize,
    /// How many bytes the canonical text has.
    pub text_len: usize,
}

impl Draft {
    /// A draft without entries.
    pub fn new(alloc: Global) -> Draft
        ensures draft { IsDraft result }
        ensures none { result.entries.items ≡ [] }
    {
        Draft {
            entries: Vec::new(alloc),
            scope: AliasKinds::new(alloc),
            weight: 0,
            text_len: 0,
        }
    }

    /// Adds one more entry at the end.
    ///
    /// Fails with `AliasTwice` if the entry defines an alias that is already defined in its kind,
    /// else with `UnknownAlias` if it uses one that is not defined, else with `TooLarge` if the
    /// whole is past a limit; and with `NoMemory` if memory runs out. After a failure nothing is
    /// promised about the draft.
    pub fn add(&mut self, alloc: Global, entry: Entry) -> Result<(), LineFault>
        requires draft { IsDraft self.old }
        requires entry { IsEntry entry }
        ensures found { OnOk result (Adds self.old self.new (entry ∷ [])) }
        ensures only { IsPolicy (self.old.entries.items ++ entry ∷ [])
            → IfErr result (λ e. e ≡ fault.NoMemory) }
    {
        // One call takes the entry, whether it was entered or not.
        let entered = self.enter(alloc, &entry);
        push_entered(&mut self.entries, entry, entered)
    }

    /// Enters what an entry defines, its weight and its length, and leaves the entries as they are.
    /// It fails as `add` does.
    fn enter(&mut self, alloc: Global, entry: &Entry) -> Result<(), LineFault>
        requires draft { IsDraft self.old }
        requires entry { IsEntry entry.now }
        ensures found { OnOk result (IsWhole (self.old.entries.items
            ++ entry.now ∷ []) self.new.scope self.new.weight self.new.text_len) }
        ensures only { IsPolicy (self.old.entries.items ++ entry.now ∷ [])
            → IfErr result (λ e. e ≡ fault.NoMemory) }
        ensures entries { self.new.entries ≡ self.old.entries }
    {
        let place = self.entries.len();
        let more = self.scope.enter(alloc, place, entry)?;
        let len = line_len(entry);
        if place >= MOST_ENTRIES
            || more > MOST_WEIGHT - self.weight
            || len > MOST_TEXT_BYTES - self.text_len
        {
            return Err(LineFault::TooLarge);
        }
        self.weight += more;
        self.text_len += len;
        Ok(())
    }
}
