//! The aliases of one kind: where each is defined, how much it weighs and how deep it is.

ghost use Rattle.std.specs.Prelude.{◌≡◌, ◌+◌, ◌∷◌, [], List, ℕ, Option, max};
ghost use Rattle.std.specs.Prelude.{MatchOption, OnOk, OnErr, IfOk, IfErr, Some};
ghost use Rattle.std.specs.Option.{option_copied};
ghost use Rattle.sudo_policy.specs.Alias.{item_alias, cmnd_alias};
ghost use Rattle.sudo_policy.specs.private.Measures.{alias_at, stopped, IsUnmeasured};
ghost use Rattle.sudo_policy.specs.private.Measures.{IsMeasured, IsItemUnmeasured};
ghost use Rattle.sudo_policy.specs.private.Measures.{IsItemMeasured, IsDefinable, Defines};
ghost use Rattle.sudo_policy.specs.declared.fault.LineFault.TheVariants as fault;

use crate::entry::{CmndItem, Item, Signed};
use crate::fault::LineFault;
use std::alloc::Global;
use std::collections::HashMap;
use sudo_words::{AliasName, Form, Word};

/// The greatest weight of a policy.
pub const MOST_WEIGHT: usize = 131_072;

/// One more than the greatest weight: a weight past the limit is kept as this.
const TOO_HEAVY: usize = MOST_WEIGHT + 1;

/// The greatest depth of an alias.
const MOST_DEPTH: usize = 64;

/// An item of a list, which may be an alias.
pub trait Aliased {
    ghost alias_of: { Self → Option (List ℕ) };

    /// The name of the alias, if the item is one.
    fn alias(&self) -> Option<&AliasName>
        ensures { option_copied result ≡ alias_of self.now };
}

impl<F: Form> Aliased for Item<Word<F>> {
    ghost alias_of = { item_alias };

    fn alias(&self) -> Option<&AliasName> {
        match self {
            Item::All => None,
            Item::Name(_) => None,
            Item::Alias(name) => Some(name),
        }
    }
}

impl Aliased for CmndItem {
    ghost alias_of = { cmnd_alias };

    fn alias(&self) -> Option<&AliasName> {
        match self {
            CmndItem::Alias(name) => Some(name),
            CmndItem::Cmnd(_) => None,
        }
    }
}

/// How much a list weighs, and how deep the aliases in it are.
#[derive(Clone, Copy)]
pub struct Measure {
    /// The weight, which stops at `TOO_HEAVY`.
    pub weight: usize,
    /// The greatest depth of the aliases in the list, or 0 if the list has none.
    pub depth: usize,
}

impl Measure {
    /// The measure of two lists together.
    pub fn with(self, other: Measure) -> Measure
        ensures weight { result.weight ≡ stopped (self.weight + other.weight) }
        ensures depth { result.depth ≡ max self.depth other.depth }
    {
        Measure {
            weight: self.weight.saturating_add(other.weight).min(TOO_HEAVY),
            depth: self.depth.max(other.depth),
        }
    }
}

/// What is kept for each alias.
#[derive(Clone, Copy)]
pub struct Alias {
    /// The place of the alias's definition among the policy's entries.
    pub place: usize,
    /// The alias's weight, and its depth.
    pub measure: Measure,
}

/// The aliases of one kind, by name.
#[derive(Drop)]
pub struct Aliases {
    known: HashMap<String, Alias>,
}

impl Aliases {
    /// No aliases.
    pub fn new(alloc: Global) -> Aliases
        ensures { (name : List ℕ) → alias_at result name ≡ None }
    {
        Aliases {
            known: HashMap::new(alloc),
        }
    }

    /// What is kept for the alias of this name, if the alias is known. The search takes no memory.
    pub fn get(&self, name: &AliasName) -> Option<Alias>
        ensures { result ≡ alias_at self.now name.now }
    {
        self.known.get(name.as_str()).copied()
    }

    /// The measure of an item, or `None` if the item is an alias that is not known.
    fn measured_item<T: Aliased>(&self, item: &T) -> Option<Measure>
        ensures { MatchOption result (IsItemUnmeasured self.now (T.alias_of item.now))
            (IsItemMeasured self.now (T.alias_of item.now)) }
    {
        match item.alias() {
            None => Some(Measure {
                weight: 1,
                depth: 0,
            }),
            Some(name) => {
                let alias = self.get(name)?;
                Some(alias.measure)
            }
        }
    }

    /// The measure of a list, or `None` if an alias in the list is not known.
    pub fn measured<T: Aliased>(&self, list: &[Signed<T>]) -> Option<Measure>
        ensures { MatchOption result (IsUnmeasured T.alias_of self.now list.now)
            (IsMeasured T.alias_of self.now list.now) }
    {
        let mut all = Measure {
            weight: 0,
            depth: 0,
        };
        for signed in list {
            let here = self.measured_item(&signed.item)?;
            all = all.with(here);
        }
        Some(all)
    }

    /// The measure of a list by which an alias of this name may be defined.
    ///
    /// Fails with `AliasTwice` if the name is already defined, else with `UnknownAlias` if the list
    /// uses an alias that is not defined, else with `TooLarge` if the depth of the new alias is
    /// past the limit.
    fn definable<T: Aliased>(
        &self,
        name: &AliasName,
        list: &[Signed<T>],
    ) -> Result<Measure, LineFault>
        ensures found { IfOk result (λ a. IsDefinable T.alias_of self.now name.now list.now
            × IsMeasured T.alias_of self.now list.now a) }
        ensures only { OnErr result (IsDefinable T.alias_of self.now name.now list.now → ⊥) }
    {
        if self.get(name).is_some() {
            return Err(LineFault::AliasTwice);
        }
        let Some(measure) = self.measured(list) else {
            return Err(LineFault::UnknownAlias);
        };
        if measure.depth >= MOST_DEPTH {
            return Err(LineFault::TooLarge);
        }
        Ok(measure)
    }

    /// Adds a definition that stands at this place. It fails as `definable` does, or with
    /// `NoMemory`.
    pub fn define<T: Aliased>(
        &mut self,
        alloc: Global,
        name: &AliasName,
        place: usize,
        list: &[Signed<T>],
    ) -> Result<(), LineFault>
        ensures found { OnOk result (Defines T.alias_of self.old self.new name.now place list.now) }
        ensures only { IsDefinable T.alias_of self.old name.now list.now
            → IfErr result (λ e. e ≡ fault.NoMemory) }
    {
        let measure = self.definable(name, list)?;
        let alias = Alias {
            place,
            measure: Measure {
                weight: measure.weight,
                depth: measure.depth + 1,
            },
        };
        self.known
            .insert(String::from_str(alloc, name.as_str())?, alias)?;
        Ok(())
    }
}
