//! The aliases that the entries of a policy define, of all four kinds.

ghost use Rattle.std.specs.Prelude.{◌≡◌, ◌++◌, ◌∷◌, [], ◌↔◌, IsTrue, List};
ghost use Rattle.std.specs.Prelude.{length, reverse, MatchOption, IfOk, IfErr};
ghost use Rattle.std.specs.List.{AllByRecursion};
ghost use Rattle.sudo_policy.specs.private.Measures.{stopped};
ghost use Rattle.sudo_policy.specs.Policy.{IsPlaced, entry_weight};
ghost use Rattle.sudo_policy.specs.private.AliasKinds.{AreAliasKinds, RuleIsKnown, rule_weight_in};
ghost use Rattle.sudo_policy.specs.declared.entry.Entry.{Entry as Entered};
ghost use Rattle.sudo_policy.specs.declared.fault.LineFault.TheVariants as fault;

use crate::aliases::Aliases;
use crate::entry::{Entry, Rule};
use crate::fault::LineFault;
use std::alloc::Global;
use std::slice;

/// The aliases of all four kinds. One name may be defined in several.
#[derive(Drop)]
pub struct AliasKinds {
    pub users: Aliases,
    pub runas: Aliases,
    pub hosts: Aliases,
    pub cmnds: Aliases,
}

impl AliasKinds {
    /// No aliases.
    pub fn new(alloc: Global) -> AliasKinds
        ensures { AreAliasKinds [] result }
    {
        AliasKinds {
            users: Aliases::new(alloc),
            runas: Aliases::new(alloc),
            hosts: Aliases::new(alloc),
            cmnds: Aliases::new(alloc),
        }
    }

    /// The weight of the rule, or `None` if an alias in it is not defined in the kind of its place.
    pub fn rule_weight(&self, rule: &Rule) -> Option<usize>
        ensures { MatchOption result (¬ RuleIsKnown self.now rule.now) (λ w.
            RuleIsKnown self.now rule.now × (w ≡ stopped (rule_weight_in self.now rule.now))) }
    {
        let users = self.users.measured(rule.users.as_slice())?;
        let hosts = self.hosts.measured(rule.hosts.as_slice())?;
        let runas = self.runas.measured(rule.runas.as_slice())?;
        let cmnd = self.cmnds.measured(slice::from_ref(&rule.cmnd))?;
        Some(users.with(hosts).with(runas).with(cmnd).weight)
    }

    /// Whether each alias in the rules is defined in the kind of its place.
    pub fn knows(&self, rules: &[Rule]) -> bool
        ensures { IsTrue result ↔ AllByRecursion (RuleIsKnown self.now) rules.now }
    {
        for rule in rules {
            if self.rule_weight(rule).is_none() {
                return false;
            }
        }
        true
    }

    /// Adds what an entry at this place defines, and returns the entry's weight.
    ///
    /// Fails with `AliasTwice` if the name that the entry defines is already defined in its kind,
    /// else with `UnknownAlias` if the entry uses an alias that is not defined, else with
    /// `TooLarge` if the depth of the new alias is past the limit; and with `NoMemory` if memory
    /// runs out.
    pub fn enter(&mut self, alloc: Global, place: usize, entry: &Entry) -> Result<usize, LineFault>
        ensures found { (es : List Entered) → AreAliasKinds es self.old → place ≡ length es
            → IfOk result (λ w. IsPlaced (reverse es) entry.now × AreAliasKinds (es
            ++ entry.now ∷ []) self.new × (w ≡ stopped (entry_weight (reverse es) entry.now))) }
        ensures only { (es : List Entered) → AreAliasKinds es self.old
            → IsPlaced (reverse es) entry.now → IfErr result (λ e. e ≡ fault.NoMemory) }
    {
        match entry {
            Entry::UserAlias(name, list) => {
                self.users.define(alloc, name, place, list.as_slice())?;
                Ok(0)
            }
            Entry::RunasAlias(name, list) => {
                self.runas.define(alloc, name, place, list.as_slice())?;
                Ok(0)
            }
            Entry::HostAlias(name, list) => {
                self.hosts.define(alloc, name, place, list.as_slice())?;
                Ok(0)
            }
            Entry::CmndAlias(name, list) => {
                self.cmnds.define(alloc, name, place, list.as_slice())?;
                Ok(0)
            }
            Entry::Rule(rule) => self.rule_weight(rule).ok_or(LineFault::UnknownAlias),
        }
    }
}
