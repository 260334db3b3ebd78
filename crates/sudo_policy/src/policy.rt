//! Policies in normal form.

ghost use Rattle.std.specs.Prelude.{◌≡◌, ◌↔◌, IsTrue, length, reverse, false, MatchOption};
ghost use Rattle.std.specs.List.{AllByRecursion};
ghost use Rattle.sudo_policy.specs.Alias.{DefinedAt, is_defined, user_def, runas_def, host_def};
ghost use Rattle.sudo_policy.specs.Alias.{cmnd_def, user_defs, runas_defs, host_defs, cmnd_defs};
ghost use Rattle.sudo_policy.specs.Printing.{canon};
ghost use Rattle.sudo_policy.specs.Policy.{KnowsRule, weight};
ghost use Rattle.sudo_policy.specs.private.AliasKinds.{IsDraft as IsGrown};

use crate::draft::Draft;
use crate::entry::{CmndItem, Entry, Item, Rule, Signed};
use std::fmt;
use std::marker::Model;
use sudo_words::{AliasName, HostName, Name};

/// A policy in normal form, which contracts see as the list of its entries.
///
/// A policy has at most 16,384 entries, a weight of at most 131,072 and a canonical text of at most
/// 16 MiB. Each alias is defined once in its kind, above its uses, with a depth of at most 64.
#[derive(Drop)]
pub struct Policy {
    draft: Draft,
}

impl Model for Policy {
    ghost use Rattle.std.specs.Prelude.{List};
    ghost use Rattle.sudo_policy.specs.declared.entry.Entry.{Entry};

    ghost Value = { List Entry };

    ghost use Rattle.sudo_policy.specs.private.AliasKinds.{IsDraft};

    ghost view = { λ p. p.draft.entries.items };

    ghost invariant = { λ p. IsDraft p.draft };
}

impl fmt::Debug for Policy {
    fn fmt<W: fmt::Write>(&self, f: &mut fmt::Formatter<W>) -> fmt::Result {
        self.draft.entries.fmt(f)
    }
}

impl Policy {
    ghost use Rattle.sudo_policy.specs.Policy.{IsPolicy};

    /// The entries, in order.
    pub fn entries(&self) -> &[Entry]
        ensures value { result.now ≡ self.now }
        ensures policy { IsPolicy self.now }
    {
        &self.draft.entries
    }

    /// How much the policy weighs.
    pub fn weight(&self) -> usize
        ensures { result ≡ weight self.now }
    {
        self.draft.weight
    }

    /// How many bytes the policy's canonical text has.
    pub fn text_len(&self) -> usize
        ensures { result ≡ length (canon self.now) }
    {
        self.draft.text_len
    }

    /// Where the alias of users is defined, and its list. It takes no memory.
    pub fn user_alias(&self, name: &AliasName) -> Option<(usize, &[Signed<Item<Name>>])>
        ensures { MatchOption result (is_defined (user_defs self.now) name.now
            ≡ false) (λ x. DefinedAt user_def self.now x.0 name.now x.1.now) }
    {
        let alias = self.draft.scope.users.get(name)?;
        match self.draft.entries.get(alias.place) {
            Some(Entry::UserAlias(_, list)) => Some((alias.place, list.as_slice())),
            _ => None,
        }
    }

    /// Where the alias of targets is defined, and its list. It takes no memory.
    pub fn runas_alias(&self, name: &AliasName) -> Option<(usize, &[Signed<Item<Name>>])>
        ensures { MatchOption result (is_defined (runas_defs self.now) name.now
            ≡ false) (λ x. DefinedAt runas_def self.now x.0 name.now x.1.now) }
    {
        let alias = self.draft.scope.runas.get(name)?;
        match self.draft.entries.get(alias.place) {
            Some(Entry::RunasAlias(_, list)) => Some((alias.place, list.as_slice())),
            _ => None,
        }
    }

    /// Where the alias of hosts is defined, and its list. It takes no memory.
    pub fn host_alias(&self, name: &AliasName) -> Option<(usize, &[Signed<Item<HostName>>])>
        ensures { MatchOption result (is_defined (host_defs self.now) name.now
            ≡ false) (λ x. DefinedAt host_def self.now x.0 name.now x.1.now) }
    {
        let alias = self.draft.scope.hosts.get(name)?;
        match self.draft.entries.get(alias.place) {
            Some(Entry::HostAlias(_, list)) => Some((alias.place, list.as_slice())),
            _ => None,
        }
    }

    /// Where the alias of commands is defined, and its list. It takes no memory.
    pub fn cmnd_alias(&self, name: &AliasName) -> Option<(usize, &[Signed<CmndItem>])>
        ensures { MatchOption result (is_defined (cmnd_defs self.now) name.now
            ≡ false) (λ x. DefinedAt cmnd_def self.now x.0 name.now x.1.now) }
    {
        let alias = self.draft.scope.cmnds.get(name)?;
        match self.draft.entries.get(alias.place) {
            Some(Entry::CmndAlias(_, list)) => Some((alias.place, list.as_slice())),
            _ => None,
        }
    }

    /// Whether each alias in the rules is defined, in the kind of its place. It takes no memory.
    pub fn knows(&self, rules: &[Rule]) -> bool
        ensures { IsTrue result ↔ AllByRecursion (KnowsRule (reverse self.now)) rules.now }
    {
        self.draft.scope.knows(rules)
    }

    /// Gives the entries back, in order.
    pub fn into_entries(self) -> Vec<Entry>
        ensures value { result.items ≡ self }
        ensures policy { IsPolicy self }
    {
        let Draft { entries, .. } = self.draft;
        entries
    }

    /// The policy of a draft's entries.
    pub fn of(draft: Draft) -> Policy
        requires { IsGrown draft }
        ensures { result ≡ draft.entries.items }
    {
        Policy { draft }
    }
}
