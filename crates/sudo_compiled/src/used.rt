//! The aliases that rules use, directly or through other aliases: only these are written out.
//!
//! The weight of a policy limits the aliases that its rules use, and no others. A few lines can
//! define aliases that would fill any memory if they were written out and that no rule uses.

ghost use Rattle.std.specs.Prelude.{◌≡◌, ◌||◌, not, true, IfOk};
ghost use Rattle.std.specs.List.{list_all};
ghost use Rattle.sudo_compiled.specs.private.Used.{has, is_item_used, is_list_used};
ghost use Rattle.sudo_compiled.specs.private.Used.{is_alias_used, is_rule_used, is_entry_used};

use crate::kind::{Cmnds, Hosts, Kind, Targets, Users};
use std::alloc::Global;
use std::collections::HashSet;
use std::slice;
use sudo_policy::{Entry, Rule, Signed};
use sudo_words::{AliasName, NoMemory};

/// Names of aliases of one kind.
#[derive(Drop)]
pub(crate) struct NameSet {
    /// Whether the set has every name.
    all: bool,
    names: HashSet<String>,
}

impl NameSet {
    /// Every name, or none.
    fn new(alloc: Global, all: bool) -> NameSet
        ensures { result.all ≡ all }
    {
        NameSet {
            all,
            names: HashSet::new(alloc),
        }
    }

    /// Whether the set has the name.
    pub(crate) fn has(&self, name: &AliasName) -> bool
        ensures { result ≡ has self.now name.now }
    {
        self.all || self.names.contains(name.as_str())
    }

    /// Adds a name.
    fn add(&mut self, alloc: Global, name: &AliasName) -> Result<(), NoMemory> {
        if !self.has(name) {
            self.names.insert(String::from_str(alloc, name.as_str())?)?;
        }
        Ok(())
    }

    /// Adds the names of a list's aliases.
    fn add_list<K: Kind>(
        &mut self,
        alloc: Global,
        list: &[Signed<K::Item>],
    ) -> Result<(), NoMemory> {
        for x in list {
            if let Some(name) = K::alias(&x.item) {
                self.add(alloc, name)?;
            }
        }
        Ok(())
    }

    /// Adds the names of the aliases in an alias's list, if the set has that alias.
    fn add_alias<K: Kind>(
        &mut self,
        alloc: Global,
        name: &AliasName,
        list: &[Signed<K::Item>],
    ) -> Result<(), NoMemory> {
        if self.has(name) {
            self.add_list::<K>(alloc, list)?;
        }
        Ok(())
    }

    /// Whether the item is an alias that the set has, or is not an alias.
    fn has_item<K: Kind>(&self, item: &K::Item) -> bool
        ensures { result ≡ is_item_used self.now (K.alias_of item.now) }
    {
        match K::alias(item) {
            Some(name) => self.has(name),
            None => true,
        }
    }

    /// Whether the set has every alias in the list.
    fn has_list<K: Kind>(&self, list: &[Signed<K::Item>]) -> bool
        ensures { result ≡ is_list_used K.alias_of self.now list.now }
    {
        list.iter().all(|x| self.has_item::<K>(&x.item))
    }

    /// Whether the set has every alias in an alias's list, or does not have that alias.
    fn has_alias<K: Kind>(&self, name: &AliasName, list: &[Signed<K::Item>]) -> bool
        ensures { result ≡ is_alias_used K.alias_of self.now name.now list.now }
    {
        !self.has(name) || self.has_list::<K>(list)
    }
}

/// Names of aliases of all four kinds.
#[derive(Drop)]
pub(crate) struct Used {
    pub users: NameSet,
    pub runas: NameSet,
    pub hosts: NameSet,
    pub cmnds: NameSet,
}

impl Used {
    /// Every name, or none.
    fn new(alloc: Global, all: bool) -> Used
        ensures users { result.users.all ≡ all }
        ensures runas { result.runas.all ≡ all }
        ensures hosts { result.hosts.all ≡ all }
        ensures cmnds { result.cmnds.all ≡ all }
    {
        Used {
            users: NameSet::new(alloc, all),
            runas: NameSet::new(alloc, all),
            hosts: NameSet::new(alloc, all),
            cmnds: NameSet::new(alloc, all),
        }
    }

    /// Adds the aliases in the rule's lists.
    fn add_rule(&mut self, alloc: Global, rule: &Rule) -> Result<(), NoMemory> {
        self.users.add_list::<Users>(alloc, rule.users.as_slice())?;
        self.hosts.add_list::<Hosts>(alloc, rule.hosts.as_slice())?;
        self.runas
            .add_list::<Targets>(alloc, rule.runas.as_slice())?;
        self.cmnds
            .add_list::<Cmnds>(alloc, slice::from_ref(&rule.cmnd))
    }

    /// Adds the aliases that the entry uses, if the entry is a rule or an alias that is used.
    fn add(&mut self, alloc: Global, entry: &Entry) -> Result<(), NoMemory> {
        match entry {
            Entry::UserAlias(name, list) => {
                self.users.add_alias::<Users>(alloc, name, list.as_slice())
            }
            Entry::RunasAlias(name, list) => {
                self.runas
                    .add_alias::<Targets>(alloc, name, list.as_slice())
            }
            Entry::HostAlias(name, list) => {
                self.hosts.add_alias::<Hosts>(alloc, name, list.as_slice())
            }
            Entry::CmndAlias(name, list) => {
                self.cmnds.add_alias::<Cmnds>(alloc, name, list.as_slice())
            }
            Entry::Rule(rule) => self.add_rule(alloc, rule),
        }
    }

    /// The aliases that the rules use. An alias is defined above its uses, so one pass from the
    /// last entry to the first finds every used alias.
    fn found(alloc: Global, entries: &[Entry]) -> Result<Used, NoMemory> {
        let mut used = Used::new(alloc, false);
        for entry in entries.iter().rev() {
            used.add(alloc, entry)?;
        }
        Ok(used)
    }

    /// Whether the sets have every alias in the rule's lists.
    fn has_rule(&self, rule: &Rule) -> bool
        ensures { result ≡ is_rule_used self.now rule.now }
    {
        self.users.has_list::<Users>(rule.users.as_slice())
            && self.hosts.has_list::<Hosts>(rule.hosts.as_slice())
            && self.runas.has_list::<Targets>(rule.runas.as_slice())
            && self.cmnds.has_list::<Cmnds>(slice::from_ref(&rule.cmnd))
    }

    /// Whether the sets have every alias in the entry's lists, or the entry defines an alias that
    /// the sets do not have.
    fn has_entry(&self, entry: &Entry) -> bool
        ensures { result ≡ is_entry_used self.now entry.now }
    {
        match entry {
            Entry::UserAlias(name, list) => self.users.has_alias::<Users>(name, list.as_slice()),
            Entry::RunasAlias(name, list) => self.runas.has_alias::<Targets>(name, list.as_slice()),
            Entry::HostAlias(name, list) => self.hosts.has_alias::<Hosts>(name, list.as_slice()),
            Entry::CmndAlias(name, list) => self.cmnds.has_alias::<Cmnds>(name, list.as_slice()),
            Entry::Rule(rule) => self.has_rule(rule),
        }
    }

    fn has_all(&self, entries: &[Entry]) -> bool
        ensures { result ≡ list_all (is_entry_used self.now) entries.now }
    {
        entries.iter().all(|entry| self.has_entry(entry))
    }

    /// The aliases that the rules use, directly or through other aliases: the aliases that one pass
    /// finds, if a test shows that no used alias is missing, or else every alias.
    pub(crate) fn of(alloc: Global, entries: &[Entry]) -> Result<Used, NoMemory>
        ensures { IfOk result (λ used. list_all (is_entry_used used) entries.now ≡ true) }
    {
        let used = Used::found(alloc, entries)?;
        if used.has_all(entries) {
            return Ok(used);
        }
        Ok(Used::new(alloc, true))
    }
}
