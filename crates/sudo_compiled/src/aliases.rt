//! The aliases of a policy, of all four kinds.

ghost use Rattle.std.specs.Prelude.{◌≡◌, ◌∷◌, [], List, reverse, true, IfOk, OnOk};
ghost use Rattle.std.specs.List.{AllByRecursion, list_all};
ghost use Rattle.sudo_policy.specs.declared.entry.Entry.{Entry as PolicyEntry};
ghost use Rattle.sudo_compiled.specs.declared.used.Used.{Used as UsedAliases};
ghost use Rattle.sudo_compiled.specs.private.Used.{is_entry_used};
ghost use Rattle.sudo_compiled.specs.private.Writing.{AreKnown, CoversEntry};

use crate::kind::{Cmnds, Hosts, Targets, Users};
use crate::known::Known;
use crate::plain::Plain;
use crate::used::Used;
use crate::writing::define;
use std::alloc::Global;
use sudo_policy::Entry;
use sudo_words::{Cmnd, NoMemory};

/// The used aliases of all four kinds, each written out.
#[derive(Drop)]
pub(crate) struct Aliases {
    pub users: Known<Plain>,
    pub runas: Known<Plain>,
    pub hosts: Known<Plain>,
    pub cmnds: Known<Cmnd>,
}

impl Aliases {
    /// No aliases.
    fn new(alloc: Global) -> Aliases
        ensures { (used : UsedAliases) → AreKnown used [] result }
    {
        Aliases {
            users: Known::new(alloc),
            runas: Known::new(alloc),
            hosts: Known::new(alloc),
            cmnds: Known::new(alloc),
        }
    }

    /// Adds the alias that an entry defines, if that alias is used, written out by the aliases
    /// above it.
    fn enter(&mut self, alloc: Global, used: &Used, entry: &Entry) -> Result<(), NoMemory>
        ensures { OnOk result ((above : List PolicyEntry)
            → is_entry_used used.now entry.now ≡ true → AreKnown used.now above self.old
            → AreKnown used.now (entry.now ∷ above) self.new) }
    {
        match entry {
            Entry::UserAlias(name, list) => {
                define::<Users>(alloc, &mut self.users, &used.users, name, list.as_slice())
            }
            Entry::RunasAlias(name, list) => {
                define::<Targets>(alloc, &mut self.runas, &used.runas, name, list.as_slice())
            }
            Entry::HostAlias(name, list) => {
                define::<Hosts>(alloc, &mut self.hosts, &used.hosts, name, list.as_slice())
            }
            Entry::CmndAlias(name, list) => {
                define::<Cmnds>(alloc, &mut self.cmnds, &used.cmnds, name, list.as_slice())
            }
            Entry::Rule(_) => Ok(()),
        }
    }

    /// The used aliases that the entries define, each written out once.
    fn entered(alloc: Global, used: &Used, entries: &[Entry]) -> Result<Aliases, NoMemory>
        requires { list_all (is_entry_used used.now) entries.now ≡ true }
        ensures { IfOk result (AreKnown used.now (reverse entries.now)) }
    {
        let mut known = Aliases::new(alloc);
        for entry in entries {
            known.enter(alloc, used, entry)?;
        }
        Ok(known)
    }

    /// The aliases that the rules among the entries use, each written out once.
    pub(crate) fn of(alloc: Global, entries: &[Entry]) -> Result<Aliases, NoMemory>
        ensures { IfOk result (λ known.
            AllByRecursion (CoversEntry (reverse entries.now) known) entries.now) }
    {
        let used = Used::of(alloc, entries)?;
        Aliases::entered(alloc, &used, entries)
    }
}
