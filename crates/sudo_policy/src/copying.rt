//! Copies of entries, each equal to its original.

ghost use Rattle.std.specs.Prelude.{◌≡◌, IfOk};

use crate::entry::{CmndItem, Entry, Item, Rule, Signed};
use std::alloc::AllocError;
use sudo_words::{AliasName, HostName, Items, Name};

/// An alias's name, copied.
fn copy_name(name: &AliasName) -> Result<AliasName, AllocError>
    ensures { IfOk result (λ x. x ≡ name.now) }
{
    name.clone()
}

/// A list of users or of targets, copied.
pub fn copy_names(list: &Items<Signed<Item<Name>>>) -> Result<Items<Signed<Item<Name>>>, AllocError>
    ensures { IfOk result (λ x. x ≡ list.now) }
{
    list.clone()
}

/// A list of hosts, copied.
fn copy_hosts(
    list: &Items<Signed<Item<HostName>>>,
) -> Result<Items<Signed<Item<HostName>>>, AllocError>
    ensures { IfOk result (λ x. x ≡ list.now) }
{
    list.clone()
}

/// The users, the hosts and the targets of a rule, copied.
pub fn copy_lists(
    users: &Items<Signed<Item<Name>>>,
    hosts: &Items<Signed<Item<HostName>>>,
    runas: &Items<Signed<Item<Name>>>,
) -> Result<
    (
        Items<Signed<Item<Name>>>,
        Items<Signed<Item<HostName>>>,
        Items<Signed<Item<Name>>>,
    ),
    AllocError,
>
    ensures { IfOk result (λ x. (x.0 ≡ users.now) × (x.1 ≡ hosts.now) × (x.2 ≡ runas.now)) }
{
    Ok((copy_names(users)?, copy_hosts(hosts)?, copy_names(runas)?))
}

/// A list of commands, copied.
fn copy_cmnds(list: &Items<Signed<CmndItem>>) -> Result<Items<Signed<CmndItem>>, AllocError>
    ensures { IfOk result (λ x. x ≡ list.now) }
{
    list.clone()
}

/// A command with its sign, copied.
fn copy_cmnd(signed: &Signed<CmndItem>) -> Result<Signed<CmndItem>, AllocError>
    ensures { IfOk result (λ x. x ≡ signed.now) }
{
    signed.clone()
}

impl Clone for Rule {
    ghost is_clone = { λ rule copy. copy ≡ rule };

    fn clone(&self) -> Result<Rule, AllocError> {
        let (users, hosts, runas) = copy_lists(&self.users, &self.hosts, &self.runas)?;
        Ok(Rule {
            users,
            hosts,
            runas,
            not_before: self.not_before,
            not_after: self.not_after,
            tags: self.tags,
            cmnd: copy_cmnd(&self.cmnd)?,
        })
    }
}

impl Clone for Entry {
    ghost is_clone = { λ entry copy. copy ≡ entry };

    fn clone(&self) -> Result<Entry, AllocError> {
        match self {
            Entry::UserAlias(name, list) => Ok(Entry::UserAlias(
                copy_name(name)?,
                copy_names(list)?,
            )),
            Entry::RunasAlias(name, list) => Ok(Entry::RunasAlias(
                copy_name(name)?,
                copy_names(list)?,
            )),
            Entry::HostAlias(name, list) => Ok(Entry::HostAlias(
                copy_name(name)?,
                copy_hosts(list)?,
            )),
            Entry::CmndAlias(name, list) => Ok(Entry::CmndAlias(
                copy_name(name)?,
                copy_cmnds(list)?,
            )),
            Entry::Rule(rule) => Ok(Entry::Rule(rule.clone()?)),
        }
    }
}
