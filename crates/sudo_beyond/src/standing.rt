//! What stands in a policy.

ghost use Rattle.std.specs.Prelude.{◌≡◌, ◌++◌, OnOk};
ghost use Rattle.sudo_policy.specs.Policy.{IsPolicy};
ghost use Rattle.sudo_beyond.specs.Standing.{names_in, users, users_of, hosts};
ghost use Rattle.sudo_beyond.specs.Standing.{hosts_of, runas, runas_of};

use sudo_policy::{Entry, Item, Policy, Signed};
use sudo_words::{Form, HostName, Name, NoMemory, Word};

/// Adds the names of a list.
fn push_names<F: Form + Clone>(
    names: &mut Vec<Word<F>>,
    list: &[Signed<Item<Word<F>>>],
) -> Result<(), NoMemory>
    ensures { OnOk result (names.new.items ≡ names.old.items ++ names_in list.now) }
{
    for x in list {
        if let Item::Name(name) = &x.item {
            names.push(name.clone()?)?;
        }
    }
    Ok(())
}

/// Adds the users of an entry's list.
fn push_entry_users(names: &mut Vec<Name>, entry: &Entry) -> Result<(), NoMemory>
    ensures { OnOk result (names.new.items ≡ names.old.items ++ names_in (users_of entry.now)) }
{
    match entry {
        Entry::UserAlias(_, list) => push_names(names, list.as_slice()),
        Entry::Rule(rule) => push_names(names, rule.users.as_slice()),
        _ => Ok(()),
    }
}

/// Adds the users that stand in a policy.
pub fn push_users(names: &mut Vec<Name>, p: &Policy) -> Result<(), NoMemory>
    ensures policy { IsPolicy p.now }
    ensures users { OnOk result (names.new.items ≡ names.old.items ++ users p.now) }
{
    for entry in p.entries() {
        push_entry_users(names, entry)?;
    }
    Ok(())
}

fn push_entry_hosts(names: &mut Vec<HostName>, entry: &Entry) -> Result<(), NoMemory>
    ensures { OnOk result (names.new.items ≡ names.old.items ++ names_in (hosts_of entry.now)) }
{
    match entry {
        Entry::HostAlias(_, list) => push_names(names, list.as_slice()),
        Entry::Rule(rule) => push_names(names, rule.hosts.as_slice()),
        _ => Ok(()),
    }
}

/// Adds the hosts that stand in a policy.
pub fn push_hosts(names: &mut Vec<HostName>, p: &Policy) -> Result<(), NoMemory>
    ensures { OnOk result (names.new.items ≡ names.old.items ++ hosts p.now) }
{
    for entry in p.entries() {
        push_entry_hosts(names, entry)?;
    }
    Ok(())
}

fn push_entry_targets(names: &mut Vec<Name>, entry: &Entry) -> Result<(), NoMemory>
    ensures { OnOk result (names.new.items ≡ names.old.items ++ names_in (runas_of entry.now)) }
{
    match entry {
        Entry::RunasAlias(_, list) => push_names(names, list.as_slice()),
        Entry::Rule(rule) => push_names(names, rule.runas.as_slice()),
        _ => Ok(()),
    }
}

/// Adds the targets that stand in a policy.
pub fn push_targets(names: &mut Vec<Name>, p: &Policy) -> Result<(), NoMemory>
    ensures { OnOk result (names.new.items ≡ names.old.items ++ runas p.now) }
{
    for entry in p.entries() {
        push_entry_targets(names, entry)?;
    }
    Ok(())
}
