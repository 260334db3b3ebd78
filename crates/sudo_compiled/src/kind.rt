//! The kinds of aliases, and how the items of their lists are written out.

ghost use Rattle.std.specs.Prelude.{◌≡◌, Bool, List, ℕ, Option, IfOk};
ghost use Rattle.std.specs.Option.{option_copied};
ghost use Rattle.sudo_policy.specs.Alias.{item_alias, cmnd_alias};
ghost use Rattle.sudo_decide.specs.declared.invocation.Invocation.{Invocation};
ghost use Rattle.sudo_decide.specs.Decision.{item_answer, cmnd_answer};
ghost use Rattle.sudo_compiled.specs.Compiled.{plain_answer, match_answer};
ghost use Rattle.sudo_compiled.specs.private.Used.{AgreeAt, names_local, cmnds_local};
ghost use Rattle.sudo_compiled.specs.private.Writing.{written_says};

use crate::plain::Plain;
use crate::short::Short;
use std::alloc::Global;
use sudo_policy::{CmndItem, Item};
use sudo_words::{AliasName, Cmnd, Form, HostName, Name, NoMemory, Word};

/// What an item of a list is written out as.
pub(crate) enum Written<'a, P> {
    /// The item itself.
    Own(P),
    /// What the alias's list says.
    Alias(&'a AliasName),
}

/// A kind of aliases. One name may serve several kinds.
pub(crate) trait Kind {
    /// An item of the lists of this kind.
    type Item;

    /// An item of a list without aliases.
    type Plain: Drop;

    /// What an item says about the invocation, given what the aliases say.
    ghost says: { Invocation → (List ℕ → Option Bool) → Self.Item → Option Bool };

    /// What an item that is not an alias says about the invocation.
    ghost plain: { Invocation → Self.Plain → Option Bool };

    /// The name of the alias, if the item is one.
    ghost alias_of: { Self.Item → Option (List ℕ) };

    /// What an item says depends on what its alias says, and on no other alias.
    ghost local: { (i : Invocation) (f g : List ℕ → Option Bool) (item : Self.Item)
        → AgreeAt f g (alias_of item) → says i f item ≡ says i g item };

    /// The name of the alias, if the item is one.
    fn alias<'a>(item: &'a Self::Item) -> Option<&'a AliasName>
        ensures { option_copied result ≡ alias_of item.now };

    /// The item as it is written out: a copy of the item, or the alias that the item is.
    fn written<'a>(
        alloc: Global,
        item: &'a Self::Item,
    ) -> Result<Written<'a, Self::Plain>, NoMemory>
        ensures { IfOk result (λ w. (i : Invocation) (alias_says : List ℕ → Option Bool)
            → written_says (plain i) alias_says w ≡ says i alias_says item.now) };

    /// A copy of an item that is not an alias.
    fn copied(alloc: Global, own: &Self::Plain) -> Result<Self::Plain, NoMemory>
        ensures { IfOk result (λ x. x ≡ own.now) };
}

fn copied_cmnd(cmnd: &Cmnd) -> Result<Cmnd, NoMemory>
    ensures { IfOk result (λ x. x ≡ cmnd.now) }
{
    Ok(cmnd.clone()?)
}

/// The name of the alias, if an item of users, hosts or targets is one.
fn alias_in<F: Form>(item: &Item<Word<F>>) -> Option<&AliasName>
    ensures { option_copied result ≡ item_alias item.now }
{
    match item {
        Item::All => None,
        Item::Name(_) => None,
        Item::Alias(name) => Some(name),
    }
}

/// An item of users, hosts or targets, as it is written out.
fn written_item<'a, F: Form>(
    alloc: Global,
    item: &'a Item<Word<F>>,
) -> Result<Written<'a, Plain>, NoMemory>
    ensures { IfOk result (λ w. (asked : List ℕ) (alias_says : List ℕ → Option Bool)
        → written_says (plain_answer asked) alias_says w ≡ item_answer alias_says asked item.now) }
{
    match item {
        Item::All => Ok(Written::Own(Plain::All)),
        Item::Name(name) => Ok(Written::Own(Plain::Name(Short::of(alloc, name.as_str())?))),
        Item::Alias(name) => Ok(Written::Alias(name)),
    }
}

/// The aliases of users.
pub(crate) struct Users;

impl Kind for Users {
    type Item = Item<Name>;

    type Plain = Plain;

    ghost says = { λ i alias_says item. item_answer alias_says i.user item };

    ghost plain = { λ i x. plain_answer i.user x };

    ghost alias_of = { item_alias };

    ghost local = { λ i f g item. names_local i.user f g item };

    fn alias<'a>(item: &'a Item<Name>) -> Option<&'a AliasName> {
        alias_in(item)
    }

    fn written<'a>(alloc: Global, item: &'a Item<Name>) -> Result<Written<'a, Plain>, NoMemory> {
        written_item(alloc, item)
    }

    fn copied(alloc: Global, own: &Plain) -> Result<Plain, NoMemory> {
        own.copied(alloc)
    }
}

/// The aliases of targets.
pub(crate) struct Targets;

impl Kind for Targets {
    type Item = Item<Name>;

    type Plain = Plain;

    ghost says = { λ i alias_says item. item_answer alias_says i.runas item };

    ghost plain = { λ i x. plain_answer i.runas x };

    ghost alias_of = { item_alias };

    ghost local = { λ i f g item. names_local i.runas f g item };

    fn alias<'a>(item: &'a Item<Name>) -> Option<&'a AliasName> {
        alias_in(item)
    }

    fn written<'a>(alloc: Global, item: &'a Item<Name>) -> Result<Written<'a, Plain>, NoMemory> {
        written_item(alloc, item)
    }

    fn copied(alloc: Global, own: &Plain) -> Result<Plain, NoMemory> {
        own.copied(alloc)
    }
}

/// The aliases of hosts.
pub(crate) struct Hosts;

impl Kind for Hosts {
    type Item = Item<HostName>;

    type Plain = Plain;

    ghost says = { λ i alias_says item. item_answer alias_says i.host item };

    ghost plain = { λ i x. plain_answer i.host x };

    ghost alias_of = { item_alias };

    ghost local = { λ i f g item. names_local i.host f g item };

    fn alias<'a>(item: &'a Item<HostName>) -> Option<&'a AliasName> {
        alias_in(item)
    }

    fn written<'a>(
        alloc: Global,
        item: &'a Item<HostName>,
    ) -> Result<Written<'a, Plain>, NoMemory> {
        written_item(alloc, item)
    }

    fn copied(alloc: Global, own: &Plain) -> Result<Plain, NoMemory> {
        own.copied(alloc)
    }
}

/// The aliases of commands.
pub(crate) struct Cmnds;

impl Kind for Cmnds {
    type Item = CmndItem;

    type Plain = Cmnd;

    ghost says = { λ i alias_says item. cmnd_answer alias_says i.path i.args item };

    ghost plain = { λ i x. match_answer i.path i.args x };

    ghost alias_of = { cmnd_alias };

    ghost local = { λ i f g item. cmnds_local i.path i.args f g item };

    fn alias<'a>(item: &'a CmndItem) -> Option<&'a AliasName> {
        match item {
            CmndItem::Alias(name) => Some(name),
            CmndItem::Cmnd(_) => None,
        }
    }

    fn written<'a>(_alloc: Global, item: &'a CmndItem) -> Result<Written<'a, Cmnd>, NoMemory> {
        match item {
            CmndItem::Alias(name) => Ok(Written::Alias(name)),
            CmndItem::Cmnd(cmnd) => Ok(Written::Own(copied_cmnd(cmnd)?)),
        }
    }

    fn copied(_alloc: Global, own: &Cmnd) -> Result<Cmnd, NoMemory> {
        copied_cmnd(own)
    }
}
