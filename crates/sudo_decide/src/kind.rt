//! The kinds of aliases: where each is defined, and what the items of its lists mean.

ghost use Rattle.std.specs.Prelude.{◌≡◌, Bool, List, [], ℕ, Option, MatchOption, false};
ghost use Rattle.std.specs.List.{flat_map};
ghost use Rattle.sudo_policy.specs.Alias.{DefinedAt, is_defined, user_def};
ghost use Rattle.sudo_policy.specs.Alias.{runas_def, host_def, cmnd_def};
ghost use Rattle.sudo_policy.specs.Policy.{IsPolicy};
ghost use Rattle.sudo_policy.specs.declared.entry.Entry.{Entry};
ghost use Rattle.sudo_policy.specs.declared.tree.Definition.{Definition};
ghost use Rattle.sudo_decide.specs.declared.invocation.Invocation.{Invocation as Asked};
ghost use Rattle.sudo_decide.specs.Decision.{item_answer, cmnd_answer};
ghost use Rattle.sudo_decide.specs.Kinds.{meant, AreNew, user_aliases_new, runas_aliases_new};
ghost use Rattle.sudo_decide.specs.Kinds.{host_aliases_new, cmnd_aliases_new};

use crate::invocation::Invocation;
use sudo_policy::{CmndItem, Item, Policy, Signed};
use sudo_words::{AliasName, Form, HostName, Name, Word};

/// What an item of a list means.
pub(crate) enum Meaning<'a> {
    /// This answer.
    Answer(Option<bool>),
    /// What the alias's list says.
    Alias(&'a AliasName),
}

/// A kind of aliases. One name may serve several kinds.
pub(crate) trait Kind {
    /// An item of the lists of this kind.
    type Item;

    /// The aliases of the kind that an entry defines.
    ghost def: { Entry → List (Definition Self.Item) };

    /// What an item says about the invocation, given what the aliases say.
    ghost says: { Asked → (List ℕ → Option Bool) → Self.Item → Option Bool };

    /// The place where the alias is defined, and its list.
    fn definition<'a>(p: &'a Policy, name: &AliasName) -> Option<(usize, &'a [Signed<Self::Item>])>
        ensures { MatchOption result (is_defined (flat_map def p.now) name.now
            ≡ false) (λ x. DefinedAt def p.now x.0 name.now x.1.now) };

    /// What the item means for this invocation.
    fn meaning<'a>(item: &'a Self::Item, i: &Invocation) -> Meaning<'a>
        ensures { (alias_says : List ℕ → Option Bool)
            → meant alias_says result ≡ says i.now alias_says item.now };

    /// A policy defines each alias of the kind once.
    ghost once: { (es : List Entry) → IsPolicy es → AreNew def [] es };
}

/// `ALL` says yes, a name says yes if it is the one asked for, and an alias says what its list
/// says.
fn name_meaning<'a, F: Form>(item: &'a Item<Word<F>>, asked: &Word<F>) -> Meaning<'a>
    ensures { (alias_says : List ℕ → Option Bool)
        → meant alias_says result ≡ item_answer alias_says asked.now item.now }
{
    match item {
        Item::All => Meaning::Answer(Some(true)),
        Item::Name(name) => Meaning::Answer((name == asked).then_some(true)),
        Item::Alias(name) => Meaning::Alias(name),
    }
}

/// The aliases of users.
pub(crate) struct Users;

impl Kind for Users {
    type Item = Item<Name>;

    ghost def = { user_def };

    ghost says = { λ i alias_says item. item_answer alias_says i.user item };

    fn definition<'a>(
        p: &'a Policy,
        name: &AliasName,
    ) -> Option<(usize, &'a [Signed<Item<Name>>])> {
        p.user_alias(name)
    }

    fn meaning<'a>(item: &'a Item<Name>, i: &Invocation) -> Meaning<'a> {
        name_meaning(item, &i.user)
    }

    ghost once = { user_aliases_new };
}

/// The aliases of targets.
pub(crate) struct Targets;

impl Kind for Targets {
    type Item = Item<Name>;

    ghost def = { runas_def };

    ghost says = { λ i alias_says item. item_answer alias_says i.runas item };

    fn definition<'a>(
        p: &'a Policy,
        name: &AliasName,
    ) -> Option<(usize, &'a [Signed<Item<Name>>])> {
        p.runas_alias(name)
    }

    fn meaning<'a>(item: &'a Item<Name>, i: &Invocation) -> Meaning<'a> {
        name_meaning(item, &i.runas)
    }

    ghost once = { runas_aliases_new };
}

/// The aliases of hosts.
pub(crate) struct Hosts;

impl Kind for Hosts {
    type Item = Item<HostName>;

    ghost def = { host_def };

    ghost says = { λ i alias_says item. item_answer alias_says i.host item };

    fn definition<'a>(
        p: &'a Policy,
        name: &AliasName,
    ) -> Option<(usize, &'a [Signed<Item<HostName>>])> {
        p.host_alias(name)
    }

    fn meaning<'a>(item: &'a Item<HostName>, i: &Invocation) -> Meaning<'a> {
        name_meaning(item, &i.host)
    }

    ghost once = { host_aliases_new };
}

/// The aliases of commands.
pub(crate) struct Cmnds;

impl Kind for Cmnds {
    type Item = CmndItem;

    ghost def = { cmnd_def };

    ghost says = { λ i alias_says item. cmnd_answer alias_says i.path i.args item };

    fn definition<'a>(p: &'a Policy, name: &AliasName) -> Option<(usize, &'a [Signed<CmndItem>])> {
        p.cmnd_alias(name)
    }

    /// A command says yes where it matches.
    fn meaning<'a>(item: &'a CmndItem, i: &Invocation) -> Meaning<'a> {
        match item {
            CmndItem::Alias(name) => Meaning::Alias(name),
            CmndItem::Cmnd(cmnd) => {
                Meaning::Answer(cmnd.matches(&i.path, i.args.as_slice()).then_some(true))
            }
        }
    }

    ghost once = { cmnd_aliases_new };
}
