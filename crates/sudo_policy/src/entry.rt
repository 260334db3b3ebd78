//! What a policy is made of, in normal form (sudoers(5), "Aliases" and "User specification").

use crate::tags::Tags;
use sudo_words::{AliasName, Cmnd, HostName, Items, Moment, Name};

/// An item of a list, or its negation.
#[derive(Clone, Debug, Drop)]
pub struct Signed<T> {
    /// Whether the item is negated: an odd number of `!` stands before it.
    pub negated: bool,
    /// What is said or negated.
    pub item: T,
}

/// An item of a list of users, hosts or targets.
#[derive(Clone, Debug, Drop)]
pub enum Item<N> {
    /// `ALL`.
    All,
    /// The user, host or target of this name.
    Name(N),
    /// What the alias's list says.
    Alias(AliasName),
}

/// A command, or an alias of commands.
#[derive(Clone, Debug, Drop)]
pub enum CmndItem {
    /// What the alias's list says.
    Alias(AliasName),
    /// One command.
    Cmnd(Cmnd),
}

/// Who may run which command, on which hosts, as whom and when. What a later command of a list
/// inherits is filled in.
#[derive(Debug, Drop)]
pub struct Rule {
    /// The users whom it is about.
    pub users: Items<Signed<Item<Name>>>,
    /// The hosts that it is about.
    pub hosts: Items<Signed<Item<HostName>>>,
    /// The targets that the command may run as.
    pub runas: Items<Signed<Item<Name>>>,
    /// The first moment at which it takes part; `None` means no bound.
    pub not_before: Option<Moment>,
    /// The last moment at which it takes part; `None` means no bound.
    pub not_after: Option<Moment>,
    /// The tags that the command has.
    pub tags: Tags,
    /// The command that it allows, or denies where it is negated.
    pub cmnd: Signed<CmndItem>,
}

/// A line of a policy in normal form.
#[derive(Debug, Drop)]
pub enum Entry {
    /// `User_Alias NAME = LIST`.
    UserAlias(AliasName, Items<Signed<Item<Name>>>),
    /// `Runas_Alias NAME = LIST`.
    RunasAlias(AliasName, Items<Signed<Item<Name>>>),
    /// `Host_Alias NAME = LIST`.
    HostAlias(AliasName, Items<Signed<Item<HostName>>>),
    /// `Cmnd_Alias NAME = LIST`.
    CmndAlias(AliasName, Items<Signed<CmndItem>>),
    /// One command of a user specification.
    Rule(Rule),
}
