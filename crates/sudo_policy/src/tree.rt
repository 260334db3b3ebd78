//! What a line says, before what a command inherits is filled in.

use crate::entry::{CmndItem, Item, Signed};
use crate::tags::{GivenTags, Tags};
use sudo_words::{AliasName, HostName, Items, Moment, Name};

/// A definition of an alias: `NAME = LIST`.
#[derive(Drop)]
pub struct Definition<T> {
    /// The alias.
    pub name: AliasName,
    /// The alias's list.
    pub list: Items<Signed<T>>,
}

/// A command of a user specification, with the settings that it gives itself.
#[derive(Drop)]
pub struct CmndSpec {
    /// The targets in parentheses, if the command has any.
    pub runas: Option<Items<Signed<Item<Name>>>>,
    /// The date of `NOTBEFORE`, if the command has that option.
    pub not_before: Option<Moment>,
    /// The date of `NOTAFTER`, if the command has that option.
    pub not_after: Option<Moment>,
    /// What the command's own tags say.
    pub tags: GivenTags,
    /// The command, or its alias.
    pub cmnd: Signed<CmndItem>,
}

/// Hosts and the commands that may run on them.
#[derive(Drop)]
pub struct Part {
    /// The hosts.
    pub hosts: Items<Signed<Item<HostName>>>,
    /// The commands.
    pub specs: Items<CmndSpec>,
}

/// The settings after some commands of a list, which hold for the commands that follow.
#[derive(Drop)]
pub struct Settings {
    /// The targets that were given last, or `root` if none were.
    pub runas: Items<Signed<Item<Name>>>,
    /// The date of `NOTBEFORE` that was given last.
    pub not_before: Option<Moment>,
    /// The date of `NOTAFTER` that was given last.
    pub not_after: Option<Moment>,
    /// The tags that hold.
    pub tags: Tags,
}

/// A line: definitions of aliases of one kind, or a user specification.
#[derive(Drop)]
pub enum Line {
    /// `User_Alias`.
    Users(Items<Definition<Item<Name>>>),
    /// `Runas_Alias`.
    Runas(Items<Definition<Item<Name>>>),
    /// `Host_Alias`.
    Hosts(Items<Definition<Item<HostName>>>),
    /// `Cmnd_Alias`.
    Cmnds(Items<Definition<CmndItem>>),
    /// Users, and what they may run on which hosts.
    UserSpec(Items<Signed<Item<Name>>>, Items<Part>),
}
