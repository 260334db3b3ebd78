//! What a compiled policy is made of: rules whose lists have no aliases.

ghost use Rattle.std.specs.Prelude.{◌≡◌, IfOk};

use crate::few::Few;
use crate::short::Short;
use std::alloc::Global;
use sudo_policy::Tags;
use sudo_words::{Cmnd, Moment, NoMemory};

/// An item of a list of users, hosts or targets that is not an alias.
#[derive(Drop)]
pub enum Plain {
    /// `ALL`.
    All,
    /// The user, host or target with this name.
    Name(Short),
}

impl Plain {
    /// A copy of the item.
    pub(crate) fn copied(&self, alloc: Global) -> Result<Plain, NoMemory>
        ensures { IfOk result (λ x. x ≡ self.now) }
    {
        match self {
            Plain::All => Ok(Plain::All),
            Plain::Name(name) => Ok(Plain::Name(name.copied(alloc)?)),
        }
    }
}

/// A rule whose aliases are written out: each is replaced by the items of its list, turned over
/// where it is negated.
#[derive(Drop)]
pub struct PlainRule {
    /// The users whom it is about.
    pub users: Few<Plain>,
    /// The hosts that it is about.
    pub hosts: Few<Plain>,
    /// The targets that the commands may run as.
    pub runas: Few<Plain>,
    /// The first moment at which it takes part; absent, there is no bound.
    pub not_before: Option<Moment>,
    /// The last moment at which it takes part; absent, there is no bound.
    pub not_after: Option<Moment>,
    /// The tags that the rule has.
    pub tags: Tags,
    /// The commands that it allows, or denies where they are negated.
    pub cmnds: Few<Cmnd>,
}
