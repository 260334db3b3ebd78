//! What a roster says, with its texts read as names and commands.

use crate::ceiling::Ceiling;
use crate::conflicts::Conflicts;
use crate::days::Days;
use std::marker::Model;
use sudo_words::{HostName, Items, Label, Name};

#[derive(Drop)]
pub(crate) struct Content {
    pub(crate) relays: Items<Label>,
    pub(crate) hosts: Items<HostName>,
    pub(crate) duties: Items<Label>,
    pub(crate) conflicts: Conflicts,
    pub(crate) people: Items<(Name, Items<(Label, Days)>)>,
    pub(crate) ceilings: Items<(Label, Ceiling)>,
}

impl Model for Content {
    ghost use Rattle.sudo_words.specs.declared.cmnd.Cmnd.{Cmnd};
    ghost use Rattle.roster.specs.Fields.{RosterFields};

    ghost Value = { RosterFields Cmnd };

    ghost view = { λ d. record {
      relays = d.relays;
      hosts = d.hosts;
      duties = d.duties;
      conflicts = d.conflicts;
      people = d.people;
      ceilings = d.ceilings;
    } };
}
