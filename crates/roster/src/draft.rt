//! A roster whose texts are not yet known to be names and commands.

use crate::days::Days;
use crate::text::Text;
use std::marker::Model;
use sudo_words::Items;

#[derive(Drop)]
pub(crate) struct DraftCeiling {
    pub(crate) ask: Text,
    pub(crate) approve: Text,
    pub(crate) needs: u64,
    pub(crate) hosts: Items<Text>,
    pub(crate) runas: Items<Text>,
    pub(crate) commands: Items<Text>,
    pub(crate) longest: u64,
}

impl Model for DraftCeiling {
    ghost use Rattle.std.specs.Prelude.{List, ℕ};
    ghost use Rattle.roster.specs.Fields.{CeilingFields};

    ghost Value = { CeilingFields (List ℕ) };

    ghost view = { λ d. record {
      ask = d.ask;
      approve = d.approve;
      needs = d.needs;
      hosts = d.hosts;
      runas = d.runas;
      commands = d.commands;
      longest = d.longest;
    } };
}

#[derive(Drop)]
pub(crate) struct Draft {
    pub(crate) relays: Items<Text>,
    pub(crate) hosts: Items<Text>,
    pub(crate) duties: Items<Text>,
    pub(crate) conflicts: Items<(Text, Text)>,
    pub(crate) people: Items<(Text, Items<(Text, Days)>)>,
    pub(crate) ceilings: Items<(Text, DraftCeiling)>,
}

impl Model for Draft {
    ghost use Rattle.std.specs.Prelude.{List, ℕ};
    ghost use Rattle.roster.specs.Fields.{RosterFields};

    ghost Value = { RosterFields (List ℕ) };

    ghost view = { λ d. record {
      relays = d.relays;
      hosts = d.hosts;
      duties = d.duties;
      conflicts = d.conflicts;
      people = d.people;
      ceilings = d.ceilings;
    } };
}
