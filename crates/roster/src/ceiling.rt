//! Ceilings.

ghost use Rattle.std.specs.Prelude.{◌≡◌, All};
ghost use Rattle.std.specs.List.{list_any};
ghost use Rattle.sudo_words.specs.Command.{IsLawful};
ghost use Rattle.roster.specs.Commands as commands;

use crate::commands::{has, place_of_dir, place_of_file};
use std::marker::Model;
use sudo_words::{ArgRule, Cmnd, FilePath, HostName, Items, Label, Name};

/// The most that a grant under the ceiling gives, who may ask for one, and who approves it (NIST SP
/// 800-53 AC-6).
#[derive(Debug, Drop)]
pub struct Ceiling {
    pub(crate) ask: Label,
    pub(crate) approve: Label,
    pub(crate) needs: u64,
    pub(crate) hosts: Items<HostName>,
    pub(crate) runas: Items<Name>,
    pub(crate) commands: Items<Cmnd>,
    pub(crate) longest: u64,
    /// The commands once more, in the order in which they are looked up.
    pub(crate) ordered: Items<Cmnd>,
}

impl Model for Ceiling {
    ghost use Rattle.std.specs.Prelude.{All};
    ghost use Rattle.sudo_words.specs.Command.{IsLawful};
    ghost use Rattle.sudo_words.specs.declared.cmnd.Cmnd.{Cmnd};
    ghost use Rattle.roster.specs.private.LookupOrders.{cmnd_order};
    ghost use Rattle.roster.specs.Fields.{CeilingFields};
    ghost use Rattle.roster.specs.private.LookupOrders.{IsInOrder};

    ghost Value = { CeilingFields Cmnd };

    ghost view = { λ d. record {
      ask = d.ask;
      approve = d.approve;
      needs = d.needs;
      hosts = d.hosts;
      runas = d.runas;
      commands = d.commands;
      longest = d.longest;
    } };

    ghost invariant = { λ d. All IsLawful d.commands × IsInOrder cmnd_order d.commands d.ordered };
}

impl Ceiling {
    /// The duty that whoever asks must hold.
    pub fn ask(&self) -> &Label
        ensures { result.now ≡ self.now.ask }
    {
        &self.ask
    }

    /// The duty that whoever approves must hold.
    pub fn approve(&self) -> &Label
        ensures { result.now ≡ self.now.approve }
    {
        &self.approve
    }

    /// How many people must approve: 1 to 3 in each ceiling of a roster.
    pub fn needs(&self) -> u64
        ensures { result ≡ self.now.needs }
    {
        self.needs
    }

    /// The hosts that a grant may name.
    pub fn hosts(&self) -> &[HostName]
        ensures { result.now ≡ self.now.hosts }
    {
        self.hosts.as_slice()
    }

    /// The targets that a grant may name.
    pub fn runas(&self) -> &[Name]
        ensures { result.now ≡ self.now.runas }
    {
        self.runas.as_slice()
    }

    /// The commands that a grant must lie inside.
    pub fn commands(&self) -> &[Cmnd]
        ensures value { result.now ≡ self.now.commands }
        ensures lawful { All IsLawful result.now }
    {
        self.commands.as_slice()
    }

    /// Whether the directory with this path is one of the commands. It takes no memory.
    pub fn has_dir(&self, path: &[u8]) -> bool
        ensures { result ≡ list_any (commands.is_dir path.now) self.now.commands }
    {
        has(self.ordered.as_slice(), &place_of_dir(path))
    }

    /// Whether the file is one of the commands, with this rule for its arguments. It takes no
    /// memory.
    pub fn has_file(&self, file: &FilePath, rule: &ArgRule) -> bool
        ensures { result ≡ list_any (commands.is_file file.now rule.now) self.now.commands }
    {
        has(self.ordered.as_slice(), &place_of_file(file, rule))
    }

    /// The longest window of a grant in seconds: 1 to 2,592,000 in each ceiling of a roster.
    pub fn longest(&self) -> u64
        ensures { result ≡ self.now.longest }
    {
        self.longest
    }
}
