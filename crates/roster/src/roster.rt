//! Rosters.

ghost use Rattle.std.specs.Prelude.{◌≡◌, ◌≢◌, ◌≤◌, IfOk, IfErr, IfSome, MatchResult, option_map};
ghost use Rattle.std.specs.List.{list_any};
ghost use Rattle.sudo_words.specs.declared.cmnd.Cmnd.{Cmnd};
ghost use Rattle.roster.specs.Faults.{IsLeastFault, IsRosterText};
ghost use Rattle.roster.specs.Fields.{RosterFields};
ghost use Rattle.roster.specs.Relations as relations;
ghost use Rattle.roster.specs.Rules as rules;
ghost use Rattle.roster.specs.declared.fault.RosterFault.TheVariants.{NoMemory};

use crate::ceiling::Ceiling;
use crate::content::Content;
use crate::days::Days;
use crate::fault::RosterFault;
use crate::read::content_by;
use crate::relations::{entries_of, entry_of, first_of, give, is_among};
use std::alloc::Global;
use std::fmt;
use std::marker::Model;
use sudo_words::{Day, HostName, Items, Label, Moment, Name};

/// Who holds which duty, which duties conflict, and under which ceilings rights are granted.
///
/// A roster is read from a TOML text, and keeps that text. The look-ups take no memory, and may be
/// made with any names: a person whom the roster does not list holds no duty.
#[derive(Drop)]
pub struct Roster {
    text: String,
    content: Content,
}

impl Model for Roster {
    ghost use Rattle.std.specs.Prelude.{string_bytes};
    ghost use Rattle.roster.specs.Fields.{Reading};
    ghost use Rattle.roster.specs.Faults.{IsRosterText};
    ghost use Rattle.roster.specs.Relations.{IsOrdered};

    ghost Value = { Reading };

    ghost view = { λ r. record { text = string_bytes r.text; says = r.content } };

    ghost invariant = { λ r. IsRosterText (string_bytes r.text) r.content × IsOrdered r.content };
}

impl fmt::Debug for Roster {
    fn fmt<W: fmt::Write>(&self, f: &mut fmt::Formatter<W>) -> fmt::Result {
        fmt::Debug::fmt(&self.text, f)
    }
}

impl Roster {
    /// The roster that is read from the text, or the text's least fault.
    #[tactic(auto, using(crate::proofs::FaultLemmas::only_memory, crate::proofs::Uniqueness::one_roster))]
    pub fn read(alloc: Global, text: &str) -> Result<Roster, RosterFault>
        // What is read is what the text says.
        ensures found { IfOk result (λ r. (r.text ≡ text.now) × IsRosterText text.now r.says) }
        // A roster's text is read as that roster, unless memory runs out: it is refused for
        // nothing else.
        ensures only { (f : RosterFields Cmnd) → IsRosterText text.now f
            → MatchResult result (λ r. r.says ≡ f) (λ e. e ≡ NoMemory) }
        // Any other fault is one that the text has, and the text has none of a lower number.
        ensures least { IfErr result (λ e. e ≢ NoMemory → IsLeastFault text.now e) }
    {
        let kept = String::from_str(alloc, text)?;
        let content = content_by(alloc, text)?;
        Ok(Roster {
            text: kept,
            content,
        })
    }

    /// The text that was read.
    pub fn text(&self) -> &str
        ensures value { result.now ≡ self.now.text }
        ensures roster { IsRosterText result.now self.now.says }
    {
        self.text.as_str()
    }

    /// The people, in the byte order of their names, each with the entries that the text gives
    /// them: duties, each with the days on which it is held.
    pub fn people(&self) -> &[(Name, Items<(Label, Days)>)]
        ensures value { result.now ≡ self.now.says.people }
        ensures rising { relations.AreRising result.now }
    {
        self.content.people.as_slice()
    }

    /// The pairs of duties that conflict, as the text lists them.
    pub fn conflicts(&self) -> &[(Label, Label)]
        ensures { result.now ≡ self.now.says.conflicts }
    {
        self.content.conflicts.as_slice()
    }

    /// Whether the roster lists the person.
    pub fn has_person(&self, person: &Name) -> bool
        ensures { result ≡ relations.has_person self.now.says person.now }
    {
        match entry_of(self.people(), person) {
            Some(_) => true,
            None => false,
        }
    }

    /// The entries that the text gives the person; `None` if the roster does not list the person.
    pub fn entries(&self, person: &Name) -> Option<&[(Label, Days)]>
        ensures { option_map (λ e. e.now) result
            ≡ relations.entry_of self.now.says.people person.now }
    {
        match entry_of(self.people(), person) {
            Some(entries) => Some(entries.as_slice()),
            None => None,
        }
    }

    /// Whether the roster lists the host.
    pub fn has_host(&self, host: &HostName) -> bool
        ensures { result ≡ rules.is_among self.now.says.hosts host.now }
    {
        is_among(self.content.hosts.as_slice(), host.as_str())
    }

    /// Whether the text is one of the roster's relays.
    pub fn has_relay(&self, relay: &str) -> bool
        ensures { result ≡ rules.is_among self.now.says.relays relay.now }
    {
        is_among(self.content.relays.as_slice(), relay)
    }

    /// The first of the relays in byte order. There is always one.
    #[tactic(auto, using(crate::proofs::Texts::some_relay))]
    pub fn first_relay(&self) -> &Label
        ensures { relations.IsFirst self.now.says.relays result.now }
    {
        first_of(self.content.relays.as_slice())
    }

    /// The ceiling of the label, if there is one. One to three people must approve under it.
    pub fn ceiling(&self, label: &Label) -> Option<&Ceiling>
        ensures value { option_map (λ c. c.now) result
            ≡ relations.ceiling_at self.now.says label.now }
        ensures needs { IfSome result (λ c. (1 ≤ c.now.needs) × (c.now.needs ≤ 3)) }
    {
        entry_of(self.content.ceilings.as_slice(), label)
    }

    /// Whether the person holds the duty at the moment.
    pub fn holds(&self, person: &Name, duty: &Label, at: Moment) -> bool
        ensures { result ≡ relations.holds self.now.says person.now duty.now at }
    {
        give(entries_of(self.people(), person), duty, at.day())
    }

    /// Whether the roster lists the two duties as a pair, either way round.
    pub fn conflicting(&self, first: &Label, second: &Label) -> bool
        ensures { result ≡ relations.conflicting self.now.says first.now second.now }
    {
        self.content.conflicts.joins(first, second)
    }

    /// Whether the person may approve or refuse at the moment what the asker asked for under the
    /// ceiling: the person is someone else, holds the approving duty then, and holds no duty then
    /// that conflicts with the approving duty (NIST SP 800-53 AC-5).
    pub fn eligible(&self, person: &Name, asker: &Name, ceiling: &Ceiling, at: Moment) -> bool
        ensures { result ≡ relations.eligible self.now.says person.now asker.now ceiling.now at }
    {
        if *person == *asker {
            return false;
        }
        // (one look-up of the entries serves both tests below)
        let entries = entries_of(self.people(), person);
        let day = at.day();
        give(entries, &ceiling.approve, day) && !self.is_one_against(entries, &ceiling.approve, day)
    }

    /// Whether the person may revoke at the moment what the asker asked for under the ceiling: the
    /// person is the asker, or holds the approving duty then.
    pub fn may_revoke(&self, person: &Name, asker: &Name, ceiling: &Ceiling, at: Moment) -> bool
        ensures { result ≡ relations.may_revoke self.now.says person.now asker.now ceiling.now at }
    {
        *person == *asker || self.holds(person, &ceiling.approve, at)
    }

    /// Whether one of the entries has a duty that conflicts with this one, and the day is one of
    /// its days.
    fn is_one_against(&self, entries: &[(Label, Days)], duty: &Label, day: Day) -> bool
        ensures { result ≡ list_any (relations.is_against self.now.says duty.now day) entries.now }
    {
        self.content.conflicts.join_one(entries, duty, day)
    }
}
