//! The questions to a desk. Each question is answered from the set of messages that the desk holds,
//! and changes nothing in the desk.

ghost use Rattle.std.specs.Prelude.{◌≡◌, ◌⊎◌, ◌↔◌, ◌<◌, ◌≤◌, List, false, map, length};
ghost use Rattle.std.specs.Prelude.{IfOk, IfErr, MatchResult, Err, string_bytes};
ghost use Rattle.messages.specs.declared.message.Message.{Message as AnyMessage};
ghost use Rattle.roster.specs.Rules.{is_among};
ghost use Rattle.grants.specs.HostFaults.{most_lines};
ghost use Rattle.store_tables.specs.Sets.{Lists, SameSet};
ghost use Rattle.outcomes.specs.About.{AreTold};
ghost use Rattle.outcomes.specs.HostFile.{Line, AreLines, IsHostFile, IsHostFileAfter, lines_after};
ghost use Rattle.outcomes.specs.LinesLeft as left;
ghost use Rattle.outcomes.specs.Outcomes.{AreLive, ComesTo};
ghost use Rattle.outcomes.specs.Parked.{AreParked};
ghost use Rattle.desk.specs.Refusals.{IsWant};
ghost use Rattle.desk.specs.Serving.{OnlyAsks};
ghost use Rattle.outcomes.specs.Rights.{GivesRights, GivesRightsAfter};
ghost use Rattle.outcomes.specs.Summaries.{AreSummaries};
ghost use Rattle.suspects.specs.LookedAt.{AreReviewed};
ghost use Rattle.desk.specs.declared.refusal.Refusal.TheVariants as refusal;

use crate::desk::Desk;
use crate::holdings::{Holdings, holdings_at, holdings_in};
use crate::loading::known_of;
use crate::refusal::Refusal;
use desk_store::Keeper;
use grants::{Status, Summary};
use messages::Message;
use outcomes::{
    Live, RequestName, host_file_in, live_in, messages_in, parked_in, status_in, summaries_in,
};
use sudo_words::{HostName, Moment};

impl<K: Keeper> Desk<K> {
    /// The status that the messages about the name come to, or none where nobody asks.
    pub fn status_of(&mut self, name: &RequestName) -> Result<Option<Status>, Refusal>
        ensures status { (set : List AnyMessage) → K.is_up self.new.keeper
            → Lists (K.holds self.old.keeper) set
            → IfOk result (ComesTo self.old.roster.says set name.now) }
        ensures err { IfErr result IsWant }
        ensures asks { OnlyAsks K.Keeper self.old self.new result }
    {
        let known = known_of(&self.roster, self.known.take(), &mut self.keeper)?;
        let status = status_in(&self.roster, &known.gathered, name);
        self.known = Some(known);
        Ok(status)
    }

    /// The messages about the asker's request under the number, in no order that is promised. The
    /// answer is none exactly if different requests have the name: then all messages have to be
    /// read. Once the messages are gathered, the call costs what the name has.
    pub fn messages_about(&mut self, asker: &str, no: u32) -> Result<Option<Vec<Message>>, Refusal>
        ensures about { (set : List AnyMessage)
            → K.is_up self.new.keeper → Lists (K.holds self.old.keeper) set
            → IfOk result (AreTold set (record { by = asker.now; no = no })) }
        ensures err { IfErr result IsWant }
        ensures desk { K.is_up self.new.keeper → K.is_desk self.new.keeper }
        ensures asks { OnlyAsks K.Keeper self.old self.new result }
    {
        let known = known_of(&self.roster, self.known.take(), &mut self.keeper)?;
        let list = messages_in(self.alloc, &known.gathered, asker, no);
        self.known = Some(known);
        Ok(list?)
    }

    /// The grants that are in force at the moment, by the asker in byte order, then by the number.
    pub fn live_at(&mut self, at: Moment) -> Result<Vec<Live>, Refusal>
        ensures live { (set : List AnyMessage) → K.is_up self.new.keeper
            → Lists (K.holds self.old.keeper) set
            → IfOk result (λ list. AreLive self.old.roster.says set at list.items) }
        ensures err { IfErr result IsWant }
        ensures asks { OnlyAsks K.Keeper self.old self.new result }
    {
        let known = known_of(&self.roster, self.known.take(), &mut self.keeper)?;
        let list = live_in(self.alloc, &self.roster, &known.gathered, at);
        self.known = Some(known);
        Ok(list?)
    }

    /// The texts of the verdicts that wait for their request, each once, in byte order.
    pub fn parked(&mut self) -> Result<Vec<String>, Refusal>
        ensures parked { (set : List AnyMessage) → K.is_up self.new.keeper
            → Lists (K.holds self.old.keeper) set
            → IfOk result (λ texts. AreParked set (map string_bytes texts.items)) }
        ensures err { IfErr result IsWant }
        ensures asks { OnlyAsks K.Keeper self.old self.new result }
    {
        let known = known_of(&self.roster, self.known.take(), &mut self.keeper)?;
        let texts = parked_in(self.alloc, &known.gathered);
        self.known = Some(known);
        Ok(texts?)
    }

    /// The summaries of what is asked, by the asker in byte order, then by the number: what a
    /// report can be made from.
    pub fn summaries(&mut self) -> Result<Vec<Summary>, Refusal>
        ensures summaries { (set : List AnyMessage)
            → K.is_up self.new.keeper → Lists (K.holds self.old.keeper) set
            → IfOk result (λ list. AreSummaries set list.items) }
        ensures err { IfErr result IsWant }
        ensures held { K.is_up self.new.keeper
            → SameSet (K.holds self.old.keeper) (K.holds self.new.keeper) }
        ensures asks { OnlyAsks K.Keeper self.old self.new result }
    {
        let known = known_of(&self.roster, self.known.take(), &mut self.keeper)?;
        let list = summaries_in(self.alloc, &known.gathered);
        self.known = Some(known);
        Ok(list?)
    }

    /// The summaries and the parked texts: what a report can be made from.
    pub fn holdings(&mut self) -> Result<Holdings, Refusal>
        ensures summaries { (set : List AnyMessage)
            → K.is_up self.new.keeper → Lists (K.holds self.old.keeper) set
            → IfOk result (λ held. AreSummaries set held.summaries.items) }
        ensures parked { (set : List AnyMessage) → K.is_up self.new.keeper
            → Lists (K.holds self.old.keeper) set
            → IfOk result (λ held. AreParked set (map string_bytes held.parked.items)) }
        ensures err { IfErr result IsWant }
        ensures asks { OnlyAsks K.Keeper self.old self.new result }
    {
        let known = known_of(&self.roster, self.known.take(), &mut self.keeper)?;
        let held = holdings_in(self.alloc, &known.gathered);
        self.known = Some(known);
        Ok(held?)
    }

    /// What a report at the moment looks at: the summaries of the grants in force then and of the
    /// names under which an approval may not count, and the parked texts. After a first report the
    /// call costs what these have, however much has ended.
    pub fn holdings_at(&mut self, at: Moment) -> Result<Holdings, Refusal>
        ensures reviewed { (set : List AnyMessage)
            → K.is_up self.new.keeper → Lists (K.holds self.old.keeper) set → IfOk result
            (λ held. AreReviewed self.old.roster.says set at held.summaries.items) }
        ensures parked { (set : List AnyMessage) → K.is_up self.new.keeper
            → Lists (K.holds self.old.keeper) set
            → IfOk result (λ held. AreParked set (map string_bytes held.parked.items)) }
        ensures err { IfErr result IsWant }
        ensures asks { OnlyAsks K.Keeper self.old self.new result }
    {
        let mut known = known_of(&self.roster, self.known.take(), &mut self.keeper)?;
        let held = holdings_at(self.alloc, &self.roster, &mut known, at);
        self.known = Some(known);
        Ok(held?)
    }

    /// The text of the host's sudoers file: the base's canonical text, and after it a line for each
    /// command of each request that is granted on the host, with the first and the last moment of
    /// its window.
    ///
    /// `UnknownHost` comes exactly where the roster has no such host, `TooManyRules` exactly where
    /// the lines after the base are more than 8,192.
    pub fn host_file(&mut self, host: &HostName) -> Result<String, Refusal>
        // The text is the host's file, and so it gives the rights.
        ensures file { (set : List AnyMessage) → K.is_up self.new.keeper
            → Lists (K.holds self.old.keeper) set → IfOk result
            (λ s. IsHostFile self.old.roster.says self.old.base set host.now (string_bytes s)) }
        ensures rights { (set : List AnyMessage) → K.is_up self.new.keeper
            → Lists (K.holds self.old.keeper) set → IfOk result
            (λ s. GivesRights self.old.roster.says self.old.base set host.now (string_bytes s)) }
        // For a host of the roster the call is refused where the lines are too many, and not where
        // they are few.
        ensures unknown { (result ≡ Err refusal.UnknownHost)
            ↔ (is_among self.old.roster.says.hosts host.now ≡ false) }
        ensures few { (set : List AnyMessage) (ls : List Line) → K.is_up self.new.keeper
            → Lists (K.holds self.old.keeper) set → AreLines self.old.roster.says set host.now ls
            → length ls ≤ most_lines → IfErr result (λ e. (e ≡ refusal.UnknownHost) ⊎ IsWant e) }
        ensures many { (set : List AnyMessage) (ls : List Line)
            → K.is_up self.new.keeper → Lists (K.holds self.old.keeper) set
            → AreLines self.old.roster.says set host.now ls
            → most_lines < length ls → MatchResult result
            (λ _. ⊥) (λ e. (e ≡ refusal.UnknownHost) ⊎ (e ≡ refusal.TooManyRules) ⊎ IsWant e) }
        ensures err { IfErr result
            (λ e. (e ≡ refusal.UnknownHost) ⊎ (e ≡ refusal.TooManyRules) ⊎ IsWant e) }
        ensures asks { OnlyAsks K.Keeper self.old self.new result }
    {
        self.file_of(host, None)
    }

    /// The text of the host's file without the lines that end before the moment; a line that ends
    /// at the moment stays.
    ///
    /// `UnknownHost` comes exactly where the roster has no such host, `TooManyRules` exactly where
    /// the lines that are left are more than 8,192.
    pub fn host_file_after(&mut self, host: &HostName, moment: Moment) -> Result<String, Refusal>
        // The text is that file, and so it gives the rights from the moment on.
        ensures file { (set : List AnyMessage) → K.is_up self.new.keeper
            → Lists (K.holds self.old.keeper) set → IfOk result (λ s. IsHostFileAfter
            self.old.roster.says self.old.base set host.now moment (string_bytes s)) }
        ensures rights { (set : List AnyMessage) → K.is_up self.new.keeper
            → Lists (K.holds self.old.keeper) set → IfOk result (λ s. GivesRightsAfter
            self.old.roster.says self.old.base set host.now moment (string_bytes s)) }
        // For a host of the roster the call is refused where too many lines are left, not where few
        // are.
        ensures unknown { (result ≡ Err refusal.UnknownHost)
            ↔ (is_among self.old.roster.says.hosts host.now ≡ false) }
        ensures few { (set : List AnyMessage) (ls : List Line)
            → K.is_up self.new.keeper → Lists (K.holds self.old.keeper) set
            → AreLines self.old.roster.says set host.now ls
            → length (lines_after moment ls) ≤ most_lines
            → IfErr result (λ e. (e ≡ refusal.UnknownHost) ⊎ IsWant e) }
        ensures many { (set : List AnyMessage) (ls : List Line) → K.is_up self.new.keeper
            → Lists (K.holds self.old.keeper) set → AreLines self.old.roster.says set host.now ls
            → most_lines < length (lines_after moment ls) → MatchResult result (λ _. ⊥)
            (λ e. (e ≡ refusal.UnknownHost) ⊎ (e ≡ refusal.TooManyRules) ⊎ IsWant e) }
        ensures err { IfErr result
            (λ e. (e ≡ refusal.UnknownHost) ⊎ (e ≡ refusal.TooManyRules) ⊎ IsWant e) }
        ensures asks { OnlyAsks K.Keeper self.old self.new result }
    {
        self.file_of(host, Some(moment))
    }

    /// The host's file with the lines that are left: without a moment all of them, and with one
    /// those that end then or later.
    fn file_of(&mut self, host: &HostName, after: Option<Moment>) -> Result<String, Refusal>
        ensures file { (set : List AnyMessage) → K.is_up self.new.keeper
            → Lists (K.holds self.old.keeper) set → IfOk result (λ s. left.IsFileLeft
            self.old.roster.says self.old.base set host.now after (string_bytes s)) }
        ensures unknown { (result ≡ Err refusal.UnknownHost)
            ↔ (is_among self.old.roster.says.hosts host.now ≡ false) }
        ensures few { (set : List AnyMessage) (ls : List Line) → K.is_up self.new.keeper
            → Lists (K.holds self.old.keeper) set → AreLines self.old.roster.says set host.now ls
            → length (left.lines_left after ls) ≤ most_lines
            → IfErr result (λ e. (e ≡ refusal.UnknownHost) ⊎ IsWant e) }
        ensures many { (set : List AnyMessage) (ls : List Line) → K.is_up self.new.keeper
            → Lists (K.holds self.old.keeper) set → AreLines self.old.roster.says set host.now ls
            → most_lines < length (left.lines_left after ls) → MatchResult result (λ _. ⊥)
            (λ e. (e ≡ refusal.UnknownHost) ⊎ (e ≡ refusal.TooManyRules) ⊎ IsWant e) }
        ensures err { IfErr result
            (λ e. (e ≡ refusal.UnknownHost) ⊎ (e ≡ refusal.TooManyRules) ⊎ IsWant e) }
        ensures asks { OnlyAsks K.Keeper self.old self.new result }
    {
        if !self.roster.has_host(host) {
            return Err(Refusal::UnknownHost);
        }
        let known = known_of(&self.roster, self.known.take(), &mut self.keeper)?;
        let file = host_file_in(
            self.alloc,
            &self.roster,
            &mut self.base,
            &known.gathered,
            host,
            after,
        );
        self.known = Some(known);
        Ok(file?)
    }
}
