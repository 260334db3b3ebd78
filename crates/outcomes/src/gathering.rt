//! What is known of a set of messages, as one message after another joins it.

ghost use Rattle.std.specs.Prelude.{◌≡◌, List, [], ◌∷◌, ◌++◌, map, Contains};
ghost use Rattle.std.specs.Prelude.{IfOk, OnOk, OnErr, MatchResult, None};
ghost use Rattle.std.specs.BTreeMap.{IsOrdered};
ghost use Rattle.messages.specs.Fields.{VerdictFields};
ghost use Rattle.messages.specs.Names.{IsAbout, name_cmp, name_of};
ghost use Rattle.messages.specs.NameRows.{ShowSet};
ghost use Rattle.messages.specs.declared.name_row.NameRow.{NameRow as AnyRow};
ghost use Rattle.messages.specs.declared.request_name.RequestName.{RequestName as AnyName};
ghost use Rattle.messages.specs.declared.message.Message.{Message as AnyMessage};
ghost use Rattle.messages.specs.declared.message.Message.TheVariants as message_of;
ghost use Rattle.grants.specs.Summaries.{StandsFor};
ghost use Rattle.outcomes.specs.Gathered.{AreGathered};
ghost use Rattle.outcomes.specs.private.ByName.{AreAlone, AreByName, Gathers};
ghost use Rattle.outcomes.specs.private.ByName.{GathersRows, HasNoVerdict, IsByName};
ghost use Rattle.outcomes.specs.private.ByName.{IsRowOf, at_name, verdicts_at};
ghost use Rattle.outcomes.specs.private.Index.{AreListed};
ghost use Rattle.outcomes.specs.declared.index.Index.{Index as AnyIndex};

use crate::index::Index;
use grants::{Summary, apply, ask, ask_again, ask_disputed};
use messages::{Message, NameRow, Request, RequestName, Verdict};
use std::alloc::Global;
use std::collections::BTreeMap;
use std::marker::Model;
use sudo_words::NoMemory;

/// What is known of a set of messages: a summary for each name that somebody asks under, and the
/// verdicts that wait for their request, by name. A verdict is kept as it is until its request
/// comes, and is part of the summary from then on. The index has the names by the ends that the
/// requests ask for, for each host and for all requests, so that ended ones cost nothing.
#[derive(Drop)]
pub struct Gathered {
    pub(crate) alloc: Global,
    pub(crate) summaries: BTreeMap<RequestName, Summary>,
    pub(crate) waiting: BTreeMap<RequestName, Vec<Verdict>>,
    pub(crate) index: Index,
}

impl Model for Gathered {
    ghost use Rattle.std.specs.BTreeMap.{values};
    ghost use Rattle.outcomes.specs.Gathered.{Known};
    ghost use Rattle.outcomes.specs.private.ByName.{IsByName, in_turn};
    ghost use Rattle.outcomes.specs.private.Index.{AreListed};

    ghost Value = { Known };

    ghost view = { λ g. record {
      summaries = values g.summaries;
      waiting = in_turn (values g.waiting);
    } };

    ghost invariant = { λ g. IsByName g.summaries g.waiting × AreListed g.index g.summaries };
}

/// The verdicts that wait under a name.
pub(crate) fn waited<'a>(
    waiting: &'a BTreeMap<RequestName, Vec<Verdict>>,
    name: &RequestName,
) -> &'a [Verdict]
    ensures { result.now ≡ verdicts_at waiting.now name.now }
{
    match waiting.get(name) {
        Some(verdicts) => verdicts,
        None => &[],
    }
}

/// The summary of a request with the verdicts that waited for it.
fn first_of(alloc: Global, request: &Request, verdicts: &[Verdict]) -> Result<Summary, NoMemory>
    requires { (v : VerdictFields) → Contains verdicts.now v → IsAbout request.now v }
    ensures stands { IfOk result (StandsFor (message_of.Request request.now
        ∷ map (λ v. message_of.Verdict v) verdicts.now)) }
    ensures same_request { IfOk result (λ s. s.request ≡ request.now) }
{
    let mut summary = ask(alloc, request)?;
    for verdict in verdicts {
        apply(&mut summary, verdict)?;
    }
    Ok(summary)
}

/// Adds the first request of its name: the verdicts that waited for it are part of its summary, and
/// wait no longer. The index lists the name before there is a summary. If memory runs out in
/// between, the name stays listed without a summary, which no answer shows.
fn put_first(
    alloc: Global,
    summaries: &mut BTreeMap<RequestName, Summary>,
    waiting: &mut BTreeMap<RequestName, Vec<Verdict>>,
    index: &mut Index,
    name: RequestName,
    request: &Request,
) -> Result<(), NoMemory>
    requires known { IsByName summaries.old waiting.old }
    requires named { name ≡ name_of request.now }
    requires first { at_name summaries.old name ≡ None }
    ensures listed { AreListed index.old summaries.old → AreListed index.new summaries.new }
    ensures known { (set : List AnyMessage) → AreByName set summaries.old waiting.old
        → MatchResult result
        (λ _. AreByName (set ++ message_of.Request request.now ∷ []) summaries.new waiting.new)
        (λ _. AreByName set summaries.new waiting.new) }
{
    let summary = first_of(alloc, request, waited(waiting, &name))?;
    index.list(alloc, request, &name)?;
    let settled = name.clone()?;
    summaries.insert(name, summary)?;
    let _part_of_it = waiting.remove(&settled);
    Ok(())
}

/// Adds a request: to the summary of its name, or as the first of that name.
fn put_request(
    alloc: Global,
    summaries: &mut BTreeMap<RequestName, Summary>,
    waiting: &mut BTreeMap<RequestName, Vec<Verdict>>,
    index: &mut Index,
    request: &Request,
) -> Result<(), NoMemory>
    requires { IsByName summaries.old waiting.old }
    ensures listed { AreListed index.old summaries.old → AreListed index.new summaries.new }
    ensures known { (set : List AnyMessage) → AreByName set summaries.old waiting.old
        → MatchResult result
        (λ _. AreByName (set ++ message_of.Request request.now ∷ []) summaries.new waiting.new)
        (λ _. AreByName set summaries.new waiting.new) }
{
    let name = request.name()?;
    match summaries.get_mut(&name) {
        Some(summary) => {
            ask_again(summary, request);
            Ok(())
        }
        None => put_first(alloc, summaries, waiting, index, name, request),
    }
}

/// Adds a verdict to those that wait under its name.
fn wait(
    alloc: Global,
    waiting: &mut BTreeMap<RequestName, Vec<Verdict>>,
    name: RequestName,
    verdict: &Verdict,
) -> Result<(), NoMemory>
    ensures waits { OnOk result
        (verdicts_at waiting.new name ≡ verdicts_at waiting.old name ++ verdict.now ∷ []) }
    ensures others { (other : AnyName) → (name ≡ other → ⊥)
        → verdicts_at waiting.new other ≡ verdicts_at waiting.old other }
    ensures err { OnErr result (verdicts_at waiting.new name ≡ verdicts_at waiting.old name) }
    ensures ordered { IsOrdered name_cmp waiting.old → IsOrdered name_cmp waiting.new }
{
    let copy = verdict.clone()?;
    match waiting.get_mut(&name) {
        Some(verdicts) => verdicts.push(copy)?,
        None => {
            let mut verdicts = Vec::new(alloc);
            verdicts.push(copy)?;
            waiting.insert(name, verdicts)?;
        }
    }
    Ok(())
}

/// Adds a verdict: to the summary of its request, or to those that wait.
fn put_verdict(
    alloc: Global,
    summaries: &mut BTreeMap<RequestName, Summary>,
    waiting: &mut BTreeMap<RequestName, Vec<Verdict>>,
    verdict: &Verdict,
) -> Result<(), NoMemory>
    requires { IsByName summaries.old waiting.old }
    ensures listed { (index : AnyIndex) → AreListed index summaries.old
        → AreListed index summaries.new }
    ensures known { (set : List AnyMessage) → AreByName set summaries.old waiting.old
        → MatchResult result
        (λ _. AreByName (set ++ message_of.Verdict verdict.now ∷ []) summaries.new waiting.new)
        (λ _. AreByName set summaries.new waiting.new) }
{
    let name = verdict.name_meant()?;
    match summaries.get_mut(&name) {
        Some(summary) => apply(summary, verdict),
        None => wait(alloc, waiting, name, verdict),
    }
}

/// The summary of the row's request, before any verdict.
fn summary_of(alloc: Global, row: &NameRow) -> Result<Summary, NoMemory>
    ensures stands { (set : List AnyMessage) → HasNoVerdict set
        → IsRowOf set row.now → IfOk result (StandsFor set) }
    ensures same_request { IfOk result (λ s. s.request ≡ row.now.request) }
{
    if row.is_disputed {
        ask_disputed(alloc, &row.request)
    } else {
        ask(alloc, &row.request)
    }
}

/// Adds the summary of the row's request, where it is the first row of its name.
fn put_row(
    alloc: Global,
    summaries: &mut BTreeMap<RequestName, Summary>,
    index: &mut Index,
    row: &NameRow,
) -> Result<(), NoMemory>
    ensures listed { AreListed index.old summaries.old → AreListed index.new summaries.new }
    ensures alone { AreAlone summaries.old → OnOk result (AreAlone summaries.new) }
    ensures rows { (set : List AnyMessage) (rows : List AnyRow) → HasNoVerdict set
        → IsRowOf set row.now → GathersRows set rows summaries.old
        → OnOk result (GathersRows set (rows ++ row.now ∷ []) summaries.new) }
{
    let name = row.request.name()?;
    match summaries.get(&name) {
        Some(_) => Ok(()),
        None => {
            let summary = summary_of(alloc, row)?;
            index.list(alloc, &row.request, &name)?;
            summaries.insert(name, summary)?;
            Ok(())
        }
    }
}

/// A summary for each name that has a row, before any verdict. The index, empty before, has their
/// names.
fn summaries_of(
    alloc: Global,
    index: &mut Index,
    rows: &[NameRow],
) -> Result<BTreeMap<RequestName, Summary>, NoMemory>
    ensures listed { IfOk result (AreListed index.new) }
    ensures alone { IfOk result AreAlone }
    ensures known { (set : List AnyMessage)
        → ShowSet (λ m. Contains set m) rows.now [] → IfOk result (Gathers set) }
{
    let mut summaries = BTreeMap::new(alloc);
    for row in rows {
        put_row(alloc, &mut summaries, index, row)?;
    }
    Ok(summaries)
}

impl Gathered {
    /// What is known of the empty set of messages. It takes no memory.
    pub fn new(alloc: Global) -> Gathered
        ensures { AreGathered [] result }
    {
        Gathered {
            alloc,
            summaries: BTreeMap::new(alloc),
            waiting: BTreeMap::new(alloc),
            index: Index::new(alloc),
        }
    }

    /// What is known of the requests that these rows show, before any verdict.
    fn of_names(alloc: Global, names: &[NameRow]) -> Result<Gathered, NoMemory>
        ensures { (set : List AnyMessage) → ShowSet (λ m. Contains set m) names.now []
            → IfOk result (AreGathered set) }
    {
        let mut index = Index::new(alloc);
        let summaries = summaries_of(alloc, &mut index, names)?;
        Ok(Gathered {
            alloc,
            summaries,
            waiting: BTreeMap::new(alloc),
            index,
        })
    }

    /// Adds a verdict to the set that is gathered here. If memory runs out, the set without the
    /// verdict is still gathered.
    fn hear(&mut self, verdict: &Verdict) -> Result<(), NoMemory>
        ensures ok { (set : List AnyMessage) → AreGathered set self.old
            → OnOk result (AreGathered (set ++ message_of.Verdict verdict.now ∷ []) self.new) }
        ensures err { (set : List AnyMessage) → AreGathered set self.old
            → OnErr result (AreGathered set self.new) }
    {
        put_verdict(self.alloc, &mut self.summaries, &mut self.waiting, verdict)
    }

    /// Adds a message to the set that is gathered here. If memory runs out, the set without the
    /// message is still gathered.
    pub fn take(&mut self, message: &Message) -> Result<(), NoMemory>
        ensures ok { (set : List AnyMessage) → AreGathered set self.old
            → OnOk result (AreGathered (set ++ message.now ∷ []) self.new) }
        ensures err { (set : List AnyMessage) → AreGathered set self.old
            → OnErr result (AreGathered set self.new) }
    {
        match message {
            Message::Request(request) => put_request(
                self.alloc,
                &mut self.summaries,
                &mut self.waiting,
                &mut self.index,
                request,
            ),
            Message::Verdict(verdict) => self.hear(verdict),
        }
    }

    /// Gathers these messages, one after another.
    pub fn of(alloc: Global, set: &[Message]) -> Result<Gathered, NoMemory>
        ensures { IfOk result (AreGathered set.now) }
    {
        let mut gathered = Gathered::new(alloc);
        for message in set {
            gathered.take(message)?;
        }
        Ok(gathered)
    }

    /// What is known of the set that the rows of names and the verdicts show, including the
    /// verdicts that wait. No other message is read.
    pub fn of_rows(
        alloc: Global,
        names: &[NameRow],
        verdicts: &[Verdict],
    ) -> Result<Gathered, NoMemory>
        ensures { (set : List AnyMessage) → ShowSet (λ m. Contains set m) names.now verdicts.now
            → IfOk result (AreGathered set) }
    {
        let mut gathered = Gathered::of_names(alloc, names)?;
        for verdict in verdicts {
            gathered.hear(verdict)?;
        }
        Ok(gathered)
    }
}
