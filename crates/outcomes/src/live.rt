//! Grants in force at a moment.

ghost use Rattle.std.specs.Prelude.{◌≡◌, List, IfOk, OnOk};
ghost use Rattle.messages.specs.declared.message.Message.{Message as AnyMessage};
ghost use Rattle.grants.specs.Summaries.{StandsFor};
ghost use Rattle.outcomes.specs.Gathered.{AreGathered};
ghost use Rattle.outcomes.specs.Outcomes.{AreLive};
ghost use Rattle.outcomes.specs.private.ByName.{Gathers, at_name};
ghost use Rattle.outcomes.specs.private.Index.{kept_of, names_lent};
ghost use Rattle.outcomes.specs.private.InTurn.{Adds, AddsAt, Give, grant_of, live_for};

use crate::gathering::Gathered;
use grants::{Summary, Window, status};
use messages::{Request, RequestName};
use roster::Roster;
use std::alloc::Global;
use std::collections::BTreeMap;
use std::marker::Model;
use sudo_words::{Label, Moment, NoMemory};

/// A granted request: its name, its ceiling, and when it is in force.
#[derive(Debug, Drop)]
pub struct Live {
    /// The request's name.
    pub name: RequestName,
    /// The ceiling that the grant stays under.
    pub ceiling: Label,
    /// The first and the last moment of the grant.
    pub window: Window,
}

impl Model for Live {
    ghost use Rattle.outcomes.specs.Outcomes.{LiveGrant};

    ghost Value = { LiveGrant };

    ghost view = { λ l. record { name = l.name; ceiling = l.ceiling; window = l.window } };
}

/// The grant of a request.
fn grant(request: &Request, window: Window) -> Result<Live, NoMemory>
    ensures { IfOk result (λ l. l ≡ grant_of request.now window) }
{
    Ok(Live {
        name: request.name()?,
        ceiling: request.ceiling().clone()?,
        window,
    })
}

/// Adds the grant of a summary's request, where it is in force at the moment.
fn push_live(
    list: &mut Vec<Live>,
    roster: &Roster,
    summary: &Summary,
    at: Moment,
) -> Result<(), NoMemory>
    ensures { (set : List AnyMessage) → StandsFor set summary.now → OnOk result
        (Adds roster.now.says set (live_for at) summary.now list.old.items list.new.items) }
{
    let Some(window) = status(roster, summary).window_at(at) else {
        return Ok(());
    };
    match summary.request() {
        Some(request) => {
            list.push(grant(request, window)?)?;
            Ok(())
        }
        None => Ok(()),
    }
}

/// Adds the grant of the request of a name, where it is in force at the moment.
fn push_named(
    list: &mut Vec<Live>,
    roster: &Roster,
    summaries: &BTreeMap<RequestName, Summary>,
    name: &RequestName,
    at: Moment,
) -> Result<(), NoMemory>
    ensures { (set : List AnyMessage) → Gathers set summaries.now → OnOk result
        (AddsAt roster.now.says set (live_for at) (at_name summaries.now name.now)
        list.old.items list.new.items) }
{
    match summaries.get(name) {
        Some(summary) => push_live(list, roster, summary, at),
        None => Ok(()),
    }
}

/// The grants of the requests of these names that are in force at the moment, in the order of the
/// names.
fn live_among(
    alloc: Global,
    roster: &Roster,
    summaries: &BTreeMap<RequestName, Summary>,
    names: &[&RequestName],
    at: Moment,
) -> Result<Vec<Live>, NoMemory>
    ensures { (set : List AnyMessage) → Gathers set summaries.now → IfOk result
        (λ list. Give roster.now.says set (live_for at)
        (kept_of summaries.now (names_lent names.now)) list.items) }
{
    let mut list = Vec::new(alloc);
    for name in names {
        push_named(&mut list, roster, summaries, name, at)?;
    }
    Ok(list)
}

/// The grants that are in force at the moment, by the asker in byte order, then by the number. Only
/// the requests that ask for an end then or later are looked at.
pub fn live_in(
    alloc: Global,
    roster: &Roster,
    gathered: &Gathered,
    at: Moment,
) -> Result<Vec<Live>, NoMemory>
    ensures { (set : List AnyMessage) → AreGathered set gathered.now
        → IfOk result (λ list. AreLive roster.now.says set at list.items) }
{
    let names = gathered.index.names_of_all(alloc, &Some(at))?;
    live_among(alloc, roster, &gathered.summaries, &names, at)
}
