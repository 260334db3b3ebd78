//! Suspects: the names under which an approval may not count.

ghost use Rattle.std.specs.Prelude.{◌≡◌, ℕ, List, [], ◌∷◌, ◌++◌, true, false, Contains};
ghost use Rattle.std.specs.Prelude.{IfOk, OnOk};
ghost use Rattle.sudo_words.specs.declared.cmnd.Cmnd.{Cmnd as AnyCmnd};
ghost use Rattle.messages.specs.Names.{name_of};
ghost use Rattle.messages.specs.declared.message.Message.{Message as AnyMessage};
ghost use Rattle.messages.specs.declared.request_name.RequestName.{RequestName as AnyName};
ghost use Rattle.outcomes.specs.About.{name_in};
ghost use Rattle.roster.specs.Fields.{RosterFields};
ghost use Rattle.roster.specs.Relations.{eligible};
ghost use Rattle.grants.specs.Summaries.{StandsFor};
ghost use Rattle.suspects.specs.LookedAt.{AllCount, AreKnownSuspects, AreReviewed, AreSuspects};

use grants::Summary;
use messages::{Message, RequestName};
use roster::{Ceiling, Roster};
use std::alloc::{AllocError, Global};
use std::collections::BTreeSet;
use sudo_words::{Moment, Name, NoMemory};

/// Whether each approval is by somebody who was eligible at its moment.
fn all_eligible(
    roster: &Roster,
    ceiling: &Ceiling,
    asker: &Name,
    approvals: &[(Name, Moment)],
) -> bool
    ensures { result ≡ true → (person : List ℕ) (at : ℕ) → Contains approvals.now (person, at)
        → eligible roster.now.says person asker.now ceiling.now at ≡ true }
{
    for (person, at) in approvals {
        if !roster.eligible(person, asker, ceiling, *at) {
            return false;
        }
    }
    true
}

/// Whether an approval under the summary's name may not count.
fn is_suspect(roster: &Roster, summary: &Summary) -> Result<bool, NoMemory>
    ensures { (set : List AnyMessage) → StandsFor set summary.now → IfOk result
        (λ b. b ≡ false → AllCount roster.now.says set (name_of summary.now.request)) }
{
    let Some(request) = summary.request() else {
        return Ok(false);
    };
    let Some(ceiling) = roster.ceiling(request.ceiling()) else {
        return Ok(false);
    };
    let approvals = summary.approvals()?;
    Ok(!all_eligible(roster, ceiling, request.by(), &approvals))
}

/// Adds the summary's name, if an approval under it may not count.
fn add_suspect(
    names: &mut BTreeSet<RequestName>,
    roster: &Roster,
    summary: &Summary,
) -> Result<(), NoMemory>
    ensures stays { (name : AnyName)
        → Contains names.old.keys name → OnOk result (Contains names.new.keys name) }
    ensures here { (set : List AnyMessage) → StandsFor set summary.now
        → OnOk result (¬ Contains names.new.keys (name_of summary.now.request)
        → AllCount roster.now.says set (name_of summary.now.request)) }
{
    if !is_suspect(roster, summary)? {
        return Ok(());
    }
    if let Some(request) = summary.request() {
        names.insert(request.name()?)?;
    }
    Ok(())
}

/// The suspects, from the summaries that a report looks at.
pub fn suspects_among(
    alloc: Global,
    roster: &Roster,
    summaries: &[Summary],
) -> Result<BTreeSet<RequestName>, NoMemory>
    ensures { (set : List AnyMessage) (at : ℕ) → AreReviewed roster.now.says set at summaries.now
        → IfOk result (λ names. AreSuspects roster.now.says set names.keys) }
{
    let mut names = BTreeSet::new(alloc);
    for summary in summaries {
        add_suspect(&mut names, roster, summary)?;
    }
    Ok(names)
}

/// The name that a request asks under, or that a verdict is about.
fn name_meant(message: &Message) -> Result<RequestName, AllocError>
    ensures { IfOk result (λ name. name ≡ name_in message.now) }
{
    match message {
        Message::Request(request) => request.name(),
        Message::Verdict(verdict) => verdict.name_meant(),
    }
}

/// Adds the name that a message is about.
fn add_name(names: &mut BTreeSet<RequestName>, message: &Message) -> Result<(), NoMemory>
    ensures here { OnOk result (Contains names.new.keys (name_in message.now)) }
    ensures stays { (name : AnyName)
        → Contains names.old.keys name → OnOk result (Contains names.new.keys name) }
{
    names.insert(name_meant(message)?)?;
    Ok(())
}

/// The suspects with one message more: the name that the message is about is a suspect, so that the
/// next report looks at it. Where memory runs out, the suspects are not known any more.
pub fn with_suspect(
    suspects: Option<BTreeSet<RequestName>>,
    message: &Message,
) -> Option<BTreeSet<RequestName>>
    ensures { (f : RosterFields AnyCmnd) (set : List AnyMessage) → AreKnownSuspects f set suspects
        → AreKnownSuspects f (set ++ message.now ∷ []) result }
{
    let Some(mut names) = suspects else {
        return None;
    };
    match add_name(&mut names, message) {
        Ok(()) => Some(names),
        Err(_) => None,
    }
}
