//! How another roster changes the grants of a desk, from a moment on.

use desk::Keeper;
use desk_store::{Found, KeeperError};
use grants::{Status, Summary, Weight, Window, status, weigh};
use messages::{Message, Request, RequestName, Verdict, VerdictKind};
use outcomes::{Gathered, summaries_in};
use roster::{Ceiling, Roster, RosterFault};
use std::alloc::Global;
use std::{fmt, str};
use sudo_words::{Moment, NoMemory};

/// What becomes of a grant.
#[derive(Clone, Copy)]
pub(crate) enum Kind {
    /// The grant begins, grows or moves, since a refusal or a revocation counts no more, or since
    /// the request is admitted again.
    GivenBack,
    /// The grant is in force, and was not in force before.
    Begins,
    /// The grant is in force at every moment at which it was, and at more.
    Grows,
    /// The grant is in force at other moments: it loses some and gains some.
    Moves,
    /// The grant is in force at fewer moments, and at none at which it was not.
    Shrinks,
    /// The grant is in force no more.
    Ends,
    /// The request waited for approval, and is not admitted any more.
    Lapses,
}

/// What becomes of the grant of one name.
#[derive(Drop)]
pub(crate) struct Change {
    /// The name of the grant's request.
    name: RequestName,
    /// What becomes of the grant.
    kind: Kind,
    /// When the grant is in force under the old roster, if it is at all.
    before: Option<Window>,
    /// When the grant is in force under the new roster, if it is at all.
    after: Option<Window>,
}

/// When a grant is in force, as it is shown.
#[derive(Clone, Copy)]
struct Shown(Option<Window>);

impl fmt::Display for Shown {
    fn fmt<W: fmt::Write>(&self, f: &mut fmt::Formatter<W>) -> fmt::Result {
        match self.0 {
            Some(window) => write!(f, "{} to {}", window.start, window.end),
            None => f.write_str("not in force"),
        }
    }
}

impl fmt::Display for Kind {
    fn fmt<W: fmt::Write>(&self, f: &mut fmt::Formatter<W>) -> fmt::Result {
        f.write_str(match self {
            Kind::GivenBack => "GIVEN BACK",
            Kind::Begins => "BEGINS",
            Kind::Grows => "GROWS",
            Kind::Moves => "MOVES",
            Kind::Shrinks => "SHRINKS",
            Kind::Ends => "ENDS",
            Kind::Lapses => "LAPSES",
        })
    }
}

impl fmt::Display for Change {
    fn fmt<W: fmt::Write>(&self, f: &mut fmt::Formatter<W>) -> fmt::Result {
        let (by, no) = (self.name.by.as_str(), self.name.no);
        let (before, after) = (Shown(self.before), Shown(self.after));
        write!(f, "{} {by} {no}: before {before}, after {after}", self.kind)
    }
}

fn later(a: Moment, b: Moment) -> Moment {
    if a < b { b } else { a }
}

/// When a grant is in force, from the moment on.
fn span_of(status: Status, now: Moment) -> Option<Window> {
    match status {
        Status::Granted(window) if now <= window.end => Some(Window {
            start: later(window.start, now),
            end: window.end,
        }),
        _ => None,
    }
}

/// Whether the first window has every moment of the second.
fn has_all(wide: Window, narrow: Window) -> bool {
    wide.start <= narrow.start && narrow.end <= wide.end
}

/// What becomes of a grant that was in force in one window, and is in another.
fn moved(before: Window, after: Window) -> Option<Kind> {
    if before == after {
        None
    } else if has_all(after, before) {
        Some(Kind::Grows)
    } else if has_all(before, after) {
        Some(Kind::Shrinks)
    } else {
        Some(Kind::Moves)
    }
}

/// What becomes of a grant.
fn kind_of(before: Option<Window>, after: Option<Window>) -> Option<Kind> {
    match (before, after) {
        (None, None) => None,
        (None, Some(_)) => Some(Kind::Begins),
        (Some(_), None) => Some(Kind::Ends),
        (Some(before), Some(after)) => moved(before, after),
    }
}

/// Whether the verdict is a revocation that counts by the old roster and ceiling, not by the new.
fn revokes_no_more(old: (&Roster, &Ceiling), new: (&Roster, &Ceiling), verdict: &Verdict) -> bool {
    verdict.kind() == VerdictKind::Revoke
        && weigh(old.0, old.1, verdict) == Weight::Counts
        && weigh(new.0, new.1, verdict) != Weight::Counts
}

/// Whether the message is a verdict on the request.
fn verdict_on<'a>(request: &Request, message: &'a Message) -> Option<&'a Verdict> {
    match message {
        Message::Verdict(verdict) if verdict.no() == request.no() && verdict.of() == request.by() =>
            { Some(verdict) }
        _ => None,
    }
}

/// Whether a revocation of the request counts under the old roster, and under the new one no more.
fn is_unrevoked(old: &Roster, new: &Roster, request: &Request, messages: &[Message]) -> bool {
    let label = request.ceiling();
    let (Some(before), Some(after)) = (old.ceiling(label), new.ceiling(label)) else {
        return false;
    };
    messages.iter().any(|message| match verdict_on(request, message) {
        Some(verdict) => revokes_no_more((old, before), (new, after), verdict),
        None => false,
    })
}

/// Whether a right comes back that was taken away: the old roster did not admit the request, or a
/// refusal or a revocation that counted under the old roster counts no more.
fn is_given_back(
    old: &Roster,
    new: &Roster,
    was: Status,
    request: &Request,
    messages: &[Message],
) -> bool {
    matches!(was, Status::Lapsed | Status::Refused) || is_unrevoked(old, new, request, messages)
}

/// Whether a request that waits for approval is not admitted any more.
fn lapses(before: Status, after: Status, request: &Request, now: Moment) -> bool {
    before == Status::Waiting && after == Status::Lapsed && now <= request.until()
}

/// How the new roster changes the grant of a request, if it does.
fn change_of(
    old: &Roster,
    new: &Roster,
    messages: &[Message],
    summary: &Summary,
    now: Moment,
) -> Result<Option<Change>, NoMemory> {
    let Some(request) = summary.request() else {
        return Ok(None);
    };
    let (was, is) = (status(old, summary), status(new, summary));
    let (before, after) = (span_of(was, now), span_of(is, now));
    let kind = match kind_of(before, after) {
        Some(Kind::Begins | Kind::Grows | Kind::Moves)
            if is_given_back(old, new, was, request, messages) => { Kind::GivenBack }
        Some(kind) => kind,
        None if lapses(was, is, request, now) => Kind::Lapses,
        None => return Ok(None),
    };
    Ok(Some(Change {
        name: request.name()?,
        kind,
        before,
        after,
    }))
}

/// Adds how the new roster changes the grants of these requests, in the order of the requests. A
/// grant that does not change is left out.
fn push_changes(
    changes: &mut Vec<Change>,
    old: &Roster,
    new: &Roster,
    messages: &[Message],
    summaries: &[Summary],
    now: Moment,
) -> Result<(), NoMemory> {
    for summary in summaries {
        if let Some(change) = change_of(old, new, messages, summary, now)? {
            changes.push(change)?;
        }
    }
    Ok(())
}

/// The summaries of these messages, in the order of their names.
fn summaries_of(alloc: Global, messages: &[Message]) -> Result<Vec<Summary>, NoMemory> {
    let gathered = Gathered::of(alloc, messages)?;
    summaries_in(alloc, &gathered)
}

/// How the new roster changes the grants of these messages from the moment on, in the order of the
/// names of the grants.
fn changes_between(
    alloc: Global,
    old: &Roster,
    new: &Roster,
    messages: &[Message],
    now: Moment,
) -> Result<Vec<Change>, NoMemory> {
    let summaries = summaries_of(alloc, messages)?;
    let mut changes = Vec::new(alloc);
    push_changes(&mut changes, old, new, messages, summaries.as_slice(), now)?;
    Ok(changes)
}

/// The roster of a text, or none where the text is no roster.
fn roster_of(alloc: Global, text: &[u8]) -> Result<Option<Roster>, NoMemory> {
    let Ok(text) = str::from_utf8(text) else {
        return Ok(None);
    };
    match Roster::read(alloc, text) {
        Ok(roster) => Ok(Some(roster)),
        Err(RosterFault::NoMemory) => Err(NoMemory),
        Err(_) => Ok(None),
    }
}

/// How the new roster changes the grants of the desk that the keeper keeps.
fn changes_to<K: Keeper>(
    alloc: Global,
    old: &Roster,
    new: &Roster,
    keeper: &mut K,
    now: Moment,
) -> Result<Vec<Change>, KeeperError>
    requires { K.is_up keeper.old → K.is_desk keeper.old }
{
    let messages = keeper.messages()?;
    Ok(changes_between(alloc, old, new, messages.as_slice(), now)?)
}

/// How the roster of a file changes the grants of the desk that the keeper keeps. The desk has the
/// old roster.
fn changes_by<K: Keeper>(
    alloc: Global,
    old: &Roster,
    file: &[u8],
    keeper: &mut K,
    now: Moment,
) -> Result<Vec<Change>, KeeperError>
    requires { K.is_up keeper.old → K.is_desk keeper.old }
{
    match roster_of(alloc, file)? {
        Some(new) => changes_to(alloc, old, &new, keeper, now),
        None => Ok(Vec::new(alloc)),
    }
}

/// How the roster of a file changes the grants of the desk that the keeper keeps. The desk has the
/// roster of the recorded text.
fn changes_from<K: Keeper>(
    alloc: Global,
    recorded: &str,
    file: &[u8],
    keeper: &mut K,
    now: Moment,
) -> Result<Vec<Change>, KeeperError>
    requires { K.is_up keeper.old → K.is_desk keeper.old }
{
    match roster_of(alloc, recorded.as_bytes())? {
        Some(old) => changes_by(alloc, &old, file, keeper, now),
        None => Ok(Vec::new(alloc)),
    }
}

/// How the roster of a file changes the grants of the desk that the keeper keeps, from the moment
/// on. The desk itself stays as it is.
///
/// Nothing changes where the file holds no roster, or the keeper keeps no desk. A desk of an older
/// form does not say which roster it has, so nothing is known to change.
pub(crate) fn changes_of<K: Keeper>(
    alloc: Global,
    file: &[u8],
    keeper: &mut K,
    now: Moment,
) -> Result<Vec<Change>, KeeperError> {
    match keeper.look()? {
        Found::Desk(desk) => changes_from(alloc, desk.roster.as_str(), file, keeper, now),
        Found::OldDesk | Found::Empty | Found::NotADesk => Ok(Vec::new(alloc)),
    }
}
