//! What the messages about a request come to.

ghost use Rattle.std.specs.Prelude.{◌≡◌, ◌≤◌, List, max, Some, IfSome, IfNone, MatchOption};
ghost use Rattle.messages.specs.Names.{name_of};
ghost use Rattle.messages.specs.declared.message.Message.{Message as AnyMessage};
ghost use Rattle.messages.specs.declared.kind.VerdictKind.TheVariants as kinds;
ghost use Rattle.grants.specs.Admission.{AdmitsRequest};
ghost use Rattle.grants.specs.private.Firsts.{has_counting};
ghost use Rattle.grants.specs.private.Status as of_status;
ghost use Rattle.grants.specs.private.Status.{IsAdmittedUnder};
ghost use Rattle.grants.specs.Statuses.{IsStatus, NeverComplete};
ghost use Rattle.grants.specs.Summaries.{StandsFor};
ghost use Rattle.grants.specs.Verdicts.{IsComplete};
ghost use Rattle.grants.specs.private.Voters.{counting};

use crate::admission::admit_request;
use crate::firsts::nth;
use crate::marks::Mark;
use crate::outcome::{Status, Window};
use crate::summary::Summary;
use crate::voters::Voters;
use messages::{Request, VerdictKind};
use roster::{Ceiling, Roster};
use std::collections::BTreeSet;
use sudo_words::Moment;

fn is_in_time(complete: Option<Moment>, moment: Moment) -> bool
    ensures { result ≡ of_status.is_in_time complete moment }
{
    match complete {
        None => true,
        Some(complete) => moment <= complete,
    }
}

/// Whether the refusal counts and does not come after the completion.
fn refuses(voters: &Voters, complete: Option<Moment>, refusal: &Mark) -> bool
    ensures { result ≡ of_status.refuses (counting voters.now) complete refusal.now }
{
    is_in_time(complete, refusal.at) && voters.count(refusal)
}

fn is_refused(voters: &Voters, complete: Option<Moment>, refusals: &BTreeSet<Mark>) -> bool
    ensures { result ≡ of_status.is_refused (counting voters.now) complete refusals.now.keys }
{
    refusals.iter().any(|mark| refuses(voters, complete, mark))
}

fn later(a: Moment, b: Moment) -> Moment
    ensures { result ≡ max a b }
{
    if a < b { b } else { a }
}

fn before(moment: Moment) -> Option<Moment>
    ensures { result ≡ of_status.before moment }
{
    match moment.secs() {
        0 => None,
        secs => Moment::from_secs(secs - 1),
    }
}

/// The last moment up to `until` that is not revoked.
fn end_of(until: Moment, revoked: Option<Moment>) -> Option<Moment>
    ensures { result ≡ of_status.end_of until revoked }
{
    match revoked {
        Some(revoked) if revoked <= until => before(revoked),
        _ => Some(until),
    }
}

fn window_between(start: Moment, end: Option<Moment>) -> Status
    ensures { result ≡ of_status.window start end }
{
    match end {
        Some(end) if start <= end => Status::Granted(Window { start, end }),
        _ => Status::Void,
    }
}

fn voters<'a>(
    roster: &'a Roster,
    ceiling: &'a Ceiling,
    s: &'a Summary,
    kind: VerdictKind,
) -> Voters<'a>
    ensures { counting result ≡ has_counting roster.now.says ceiling.now kind s.now.request.by }
{
    Voters {
        roster,
        ceiling,
        kind,
        asker: s.request.by(),
    }
}

/// When the request is complete.
fn completion(roster: &Roster, ceiling: &Ceiling, s: &Summary) -> Option<Moment>
    requires some { 1 ≤ ceiling.now.needs }
    requires few { ceiling.now.needs ≤ 3 }
    ensures { result ≡ of_status.completion roster.now.says ceiling.now s.now }
{
    let approvers = voters(roster, ceiling, s, VerdictKind::Approve);
    nth(&approvers, ceiling.needs(), &s.approvals)
}

/// When the request is first revoked.
fn revocation(roster: &Roster, ceiling: &Ceiling, s: &Summary) -> Option<Moment>
    ensures { result ≡ of_status.revocation roster.now.says ceiling.now s.now }
{
    let revokers = voters(roster, ceiling, s, VerdictKind::Revoke);
    nth(&revokers, 1, &s.revocations)
}

fn is_refused_by(roster: &Roster, ceiling: &Ceiling, s: &Summary, complete: Option<Moment>) -> bool
    ensures { result ≡ of_status.is_refused (has_counting roster.now.says
        ceiling.now kinds.Refuse s.now.request.by) complete s.now.refusals }
{
    let refusers = voters(roster, ceiling, s, VerdictKind::Refuse);
    is_refused(&refusers, complete, &s.refusals)
}

fn from_complete(roster: &Roster, ceiling: &Ceiling, s: &Summary, complete: Moment) -> Status
    ensures { result ≡ of_status.from_complete roster.now.says ceiling.now s.now (Some complete) }
{
    window_between(
        later(s.request.from(), complete),
        end_of(s.request.until(), revocation(roster, ceiling, s)),
    )
}

fn unless_refused(refused: bool, status: Status) -> Status
    ensures { result ≡ of_status.unless_refused refused status }
{
    if refused { Status::Refused } else { status }
}

/// The status of a request that the roster admits under the ceiling.
fn admitted_status(roster: &Roster, ceiling: &Ceiling, s: &Summary) -> Status
    requires some { 1 ≤ ceiling.now.needs }
    requires few { ceiling.now.needs ≤ 3 }
    ensures { result ≡ of_status.admitted_status roster.now.says ceiling.now s.now }
{
    match completion(roster, ceiling, s) {
        None => unless_refused(is_refused_by(roster, ceiling, s, None), Status::Waiting),
        Some(complete) => unless_refused(
            is_refused_by(roster, ceiling, s, Some(complete)),
            from_complete(roster, ceiling, s, complete),
        ),
    }
}

/// The ceiling under which the roster admits the request, if it does.
fn ceiling_of<'r>(roster: &'r Roster, request: &Request) -> Option<&'r Ceiling>
    ensures admitted { IfSome result (λ c. IsAdmittedUnder roster.now.says request.now c.now) }
    ensures denied { IfNone result (¬ AdmitsRequest roster.now.says request.now) }
{
    match admit_request(roster, request) {
        Ok(()) => roster.ceiling(request.ceiling()),
        Err(_) => None,
    }
}

/// When enough people have approved the request, if they ever have. It takes no memory.
pub fn completed_at(roster: &Roster, s: &Summary) -> Option<Moment>
    ensures { (set : List AnyMessage) → StandsFor set s.now → MatchOption result
        (NeverComplete roster.now.says set s.now.request)
        (IsComplete roster.now.says set s.now.request) }
{
    match roster.ceiling(s.request.ceiling()) {
        Some(ceiling) => completion(roster, ceiling, s),
        None => None,
    }
}

/// The status of the summary's request under this roster. It takes no memory.
pub fn status(roster: &Roster, s: &Summary) -> Status
    ensures { (set : List AnyMessage) → StandsFor set s.now
        → IsStatus roster.now.says set (name_of s.now.request) result }
{
    if s.is_disputed {
        return Status::Disputed;
    }
    match ceiling_of(roster, &s.request) {
        None => Status::Lapsed,
        Some(ceiling) => admitted_status(roster, ceiling, s),
    }
}
