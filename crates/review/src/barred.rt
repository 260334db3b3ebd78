//! Whose approvals do not count: a report's lines under BARRED.

ghost use Rattle.std.specs.Prelude.{◌≡◌, ℕ, List, ◌++◌, IfOk, OnOk, Option, string_bytes};
ghost use Rattle.messages.specs.declared.message.Message.{Message as AnyMessage};
ghost use Rattle.review.specs.Barred.{barred_for, reason};
ghost use Rattle.review.specs.declared.reason.Reason.{Reason as AnyReason};
ghost use Rattle.review.specs.Columns.{lines_text};
ghost use Rattle.review.specs.Report as report;
ghost use Rattle.review.specs.private.Reporting.{AddsLines, IsOpenOf, IsOutcome, kept_name};
ghost use Rattle.review.specs.private.Whys as spec;

use crate::columns::{push_left, push_name};
use crate::reason::{Reason, why_barred};
use grants::{Status, Summary};
use messages::Request;
use roster::{Ceiling, Roster};
use std::alloc::Global;
use sudo_words::{Moment, Name, NoMemory};

/// A request that is neither disputed nor lapsed, and its ceiling.
#[derive(Clone, Copy)]
pub(crate) struct OpenRequest<'s> {
    request: &'s Request,
    ceiling: &'s Ceiling,
}

/// Whether the status is neither disputed nor lapsed.
fn is_open(status: &Status) -> bool
    ensures { result ≡ report.is_open status.now }
{
    !matches!(status, Status::Disputed | Status::Lapsed)
}

/// The summary's request and its ceiling, if its status is neither disputed nor lapsed.
fn open_request<'s>(
    roster: &'s Roster,
    summary: &'s Summary,
    status: &Status,
) -> Option<OpenRequest<'s>>
    ensures { (set : List AnyMessage) → IsOutcome roster.now.says set summary.now status.now
        → IsOpenOf roster.now.says set summary.now result }
{
    if !is_open(status) {
        return None;
    }
    let request = summary.request()?;
    let ceiling = roster.ceiling(request.ceiling())?;
    Some(OpenRequest { request, ceiling })
}

/// A person who approved, and why none of the person's approvals so far counts, if none does.
#[derive(Clone, Copy)]
pub(crate) struct Approver<'s> {
    person: &'s Name,
    why: Option<Reason>,
}

/// Why the first of a person's approvals does not count; `None` if it or one of the later ones
/// counts.
fn both(first: Option<Reason>, later: Option<Reason>) -> Option<Reason>
    ensures { result ≡ spec.both first later }
{
    match later {
        Some(_) => first,
        None => None,
    }
}

/// Adds the line of a person who approved, if none of the approvals counts.
fn push_barred_line(
    alloc: Global,
    out: &mut String,
    request: &Request,
    approver: &Approver,
) -> Result<(), NoMemory>
    ensures { OnOk result (string_bytes out.new ≡ string_bytes out.old
        ++ lines_text (barred_for request.now approver.now.person.now approver.now.why)) }
{
    let Some(why) = approver.why else {
        return Ok(());
    };
    push_name(alloc, out, request)?;
    push_left(out, approver.person.as_str())?;
    out.push_str(" ")?;
    out.push_str(why.text())?;
    out.push_str("\n")?;
    Ok(())
}

/// The approver so far with one more approval, if that is by the same person; else the approver of
/// the new approval alone, after adding the line of the approver so far, if there is one.
fn next<'s>(
    alloc: Global,
    out: &mut String,
    request: &Request,
    last: Option<Approver<'s>>,
    approver: Approver<'s>,
) -> Result<Approver<'s>, NoMemory>
    ensures { IfOk result (λ then. (ws : List (List ℕ × Option AnyReason))
        → spec.with_lines request.now (string_bytes out.new) (spec.joined then.person.now
        then.why ws) ≡ spec.with_lines request.now (string_bytes out.old)
        (spec.before last.entry (spec.joined approver.entry.person.now approver.entry.why ws))) }
{
    let Some(last) = last else {
        return Ok(approver);
    };
    if last.person == approver.person {
        let why = both(last.why, approver.why);
        return Ok(Approver {
            person: approver.person,
            why,
        });
    }
    push_barred_line(alloc, out, request, &last)?;
    Ok(approver)
}

/// Adds the lines of the people in a list of approvals, which is ordered by person and then by
/// moment.
fn push_barred_people(
    alloc: Global,
    out: &mut String,
    roster: &Roster,
    ceiling: &Ceiling,
    request: &Request,
    approvals: &[(Name, Moment)],
) -> Result<(), NoMemory>
    ensures { OnOk result (string_bytes out.new ≡ spec.with_lines request.now (string_bytes out.old)
        (spec.whys (reason roster.now.says ceiling.now request.now.by) approvals.now)) }
{
    let mut last = None;
    for (person, at) in approvals {
        let why = why_barred(roster, ceiling, request.by(), person, *at);
        last = Some(next(alloc, out, request, last, Approver { person, why })?);
    }
    match last {
        Some(last) => push_barred_line(alloc, out, request, &last),
        None => Ok(()),
    }
}

/// Adds the lines under BARRED of a summary's request, if its status is open.
pub(crate) fn push_barred(
    alloc: Global,
    out: &mut String,
    roster: &Roster,
    summary: &Summary,
    status: &Status,
) -> Result<(), NoMemory>
    ensures { (set : List AnyMessage) → IsOutcome roster.now.says set summary.now status.now
        → OnOk result (AddsLines (report.AreBarred roster.now.says set (kept_name summary.now))
        (string_bytes out.old) (string_bytes out.new)) }
{
    let Some(open) = open_request(roster, summary, status) else {
        return Ok(());
    };
    let approvals = summary.approvals()?;
    push_barred_people(alloc, out, roster, open.ceiling, open.request, &approvals)
}
