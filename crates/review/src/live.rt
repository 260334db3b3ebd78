//! The grants in force at a moment: a report's lines under LIVE.

ghost use Rattle.std.specs.Prelude.{◌≡◌, List, [], ◌++◌, IfSome, OnOk, codes, string_bytes};
ghost use Rattle.sudo_words.specs.declared.cmnd.Cmnd.{Cmnd};
ghost use Rattle.messages.specs.declared.message.Message.{Message as AnyMessage};
ghost use Rattle.roster.specs.Fields.{RosterFields};
ghost use Rattle.review.specs.Report as report;
ghost use Rattle.review.specs.private.Reporting.{AddsLines, IsInForceOf};
ghost use Rattle.review.specs.private.Reporting.{IsOutcome, IsSpan, kept_name};

use crate::columns::{push_left, push_name};
use crate::need::{Need, need_of};
use grants::{Status, Summary, Window};
use messages::Request;
use std::alloc::Global;
use std::fmt::Write as _;
use sudo_beyond::Baseline;
use sudo_policy::Policy;
use sudo_words::{Moment, NoMemory};

/// A request whose grant is in force, and its window.
#[derive(Clone, Copy)]
pub(crate) struct InForce<'s> {
    pub(crate) request: &'s Request,
    pub(crate) window: Window,
}

/// The summary's request and its window, if its status is granted and the window holds the
/// moment.
pub(crate) fn in_force<'s>(summary: &'s Summary, status: &Status, at: Moment) -> Option<InForce<'s>>
    ensures given { (f : RosterFields Cmnd) (set : List AnyMessage)
        → IsOutcome f set summary.now status.now → IsInForceOf f set at summary.now result }
    ensures span { IfSome result (λ grant. IsSpan grant.window) }
{
    let window = status.window_at(at)?;
    let request = summary.request()?;
    Some(InForce { request, window })
}

/// Adds who asked, the number of the request, and its ceiling.
fn push_grant(alloc: Global, out: &mut String, request: &Request) -> Result<(), NoMemory>
    ensures { OnOk result
        (string_bytes out.new ≡ string_bytes out.old ++ report.grant_columns request.now) }
{
    push_name(alloc, out, request)?;
    push_left(out, request.ceiling().as_str())
}

/// Adds the window's first and last moment.
fn push_span(out: &mut String, window: &Window) -> Result<(), NoMemory>
    ensures { OnOk result
        (string_bytes out.new ≡ string_bytes out.old ++ report.span_columns window.now) }
{
    let start = window.start;
    let end = window.end;
    write!(out, " {start} {end} ")?;
    Ok(())
}

/// Adds the line of a grant under LIVE.
fn push_live_line(
    alloc: Global,
    out: &mut String,
    request: &Request,
    window: &Window,
    need: Need,
) -> Result<(), NoMemory>
    ensures { OnOk result (string_bytes out.new
        ≡ string_bytes out.old ++ report.live_line request.now window.now need ++ codes "\n") }
{
    push_grant(alloc, out, request)?;
    push_span(out, window)?;
    out.push_str(need.text())?;
    out.push_str("\n")?;
    Ok(())
}

/// Adds the line under LIVE of a summary's request, if by its status it is in force at the moment.
pub(crate) fn push_live(
    alloc: Global,
    out: &mut String,
    base: &Baseline<'_>,
    empty: &Policy,
    summary: &Summary,
    status: &Status,
    at: Moment,
) -> Result<(), NoMemory>
    requires { empty.now ≡ [] }
    ensures { (f : RosterFields Cmnd) (set : List AnyMessage)
        → IsOutcome f set summary.now status.now
        → OnOk result (AddsLines (report.AreInForce f set at (report.IsLiveLine base.now)
        (kept_name summary.now)) (string_bytes out.old) (string_bytes out.new)) }
{
    let Some(grant) = in_force(summary, status, at) else {
        return Ok(());
    };
    let need = need_of(alloc, base, empty, grant.request, &grant.window)?;
    push_live_line(alloc, out, grant.request, &grant.window, need)
}
