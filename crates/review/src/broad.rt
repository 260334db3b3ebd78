//! The commands of grants in force that are ALL or a directory: a report's lines under BROAD.

ghost use Rattle.std.specs.Prelude.{◌≡◌, List, ◌++◌, OnOk, codes, string_bytes};
ghost use Rattle.std.specs.List.{flat_map};
ghost use Rattle.sudo_words.specs.declared.cmnd.Cmnd.{Cmnd as AnyCmnd};
ghost use Rattle.messages.specs.Names.{name_of};
ghost use Rattle.messages.specs.declared.message.Message.{Message as AnyMessage};
ghost use Rattle.roster.specs.Fields.{RosterFields};
ghost use Rattle.review.specs.Columns.{lines_text, name_columns};
ghost use Rattle.review.specs.Report as report;
ghost use Rattle.review.specs.private.Reporting.{AddsLines, IsOutcome, kept_name};

use crate::columns::push_name;
use crate::live::in_force;
use grants::{Status, Summary};
use messages::Request;
use std::alloc::Global;
use sudo_words::{Cmnd, Moment, NoMemory};

/// Adds the line of a command with this text.
fn push_broad_text(
    alloc: Global,
    out: &mut String,
    request: &Request,
    text: &str,
) -> Result<(), NoMemory>
    ensures { OnOk result (string_bytes out.new ≡ string_bytes out.old
        ++ (name_columns (name_of request.now) ++ codes " " ++ text.now) ++ codes "\n") }
{
    push_name(alloc, out, request)?;
    out.push_str(text)?;
    out.push_str("\n")?;
    Ok(())
}

/// Adds the line of a command, if it is ALL or a directory.
fn push_broad_line(
    alloc: Global,
    out: &mut String,
    request: &Request,
    cmnd: &Cmnd,
) -> Result<(), NoMemory>
    ensures { OnOk result (string_bytes out.new
        ≡ string_bytes out.old ++ lines_text (report.broad_for request.now cmnd.now)) }
{
    match cmnd {
        Cmnd::All => push_broad_text(alloc, out, request, "ALL"),
        Cmnd::Dir(dir) => push_broad_text(alloc, out, request, dir.as_str()),
        Cmnd::Path(_, _) => Ok(()),
    }
}

/// Adds the lines of those of a request's commands that are ALL or a directory.
fn push_broad_lines(alloc: Global, out: &mut String, request: &Request) -> Result<(), NoMemory>
    ensures { OnOk result (string_bytes out.new ≡ string_bytes out.old
        ++ lines_text (flat_map (report.broad_for request.now) request.now.cmnds)) }
{
    for cmnd in request.cmnds() {
        push_broad_line(alloc, out, request, cmnd)?;
    }
    Ok(())
}

/// Adds the lines under BROAD of a summary's request, if by its status it is in force at the
/// moment.
pub(crate) fn push_broad(
    alloc: Global,
    out: &mut String,
    summary: &Summary,
    status: &Status,
    at: Moment,
) -> Result<(), NoMemory>
    ensures { (f : RosterFields AnyCmnd) (set : List AnyMessage)
        → IsOutcome f set summary.now status.now
        → OnOk result (AddsLines (report.AreInForce f set at report.AreBroadLines
        (kept_name summary.now)) (string_bytes out.old) (string_bytes out.new)) }
{
    let Some(grant) = in_force(summary, status, at) else {
        return Ok(());
    };
    push_broad_lines(alloc, out, grant.request)
}
