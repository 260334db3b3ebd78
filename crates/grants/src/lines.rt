//! The lines of a grant, written after a text: the lines of its rules, without building the rules.

ghost use Rattle.std.specs.Prelude.{◌≡◌, ◌++◌, IfOk, List, OnErr, OnOk, map, string_bytes, true};
ghost use Rattle.sudo_words.specs.Command.{IsLawful};
ghost use Rattle.sudo_policy.specs.Printing.{line_text};
ghost use Rattle.sudo_policy.specs.declared.entry.Entry.TheVariants as entries;
ghost use Rattle.messages.specs.Fields.{IsRequest};
ghost use Rattle.messages.specs.Names.{name_of};
ghost use Rattle.messages.specs.declared.message.Message.{Message as AnyMessage};
ghost use Rattle.grants.specs.private.Lines as lines;
ghost use Rattle.grants.specs.GrantLines.{AreAdded, AreWritten, rules_left};
ghost use Rattle.grants.specs.GrantRules.{grant_rule};
ghost use Rattle.grants.specs.Statuses.{IsStatus};
ghost use Rattle.grants.specs.Summaries.{StandsFor};
ghost use Rattle.grants.specs.declared.outcome.Status.{Status as AnyStatus};

use crate::outcome::{Status, Window};
use crate::request_status::status;
use crate::summary::Summary;
use messages::Request;
use roster::Roster;
use std::alloc::{AllocError, Global};
use sudo_policy::{push_command, push_moment};
use sudo_words::{Cmnd, HostName, Moment, NoMemory};

/// Most lines are shorter than this: the buffer for a request of one command seldom has to grow.
const COMMON_LENGTH: usize = 128;

/// Adds who may run a command, on which host and as whom.
fn push_who(text: &mut String, host: &HostName, request: &Request) -> Result<(), AllocError>
    ensures { OnOk result
        (string_bytes text.new ≡ string_bytes text.old ++ lines.who host.now request.now) }
{
    text.push_str(request.by().as_str())?;
    text.push_str(" ")?;
    text.push_str(host.as_str())?;
    text.push_str(" = (")?;
    text.push_str(request.runas().as_str())
}

/// Adds when the asker may run the command, up to and including the space before the command.
fn push_when(text: &mut String, window: &Window) -> Result<(), AllocError>
    ensures { OnOk result (string_bytes text.new
        ≡ string_bytes text.old ++ lines.when window.now.start window.now.end) }
{
    text.push_str(") NOTBEFORE=")?;
    push_moment(text, window.start)?;
    text.push_str(" NOTAFTER=")?;
    push_moment(text, window.end)?;
    text.push_str(" ")
}

/// Adds the line of one command.
fn push_line(
    alloc: Global,
    text: &mut String,
    host: &HostName,
    request: &Request,
    window: &Window,
    cmnd: &Cmnd,
) -> Result<(), NoMemory>
    requires { IsLawful cmnd.now }
    ensures { OnOk result (string_bytes text.new ≡ string_bytes text.old ++ line_text
        (entries.Rule (grant_rule host.now request.now window.now.start window.now.end cmnd.now))) }
{
    push_who(text, host, request)?;
    push_when(text, window)?;
    push_command(alloc, text, cmnd)?;
    text.push_str("\n")?;
    Ok(())
}

/// Adds the lines of all commands, in their order, and answers how many they are.
fn push_commands(
    alloc: Global,
    text: &mut String,
    host: &HostName,
    request: &Request,
    window: &Window,
) -> Result<usize, NoMemory>
    ensures { IfOk result (λ count. AreAdded (map (grant_rule host.now request.now window.now.start
        window.now.end) request.now.cmnds) (string_bytes text.old) (string_bytes text.new) count) }
{
    for cmnd in request.cmnds() {
        push_line(alloc, text, host, request, window, cmnd)?;
    }
    Ok(request.cmnds().len())
}

/// Adds the lines of all commands, as `push_commands` does, or of none if memory runs out.
fn push_whole(
    alloc: Global,
    text: &mut String,
    host: &HostName,
    request: &Request,
    window: &Window,
) -> Result<usize, NoMemory>
    ensures ok { IfOk result (λ count. AreAdded
        (map (grant_rule host.now request.now window.now.start window.now.end) request.now.cmnds)
        (string_bytes text.old) (string_bytes text.new) count) }
    ensures err { OnErr result (string_bytes text.new ≡ string_bytes text.old) }
{
    let mut lines = String::with_capacity(alloc, COMMON_LENGTH)?;
    let count = push_commands(alloc, &mut lines, host, request, window)?;
    text.push_str(lines.as_str())?;
    Ok(count)
}

/// Whether a line with this last moment is left.
fn is_left(after: &Option<Moment>, last: Moment) -> bool
    ensures { result ≡ lines.is_left after.now last }
{
    match *after {
        None => true,
        Some(moment) => moment <= last,
    }
}

/// Whether the request can have lines for the host that are left, whatever its status: its window
/// never ends later than it asks for.
fn may_have(request: &Request, host: &HostName, after: &Option<Moment>) -> bool
    ensures value { result ≡ lines.may_have after.now host.now request.now }
    ensures request { IsRequest request.now }
{
    is_left(after, request.until()) && request.hosts().contains(host)
}

/// Adds the lines that are left of a request that names the host and has this status, and answers
/// how many they are.
fn push_left(
    alloc: Global,
    text: &mut String,
    host: &HostName,
    request: &Request,
    status: Status,
    after: &Option<Moment>,
) -> Result<usize, NoMemory>
    requires { lines.names request.now host.now ≡ true }
    ensures ok { IfOk result (λ count. AreAdded (rules_left after.now host.now request.now status)
        (string_bytes text.old) (string_bytes text.new) count) }
    ensures err { OnErr result (string_bytes text.new ≡ string_bytes text.old) }
{
    match status {
        Status::Granted(window) if is_left(after, window.end) => {
            push_whole(alloc, text, host, request, &window)
        }
        _ => Ok(0),
    }
}

/// States that the request has a status, whether it is looked up or not.
fn has_status(roster: &Roster, s: &Summary)
    ensures { (set : List AnyMessage) → StandsFor set s.now
        → (status : AnyStatus) × IsStatus roster.now.says set (name_of s.now.request) status }
{
    let _text = roster.text();
    let _hosts = s.request.hosts();
}

/// Adds to the text the lines that the request gives the host under this roster, and answers how
/// many they are: one for each of its commands, in its order, if it names the host and is granted.
/// With a moment, lines that end before it are left out.
pub fn push_lines(
    alloc: Global,
    text: &mut String,
    roster: &Roster,
    s: &Summary,
    host: &HostName,
    after: Option<Moment>,
) -> Result<usize, NoMemory>
    // The lines follow from the status that each set for which the summary stands gives the
    // request, and they are lines of rules of grants.
    ensures ok { (set : List AnyMessage) → StandsFor set s.now
        → IfOk result (AreWritten roster.now.says set s.now.request host.now after
        (string_bytes text.old) (string_bytes text.new)) }
    // If memory runs out, the text is as it was.
    ensures err { OnErr result (string_bytes text.new ≡ string_bytes text.old) }
{
    if may_have(&s.request, host, &after) {
        push_left(alloc, text, host, &s.request, status(roster, s), &after)
    } else {
        has_status(roster, s);
        Ok(0)
    }
}
