//! The report of a set of messages at a moment.

ghost use Rattle.std.specs.Prelude.{◌≡◌, List, ◌++◌, Contains, IfOk, OnOk, codes, map};
ghost use Rattle.std.specs.Prelude.{string_bytes};
ghost use Rattle.sudo_words.specs.Moment.{stamp};
ghost use Rattle.sudo_policy.specs.declared.entry.Entry.{Entry};
ghost use Rattle.messages.specs.Wire.{IsMessage};
ghost use Rattle.messages.specs.declared.message.Message.{Message as AnyMessage};
ghost use Rattle.grants.specs.Summaries.{Kept};
ghost use Rattle.outcomes.specs.Parked.{AreParked};
ghost use Rattle.outcomes.specs.Summaries.{AreSummaries};
ghost use Rattle.suspects.specs.LookedAt.{AreReviewed};
ghost use Rattle.review.specs.Columns.{lines_text};
ghost use Rattle.review.specs.Report.{IsReport};
ghost use Rattle.review.specs.private.Names.{HaveNames};

use crate::conflicts::push_all_conflicts;
use crate::names::{Parts, parts_of};
use grants::Summary;
use roster::Roster;
use std::alloc::Global;
use std::fmt::Write as _;
use sudo_policy::Policy;
use sudo_words::{Moment, NoMemory};

/// Adds the first line and the first heading.
fn push_head(out: &mut String, at: Moment) -> Result<(), NoMemory>
    ensures { OnOk result (string_bytes out.new
        ≡ string_bytes out.old ++ (codes "REVIEW " ++ stamp at ++ codes "\nLIVE\n")) }
{
    write!(out, "REVIEW {at}\nLIVE\n")?;
    Ok(())
}

/// Adds each text as a line.
fn push_texts(out: &mut String, texts: &[String]) -> Result<(), NoMemory>
    ensures { OnOk result
        (string_bytes out.new ≡ string_bytes out.old ++ lines_text (map string_bytes texts.now)) }
{
    for text in texts {
        out.push_str(text.as_str())?;
        out.push_str("\n")?;
    }
    Ok(())
}

/// States that the lines of the names that a report looks at are those of all names: the other
/// names have none. The function does nothing: it is there for a proof.
fn is_whole(roster: &Roster, _base: &Policy, _summaries: &[Summary], _at: Moment, _parts: &Parts)
    ensures { (set : List AnyMessage) → ((m : AnyMessage) → Contains set m → IsMessage m)
        → AreReviewed roster.now.says set _at _summaries.now
        → HaveNames roster.now.says _base.now set _at _summaries.now _parts.now → (all : List Kept)
        × AreSummaries set all × HaveNames roster.now.says _base.now set _at all _parts.now }
{
    // Each request has a status only under a roster. The clause of `text` says that this is one.
    let _text = roster.text();
}

/// The report whose names have these lines, and whose parked texts are these.
fn joined(
    alloc: Global,
    roster: &Roster,
    parts: &Parts,
    parked: &[String],
    at: Moment,
) -> Result<String, NoMemory>
    ensures { (base : List Entry) (set : List AnyMessage) (kept : List Kept)
        → AreSummaries set kept → HaveNames roster.now.says base set at kept parts.now
        → AreParked set (map string_bytes parked.now)
        → IfOk result (λ s. IsReport roster.now.says base set at (string_bytes s)) }
{
    let mut out = String::new(alloc);
    push_head(&mut out, at)?;
    out.push_str(parts.live.as_str())?;
    out.push_str("BARRED\n")?;
    out.push_str(parts.barred.as_str())?;
    out.push_str("CONFLICTS\n")?;
    push_all_conflicts(alloc, &mut out, roster, at)?;
    out.push_str("BROAD\n")?;
    out.push_str(parts.broad.as_str())?;
    out.push_str("PARKED\n")?;
    push_texts(&mut out, parked)?;
    Ok(out)
}

/// The report of a set of messages at the moment: which grants are in force and whether they are
/// needed beside the base, whose approvals did not count and why, who holds conflicting duties,
/// which grants are of ALL or of a directory, and which verdicts wait for their request (NIST SP
/// 800-53 AC-5, AC-6(7)).
///
/// The summaries are in the order of their names: those of the whole set, or those that a report at
/// the moment looks at. The parked texts are in byte order.
pub fn report_of(
    alloc: Global,
    roster: &Roster,
    base: &Policy,
    summaries: &[Summary],
    parked: &[String],
    at: Moment,
) -> Result<String, NoMemory>
    ensures all { (set : List AnyMessage) → AreSummaries set summaries.now
        → AreParked set (map string_bytes parked.now)
        → IfOk result (λ s. IsReport roster.now.says base.now set at (string_bytes s)) }
    ensures reviewed { (set : List AnyMessage) → ((m : AnyMessage) → Contains set m → IsMessage m)
        → AreReviewed roster.now.says set at summaries.now
        → AreParked set (map string_bytes parked.now)
        → IfOk result (λ s. IsReport roster.now.says base.now set at (string_bytes s)) }
{
    let parts = parts_of(alloc, roster, base, summaries, at)?;
    is_whole(roster, base, summaries, at, &parts);
    joined(alloc, roster, &parts, parked, at)
}
