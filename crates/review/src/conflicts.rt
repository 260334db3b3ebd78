//! Who holds duties that conflict at a moment: a report's lines under CONFLICTS.

ghost use Rattle.std.specs.Prelude.{◌≡◌, ℕ, List, ◌++◌, IfOk, OnOk, codes, map, string_bytes};
ghost use Rattle.std.specs.List.{flat_map};
ghost use Rattle.review.specs.Columns.{lines_text};
ghost use Rattle.review.specs.Report as report;

use crate::columns::push_left;
use roster::Roster;
use std::alloc::Global;
use sudo_words::{Label, Moment, Name, NoMemory, in_order};

/// The two duties, the lesser first.
fn lesser_first(one: &Label, other: &Label) -> Result<(Label, Label), NoMemory>
    ensures { IfOk result (λ pair. pair ≡ report.lesser_first (one.now, other.now)) }
{
    if other < one {
        Ok((other.clone()?, one.clone()?))
    } else {
        Ok((one.clone()?, other.clone()?))
    }
}

/// The pairs as they are listed, each with the lesser duty first.
fn turned(alloc: Global, conflicts: &[(Label, Label)]) -> Result<Vec<(Label, Label)>, NoMemory>
    ensures { IfOk result (λ pairs. pairs.items ≡ map report.lesser_first conflicts.now) }
{
    let mut pairs = Vec::new(alloc);
    for (one, other) in conflicts {
        pairs.push(lesser_first(one, other)?)?;
    }
    Ok(pairs)
}

/// Whether the person holds both duties at the moment.
fn holds_both(roster: &Roster, at: Moment, person: &Name, pair: &(Label, Label)) -> bool
    ensures { result ≡ report.holds_both roster.now.says at person.now pair.now }
{
    roster.holds(person, &pair.0, at) && roster.holds(person, &pair.1, at)
}

/// Adds the line of a pair.
fn push_pair(out: &mut String, person: &Name, pair: &(Label, Label)) -> Result<(), NoMemory>
    ensures { OnOk result (string_bytes out.new
        ≡ string_bytes out.old ++ report.conflict_line person.now pair.now ++ codes "\n") }
{
    let (lesser, greater) = pair;
    push_left(out, person.as_str())?;
    out.push_str(" ")?;
    push_left(out, lesser.as_str())?;
    out.push_str(" ")?;
    out.push_str(greater.as_str())?;
    out.push_str("\n")?;
    Ok(())
}

/// Adds the line of a pair, if the person holds both duties at the moment.
fn push_conflict(
    out: &mut String,
    roster: &Roster,
    at: Moment,
    person: &Name,
    pair: &(Label, Label),
) -> Result<(), NoMemory>
    ensures { OnOk result (string_bytes out.new ≡ string_bytes out.old
        ++ lines_text (report.conflict_for roster.now.says at person.now pair.now)) }
{
    if !holds_both(roster, at, person, pair) {
        return Ok(());
    }
    push_pair(out, person, pair)
}

/// Adds the lines of a person: one for each of the pairs that the person holds at the moment.
fn push_conflicts(
    out: &mut String,
    roster: &Roster,
    at: Moment,
    person: &Name,
    pairs: &[(Label, Label)],
) -> Result<(), NoMemory>
    ensures { OnOk result (string_bytes out.new ≡ string_bytes out.old
        ++ lines_text (flat_map (report.conflict_for roster.now.says at person.now) pairs.now)) }
{
    for pair in pairs {
        push_conflict(out, roster, at, person, pair)?;
    }
    Ok(())
}

/// Adds the lines under CONFLICTS.
pub(crate) fn push_all_conflicts(
    alloc: Global,
    out: &mut String,
    roster: &Roster,
    at: Moment,
) -> Result<(), NoMemory>
    ensures { OnOk result ((pairs : List (List ℕ × List ℕ)) × report.ArePairs roster.now.says pairs
        × (string_bytes out.new ≡ string_bytes out.old ++ lines_text
        (flat_map (report.conflicts_of roster.now.says at pairs) roster.now.says.people))) }
{
    let pairs = in_order(turned(alloc, roster.conflicts())?);
    for entry in roster.people() {
        push_conflicts(out, roster, at, &entry.0, &pairs)?;
    }
    Ok(())
}
