//! One host's file.

ghost use Rattle.std.specs.Prelude.{◌≡◌, ◌⊎◌, ◌<◌, ◌≤◌, List, IfOk, IfErr};
ghost use Rattle.std.specs.Prelude.{IfSome, OnOk, MatchResult};
ghost use Rattle.std.specs.Prelude.{length, option_copied, string_bytes};
ghost use Rattle.std.specs.List.Sorted.{IsStrictlySortedBy};
ghost use Rattle.messages.specs.Names.{name_cmp};
ghost use Rattle.messages.specs.declared.message.Message.{Message as AnyMessage};
ghost use Rattle.grants.specs.Bases.{FitsBase};
ghost use Rattle.grants.specs.Summaries.{StandsFor};
ghost use Rattle.grants.specs.HostFaults.{most_lines};
ghost use Rattle.grants.specs.declared.host_fault.HostFault.TheVariants as fault;
ghost use Rattle.outcomes.specs.Gathered.{AreGathered};
ghost use Rattle.outcomes.specs.HostFile.{Line, AreLines};
ghost use Rattle.outcomes.specs.LinesLeft as left;
ghost use Rattle.outcomes.specs.private.Behind.{AreBehind, AreNamesLines};
ghost use Rattle.outcomes.specs.private.ByName.{AreRequests, Gathers};
ghost use Rattle.outcomes.specs.private.Index.{kept_of, names_lent};

use crate::base::Base;
use crate::gathering::Gathered;
use crate::walk::summary_at;
use grants::{HostFault, MOST_LINES, Summary, push_lines};
use messages::RequestName;
use roster::Roster;
use std::alloc::Global;
use std::collections::BTreeMap;
use sudo_words::{HostName, Moment, NoMemory};

/// Adds the lines that the request found under a name gives the host and that are left, and answers
/// how many these are: none if nobody asks under the name.
fn push_name(
    alloc: Global,
    text: &mut String,
    roster: &Roster,
    found: Option<&Summary>,
    host: &HostName,
    after: &Option<Moment>,
) -> Result<usize, NoMemory>
    ensures { (set : List AnyMessage) → IfSome found.entry (λ k. StandsFor set k.now)
        → IfOk result (AreNamesLines roster.now.says set host.now after.now
        (option_copied found.entry) (string_bytes text.old) (string_bytes text.new)) }
{
    match found {
        Some(summary) => push_lines(alloc, text, roster, summary, host, *after),
        None => Ok(0),
    }
}

/// Adds the lines that the requests of these names give the host and that are left, in the order of
/// the names: `TooManyRules` if they are more than 8,192.
fn push_all(
    alloc: Global,
    text: &mut String,
    roster: &Roster,
    summaries: &BTreeMap<RequestName, Summary>,
    names: &[&RequestName],
    host: &HostName,
    after: &Option<Moment>,
) -> Result<(), HostFault>
    requires { IsStrictlySortedBy name_cmp (names_lent names.now) }
    ensures ok { (set : List AnyMessage) → Gathers set summaries.now
        → OnOk result (AreBehind roster.now.says set host.now after.now
        (kept_of summaries.now (names_lent names.now))
        (string_bytes text.old) (string_bytes text.new)) }
    ensures err { (set : List AnyMessage) → Gathers set summaries.now
        → IfErr result (left.IsPast roster.now.says set host.now after.now) }
{
    let mut walk = summaries.range(..);
    let mut count = 0;
    for name in names {
        let found = summary_at(summaries, &mut walk, name);
        let more = push_name(alloc, text, roster, found, host, after)?;
        if more > MOST_LINES - count {
            return Err(HostFault::TooManyRules);
        }
        count += more;
    }
    Ok(())
}

/// States that the set gives the host lines, also those that have ended: no code makes this list.
/// The file has the lines of the list that are left.
fn has_lines(roster: &Roster, summaries: &BTreeMap<RequestName, Summary>, host: &HostName)
    ensures { (set : List AnyMessage) → Gathers set summaries.now → AreRequests summaries.now
        → (ls : List Line) × AreLines roster.now.says set host.now ls }
{
    // Only under a roster that was read from a text does each request have a status, and so its
    // lines or none. The clause of `text` says that this roster was.
    let _text = roster.text();
}

/// The text of the host's sudoers file: the base's canonical text, and after it a line for each
/// command of each request that is granted on the host, with the first and the last moment of its
/// window. With a moment, the lines that end before it are left out.
///
/// The error is `NoMemory` if memory runs out. Otherwise it is `TooManyRules`, exactly if more than
/// 8,192 lines would come after the base.
pub fn host_file_in(
    alloc: Global,
    roster: &Roster,
    base: &mut Base,
    gathered: &Gathered,
    host: &HostName,
    after: Option<Moment>,
) -> Result<String, HostFault>
    requires { FitsBase base.old }
    ensures file { (set : List AnyMessage) → AreGathered set gathered.now → IfOk result
        (λ s. left.IsFileLeft roster.now.says base.old set host.now after (string_bytes s)) }
    // With at most 8,192 lines the only error is want of memory, and with more there is no file.
    ensures few { (set : List AnyMessage) (ls : List Line)
        → AreGathered set gathered.now → AreLines roster.now.says set host.now ls
        → length (left.lines_left after ls) ≤ most_lines → IfErr result (λ e. e ≡ fault.NoMemory) }
    ensures many { (set : List AnyMessage) (ls : List Line) → AreGathered set gathered.now
        → AreLines roster.now.says set host.now ls → most_lines < length (left.lines_left after ls)
        → MatchResult result (λ _. ⊥) (λ e. (e ≡ fault.TooManyRules) ⊎ (e ≡ fault.NoMemory)) }
    ensures err { (set : List AnyMessage) → AreGathered set gathered.now
        → IfErr result (left.IsPast roster.now.says set host.now after) }
    ensures base { base.new ≡ base.old }
{
    let mut text = base.text(alloc)?;
    let names = gathered.index.names_at(alloc, host, &after)?;
    let summaries = &gathered.summaries;
    has_lines(roster, summaries, host);
    push_all(alloc, &mut text, roster, summaries, &names, host, &after)?;
    Ok(text)
}
