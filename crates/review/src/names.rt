//! A report's lines for the names under which somebody asks: those under LIVE, BARRED and BROAD.

ghost use Rattle.std.specs.Prelude.{◌≡◌, List, [], IfOk, OnOk};
ghost use Rattle.std.specs.List.{AllByRecursion};
ghost use Rattle.messages.specs.declared.message.Message.{Message as AnyMessage};
ghost use Rattle.grants.specs.Summaries.{StandsFor};
ghost use Rattle.review.specs.private.Names.{AddsName, HaveNames};

use crate::barred::push_barred;
use crate::broad::push_broad;
use crate::live::push_live;
use crate::need::no_policy;
use grants::{Summary, status};
use roster::Roster;
use std::alloc::Global;
use sudo_beyond::Baseline;
use sudo_policy::Policy;
use sudo_words::{Moment, NoMemory};

/// The lines of names, part by part.
#[derive(Drop)]
pub(crate) struct Parts {
    pub(crate) live: String,
    pub(crate) barred: String,
    pub(crate) broad: String,
}

/// Adds the lines of a summary's name to each part. The name's status is worked out once, for all
/// parts.
fn push_parts(
    alloc: Global,
    parts: &mut Parts,
    roster: &Roster,
    base: &Baseline<'_>,
    empty: &Policy,
    summary: &Summary,
    at: Moment,
) -> Result<(), NoMemory>
    requires { empty.now ≡ [] }
    ensures { (set : List AnyMessage) → StandsFor set summary.now
        → OnOk result (AddsName roster.now.says base.now set at summary.now parts.old parts.new) }
{
    let status = status(roster, summary);
    push_live(alloc, &mut parts.live, base, empty, summary, &status, at)?;
    push_barred(alloc, &mut parts.barred, roster, summary, &status)?;
    push_broad(alloc, &mut parts.broad, summary, &status, at)
}

/// The lines of the names of summaries, in their order. The base is compiled and measured once, for
/// all names.
pub(crate) fn parts_of(
    alloc: Global,
    roster: &Roster,
    base: &Policy,
    summaries: &[Summary],
    at: Moment,
) -> Result<Parts, NoMemory>
    ensures { (set : List AnyMessage) → AllByRecursion (StandsFor set) summaries.now
        → IfOk result (HaveNames roster.now.says base.now set at summaries.now) }
{
    let baseline = Baseline::of(alloc, base)?;
    let empty = no_policy(alloc);
    let live = String::new(alloc);
    let barred = String::new(alloc);
    let broad = String::new(alloc);
    let mut parts = Parts {
        live,
        barred,
        broad,
    };
    for summary in summaries {
        push_parts(alloc, &mut parts, roster, &baseline, &empty, summary, at)?;
    }
    Ok(parts)
}
