//! The messages about some of the names.

ghost use Rattle.std.specs.Prelude.{List, [], ◌∷◌, ◌++◌, OnOk, map};
ghost use Rattle.messages.specs.declared.message.Message.{Message as AnyMessage};
ghost use Rattle.messages.specs.declared.request_name.RequestName.{RequestName as AnyName};
ghost use Rattle.outcomes.specs.Gathered.{AreGathered};
ghost use Rattle.suspects.specs.private.Parts.{AreWritable, IsPartFor};

use messages::{Message, RequestName};
use outcomes::{Gathered, Live, messages_in};
use std::alloc::Global;
use std::collections::BTreeSet;
use sudo_words::NoMemory;

/// Adds each message to a part.
fn take_each(part: &mut Gathered, list: &[Message]) -> Result<(), NoMemory>
    ensures { (some : List AnyMessage) → AreGathered some part.old
        → OnOk result (AreGathered (some ++ list.now) part.new) }
{
    for message in list {
        part.take(message)?;
    }
    Ok(())
}

/// Adds the messages about a name to a part, unless the name is disputed.
fn add_about(
    alloc: Global,
    part: &mut Gathered,
    gathered: &Gathered,
    name: &RequestName,
) -> Result<(), NoMemory>
    ensures { (set : List AnyMessage) (names : List AnyName) → AreWritable set gathered.now
        → IsPartFor set names part.old
        → OnOk result (IsPartFor set (names ++ name.now ∷ []) part.new) }
{
    match messages_in(alloc, gathered, name.by.as_str(), name.no)? {
        Some(list) => take_each(part, &list),
        None => Ok(()),
    }
}

/// Adds the messages about each name to a part, but for disputed ones.
pub(crate) fn add_names(
    alloc: Global,
    part: &mut Gathered,
    gathered: &Gathered,
    names: &BTreeSet<RequestName>,
) -> Result<(), NoMemory>
    ensures { (set : List AnyMessage) (before : List AnyName) → AreWritable set gathered.now
        → IsPartFor set before part.old
        → OnOk result (IsPartFor set (before ++ names.now.keys) part.new) }
{
    for name in names {
        add_about(alloc, part, gathered, name)?;
    }
    Ok(())
}

/// Adds the messages about the name of each grant to a part.
pub(crate) fn add_grants(
    alloc: Global,
    part: &mut Gathered,
    gathered: &Gathered,
    grants: &[Live],
) -> Result<(), NoMemory>
    ensures { (set : List AnyMessage) (before : List AnyName) → AreWritable set gathered.now
        → IsPartFor set before part.old
        → OnOk result (IsPartFor set (before ++ map (λ l. l.name) grants.now) part.new) }
{
    for live in grants {
        add_about(alloc, part, gathered, &live.name)?;
    }
    Ok(())
}
