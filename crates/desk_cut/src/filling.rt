//! Filling a desk with messages.

ghost use Rattle.std.specs.Prelude.{◌≡◌, IfErr, OnOk};
ghost use Rattle.messages.specs.Wire.{IsMessage};
ghost use Rattle.store_tables.specs.Sets.{IsWith, SameSet};
ghost use Rattle.desk_cut.specs.Growing.{IsOfKeeper, WithAll};

use crate::refusal::CutRefusal;
use desk_store::Keeper;
use messages::{MOST_BYTES, Message, text};
use std::alloc::Global;

/// States that the message is valid, as each is. It does nothing: it is there for a proof.
fn is_valid(message: &Message)
    ensures { IsMessage message.now }
{
    match message {
        Message::Request(request) => {
            let _valid = request.until();
        }
        Message::Verdict(verdict) => {
            let _valid = verdict.at();
        }
    }
}

/// Adds the message to the desk. No desk writes a longer text than may be delivered.
fn add<K: Keeper>(alloc: Global, keeper: &mut K, message: &Message) -> Result<(), CutRefusal>
    requires { K.is_up keeper.old → K.is_desk keeper.old }
    ensures up { K.is_up keeper.new → K.is_up keeper.old }
    ensures clean { K.is_clean keeper.new → K.is_clean keeper.old }
    ensures desk { K.is_up keeper.new → K.is_desk keeper.new }
    ensures roster { K.is_up keeper.new → K.roster keeper.new ≡ K.roster keeper.old }
    ensures added { K.is_up keeper.new
        → OnOk result (IsWith (K.holds keeper.old) message.now (K.holds keeper.new)) }
    ensures kind { IfErr result IsOfKeeper }
    ensures live { K.is_clean keeper.new → OnOk result (K.is_up keeper.new) }
{
    let text = text(alloc, message)?;
    if text.len() > MOST_BYTES {
        return Err(CutRefusal::Storage);
    }
    is_valid(message);
    keeper.add(message, text.as_str())?;
    Ok(())
}

/// Adds the messages to those of a desk, each in a commit of its own: what a cut keeps to a desk
/// that begins, or an archive to what stayed. After a refusal a part of the messages may be there.
pub fn fill<K: Keeper>(
    alloc: Global,
    keeper: &mut K,
    messages: &[Message],
) -> Result<(), CutRefusal>
    requires { K.is_up keeper.old → K.is_desk keeper.old }
    ensures up { K.is_up keeper.new → K.is_up keeper.old }
    ensures clean { K.is_clean keeper.new → K.is_clean keeper.old }
    ensures desk { K.is_up keeper.new → K.is_desk keeper.new }
    ensures roster { K.is_up keeper.new → K.roster keeper.new ≡ K.roster keeper.old }
    ensures held { K.is_up keeper.new → OnOk result
        (SameSet (WithAll (K.holds keeper.old) messages.now) (K.holds keeper.new)) }
    ensures kind { IfErr result IsOfKeeper }
    ensures live { K.is_up keeper.old → K.is_clean keeper.new → OnOk result (K.is_up keeper.new) }
{
    for message in messages {
        add(alloc, keeper, message)?;
    }
    Ok(())
}
