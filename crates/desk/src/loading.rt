//! What is known of a desk's messages, kept from one call to the next.

ghost use Rattle.std.specs.Prelude.{◌≡◌, List, [], ◌∷◌, ◌++◌, IfErr};
ghost use Rattle.std.specs.Prelude.{Contains, IfOk, OnOk, IsErr, IfSome, Ok, Err, None, Some};
ghost use Rattle.sudo_words.specs.declared.cmnd.Cmnd.{Cmnd as AnyCmnd};
ghost use Rattle.messages.specs.declared.message.Message.{Message as AnyMessage};
ghost use Rattle.roster.specs.Fields.{RosterFields};
ghost use Rattle.desk.specs.Count.{IsCount};
ghost use Rattle.desk.specs.private.Known.{IsCounted, IsKnown, IsKnownIn, IsKnownOfUp, set_after};
ghost use Rattle.desk.specs.Refusals.{IsWant};
ghost use Rattle.desk.specs.declared.refusal.Refusal.TheVariants as refusal;
ghost use Rattle.desk_store.specs.Left.{AddsOnly, IsDeskOf, LeavesOnly};
ghost use Rattle.desk_store.specs.Serves.{Serves};
ghost use Rattle.store_tables.specs.Arrivals.{IsTold};
ghost use Rattle.store_tables.specs.declared.arrival.Arrival.{Arrival as AnyArrival};
ghost use Rattle.store_tables.specs.Sets.{Lists, SameSet};

use crate::refusal::Refusal;
use desk_store::{Keeper, KeeperError};
use messages::{Message, RequestName};
use outcomes::Gathered;
use roster::Roster;
use std::collections::BTreeSet;
use store_tables::Arrival;
use suspects::with_suspect;

/// What is known of a set of messages.
#[derive(Drop)]
pub(crate) struct Known {
    /// What the messages come to.
    pub(crate) gathered: Gathered,
    /// How many messages there are, if they were counted.
    pub(crate) count: Option<usize>,
    /// The names under which an approval may not count, if a report has looked for them.
    pub(crate) suspects: Option<BTreeSet<RequestName>>,
}

/// The keeper's messages. The desk stays as it is, and a crash leaves nothing that it might not
/// have left before. What is known of the messages stays known. What is known and the roster are
/// arguments for the proof alone.
pub(crate) fn listed<K: Keeper>(
    keeper: &mut K,
    _roster: &Roster,
    _known: &Option<Known>,
) -> Result<Vec<Message>, KeeperError>
    requires desk { K.is_up keeper.old → K.is_desk keeper.old }
    requires known { IsKnown _roster.now.says (K.is_up keeper.old) (K.holds keeper.old) _known.now }
    ensures known { IsKnown _roster.now.says (K.is_up keeper.new) (K.holds keeper.new) _known.now }
    ensures live { K.is_clean keeper.new → OnOk result (K.is_up keeper.new) }
    ensures leaves { K.is_clean keeper.new
        → AddsOnly (K.may_leave keeper.old) (K.may_leave keeper.new) (λ _. ⊥) }
    ensures listed { K.is_up keeper.new
        → IfOk result (λ list. Lists (K.holds keeper.old) list.items) }
    ensures same { K.is_up keeper.new → K.is_same keeper.old keeper.new }
    ensures desk { K.is_up keeper.new → K.is_desk keeper.new }
    ensures roster { K.is_up keeper.new → K.roster keeper.new ≡ K.roster keeper.old }
    ensures served { Serves K.Keeper keeper.old keeper.new
        (result ≡ Err KeeperError.Storage) (IsErr result) }
    ensures durable { K.is_up keeper.new → LeavesOnly (K.may_leave keeper.new)
        (IsDeskOf (K.roster keeper.new) (K.holds keeper.new)) }
{
    keeper.messages()
}

/// What is known of the messages: what was known already, or else what the keeper gathers. The desk
/// stays as it is, and a crash leaves nothing that it might not have left before. The roster is an
/// argument for the proof alone.
pub(crate) fn known_of<K: Keeper>(
    _roster: &Roster,
    known: Option<Known>,
    keeper: &mut K,
) -> Result<Known, Refusal>
    requires desk { K.is_up keeper.old → K.is_desk keeper.old }
    requires known { IsKnown _roster.now.says (K.is_up keeper.old) (K.holds keeper.old) known }
    requires live { IsKnownOfUp (K.is_clean keeper.old) (K.is_up keeper.old) known }
    requires durable { K.is_up keeper.old → LeavesOnly (K.may_leave keeper.old)
        (IsDeskOf (K.roster keeper.old) (K.holds keeper.old)) }
    ensures known { IfOk result (λ g. IsKnown _roster.now.says
        (K.is_up keeper.new) (K.holds keeper.old) (Some g)) }
    ensures still_known { IfOk result (λ g. IsKnown _roster.now.says
        (K.is_up keeper.new) (K.holds keeper.new) (Some g)) }
    ensures err { IfErr result IsWant }
    ensures live { K.is_clean keeper.new → OnOk result (K.is_up keeper.new) }
    ensures leaves { K.is_clean keeper.new
        → AddsOnly (K.may_leave keeper.old) (K.may_leave keeper.new) (λ _. ⊥) }
    ensures same { K.is_up keeper.new → K.is_same keeper.old keeper.new }
    ensures set { K.is_up keeper.new → SameSet (K.holds keeper.old) (K.holds keeper.new) }
    ensures desk { K.is_up keeper.new → K.is_desk keeper.new }
    ensures roster { K.is_up keeper.new → K.roster keeper.new ≡ K.roster keeper.old }
    ensures served { Serves K.Keeper keeper.old keeper.new
        (result ≡ Err refusal.Storage) (IsErr result) }
    ensures durable { K.is_up keeper.new → LeavesOnly (K.may_leave keeper.new)
        (IsDeskOf (K.roster keeper.new) (K.holds keeper.new)) }
{
    match known {
        Some(known) => Ok(known),
        None => Ok(Known {
            gathered: keeper.gather()?,
            count: None,
            suspects: None,
        }),
    }
}

/// One more than the count, if there is a count and the sum does not overflow.
fn one_more(count: Option<usize>) -> Option<usize>
    ensures { (set : List AnyMessage) (m : AnyMessage) → ¬ Contains set m
        → IsCounted set count → IsCounted (set ++ m ∷ []) result }
{
    match count {
        Some(count) => count.checked_add(1),
        None => None,
    }
}

/// What is known with one message more; nothing, where memory runs out.
fn with_message(known: Option<Known>, message: &Message) -> Option<Known>
    ensures more { (f : RosterFields AnyCmnd) (set : List AnyMessage) → ¬ Contains set message.now
        → IfSome known (IsKnownIn f set)
        → IfSome result (IsKnownIn f (set ++ message.now ∷ [])) }
    ensures nothing { known ≡ None → result ≡ None }
{
    let Some(mut known) = known else {
        return None;
    };
    known.count = one_more(known.count);
    known.suspects = with_suspect(known.suspects.take(), message);
    match known.gathered.take(message) {
        Ok(()) => Some(known),
        Err(_) => None,
    }
}

/// What is known after the keeper was asked to add the message: the same where the message was held
/// already, what is known with one message more where the message is new, and nothing where the
/// keeper refused the message.
pub(crate) fn known_after(
    known: Option<Known>,
    message: &Message,
    added: &Result<Arrival, KeeperError>,
) -> Option<Known>
    ensures more { (f : RosterFields AnyCmnd) (set : List AnyMessage) (arrival : AnyArrival)
        → added.now ≡ Ok arrival → IsTold (Contains set message.now) arrival
        → IfSome known (IsKnownIn f set)
        → IfSome result (IsKnownIn f (set_after arrival set message.now)) }
    ensures nothing { known ≡ None → result ≡ None }
{
    match added {
        Ok(Arrival::New) => with_message(known, message),
        Ok(Arrival::Held) => known,
        Err(_) => None,
    }
}

/// What is known, with the count of the messages.
pub(crate) fn with_count(known: Option<Known>, count: usize) -> Option<Known>
    ensures counted { (f : RosterFields AnyCmnd) (set : List AnyMessage) → IsCount set count
        → IfSome known (IsKnownIn f set) → IfSome result (IsKnownIn f set) }
    ensures nothing { known ≡ None → result ≡ None }
{
    let Some(mut known) = known else {
        return None;
    };
    known.count = Some(count);
    Some(known)
}

/// What is known of the messages under another roster. The suspects depend on the roster, so they
/// are dropped, and the next report looks for them anew.
pub(crate) fn under_another(known: Option<Known>) -> Option<Known>
    ensures still { (f g : RosterFields AnyCmnd) (set : List AnyMessage)
        → IfSome known (IsKnownIn f set) → IfSome result (IsKnownIn g set) }
    ensures nothing { known ≡ None → result ≡ None }
{
    let Some(mut known) = known else {
        return None;
    };
    known.suspects = None;
    Some(known)
}

/// How many messages there are, if they were counted.
pub(crate) fn count_of(known: &Option<Known>) -> Option<usize>
    ensures counted { (f : RosterFields AnyCmnd) (set : List AnyMessage)
        → IfSome known.now (IsKnownIn f set) → IfSome result (IsCount set) }
    ensures nothing { known.now ≡ None → result ≡ None }
{
    match known {
        Some(known) => known.count,
        None => None,
    }
}
