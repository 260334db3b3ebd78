//! Finding a desk at its keeper, or making one there, and what is known of its messages at first.

ghost use Rattle.std.specs.Prelude.{◌≡◌, ◌≢◌, ◌⊎◌, ⊤, IfOk, OnOk, OnErr, IfErr, MatchResult};
ghost use Rattle.desk_store.specs.Left.{AddsOnly, IsDeskOf, LeavesOnly};
ghost use Rattle.desk.specs.Crash.{IsLeftByOpening, IsMadeByOpening};
ghost use Rattle.desk.specs.private.Known.{IsKnownAtFirst, IsOriginOf};
ghost use Rattle.desk.specs.Opening.{IsOpeningRefusal, IsUnseen, Opens, Refuses};
ghost use Rattle.desk.specs.Refusals.{IsWant};
ghost use Rattle.desk.specs.Serving.{ServesAnswer};
ghost use Rattle.desk.specs.declared.opening.Origin.TheVariants as origin;
ghost use Rattle.desk.specs.declared.refusal.Refusal.TheVariants as refusal;

use crate::loading::Known;
use crate::refusal::Refusal;
use desk_store::{Found, FoundDesk, Keeper};
use outcomes::Gathered;
use std::alloc::Global;

/// Where a desk comes from.
#[derive(Drop)]
pub(crate) enum Origin {
    /// The desk was there: what is known of its messages, and how many messages there are, each if
    /// the look told it.
    Found(Option<Gathered>, Option<usize>),
    /// The desk was made, without messages.
    Made,
}

/// What is known of a desk's messages at first: for a desk that was made, that there are none, and
/// for a desk that was found, what the look told. Where the look told nothing, the keeper gathers
/// it once a question needs it.
pub(crate) fn known_at_first(alloc: Global, origin: Origin) -> Option<Known>
    ensures { IsKnownAtFirst origin result }
{
    match origin {
        Origin::Made => Some(Known {
            gathered: Gathered::new(alloc),
            count: Some(0),
            suspects: None,
        }),
        Origin::Found(known, count) => {
            let Some(gathered) = known else {
                return None;
            };
            Some(Known {
                gathered,
                count,
                suspects: None,
            })
        }
    }
}

/// What the look told of the messages of the desk that it found.
fn origin_of(desk: FoundDesk) -> Origin
    ensures { result ≡ origin.Found desk.known desk.count }
{
    let FoundDesk {
        roster,
        known,
        count,
    } = desk;
    drop(roster);
    Origin::Found(known, count)
}

/// Finds the keeper's desk of this roster's text, or makes one where the keeper keeps no part of a
/// desk.
pub(crate) fn find_or_make<K: Keeper>(keeper: &mut K, text: &str) -> Result<Origin, Refusal>
    ensures first { K.is_up keeper.new → IfOk result (IsOriginOf (K.holds keeper.new)) }
    ensures desk { K.is_up keeper.new → OnOk result (K.is_desk keeper.new) }
    ensures roster { K.is_up keeper.new → OnOk result (K.roster keeper.new ≡ text.now) }
    ensures opens { K.is_up keeper.new
        → OnOk result (Opens (K.is_empty keeper.old) (K.is_desk keeper.old) (K.is_old keeper.old)
        (K.roster keeper.old) text.now (K.holds keeper.old) (K.holds keeper.new)) }
    ensures refused { K.is_up keeper.new
        → IfErr result (λ e. IsWant e ⊎ Refuses ⊤ (K.is_empty keeper.old)
        (K.is_desk keeper.old) (K.is_old keeper.old) (K.roster keeper.old) text.now e) }
    ensures fits { IfErr result (λ e. e ≢ refusal.BaseTooLarge) }
    ensures err { IfErr result (λ e. IsWant e ⊎ IsOpeningRefusal e) }
    ensures unchanged { K.is_up keeper.new → OnErr result (K.is_same keeper.old keeper.new) }
    ensures live { K.is_clean keeper.new → MatchResult result (λ _. K.is_up keeper.new)
        (λ e. IsWant e ⊎ IsUnseen e ⊎ K.is_up keeper.new) }
    ensures leaves { K.is_clean keeper.new → AddsOnly (K.may_leave keeper.old)
        (K.may_leave keeper.new)
        (IsMadeByOpening (K.is_up keeper.old) (K.is_empty keeper.old) text.now) }
    ensures served { ServesAnswer K.Keeper keeper.old keeper.new result }
    ensures crash { K.is_up keeper.old → K.is_clean keeper.new → LeavesOnly (K.may_leave keeper.new)
        (IsLeftByOpening (K.is_empty keeper.old) (K.is_desk keeper.old)
        (K.is_old keeper.old) (K.roster keeper.old) text.now (K.holds keeper.old)) }
    ensures durable { K.is_up keeper.new → OnOk result (LeavesOnly (K.may_leave keeper.new)
        (IsDeskOf (K.roster keeper.new) (K.holds keeper.new))) }
{
    match keeper.look()? {
        Found::Empty => {
            keeper.make(text)?;
            Ok(Origin::Made)
        }
        Found::Desk(desk) if desk.roster.as_str() == text => Ok(origin_of(desk)),
        Found::Desk(_) => Err(Refusal::RosterChanged),
        Found::OldDesk => Err(Refusal::OldSchema),
        Found::NotADesk => Err(Refusal::NotADesk),
    }
}
