//! Laws of rebuilding, each the contract of calls.

ghost use Rattle.std.specs.Prelude.{◌≡◌, ◌⊎◌, IfOk, IfErr};
ghost use Rattle.grants.specs.Bases.{FitsBase};
ghost use Rattle.desk_store.specs.Left.{IsDeskOf, LeavesOnly};
ghost use Rattle.store_tables.specs.Sets.{SameSet};
ghost use Rattle.desk.specs.Rebuilding.{Rebuilds, RefusesToRebuild};
ghost use Rattle.desk.specs.Refusals.{IsWant};
ghost use Rattle.desk.specs.Same.{AnswerAlike};
ghost use Rattle.desk.specs.declared.refusal.Refusal.TheVariants as refusal;

use crate::desk::Desk;
use crate::refusal::Refusal;
use desk_store::Keeper;
use roster::Roster;
use std::alloc::Global;
use sudo_policy::Policy;

/// Gives a desk up, and rebuilds it with a roster.
///
/// What the desk held stays held, whatever the roster admits. So if the roster and the base are
/// those that the desk had, nothing changes: the desk has the same roster, and answers every
/// question as before. The call is refused only for a base past the limits, or for want of memory
/// or of the storage; and a refusal leaves what was held.
pub fn rebuild_again<K: Keeper>(
    alloc: Global,
    desk: Desk<K>,
    roster: Roster,
    base: Policy,
) -> Result<Desk<K>, (Refusal, K)>
    ensures handed_in { IfOk result (λ d. (d.roster ≡ roster) × (d.base ≡ base)) }
    ensures held { IfOk result
        (λ d. K.is_up d.keeper → SameSet (K.holds desk.keeper) (K.holds d.keeper)) }
    ensures nothing_changes { IfOk result (λ d. K.is_up d.keeper → desk.roster ≡ roster → (d.roster
        ≡ desk.roster) × AnswerAlike desk.roster.says (K.holds desk.keeper) (K.holds d.keeper)) }
    ensures unchanged { IfErr result
        (λ r. K.is_up r.1 → SameSet (K.holds desk.keeper) (K.holds r.1)) }
    ensures refused { IfErr result
        (λ r. K.is_up r.1 → IsWant r.0 ⊎ ((r.0 ≡ refusal.BaseTooLarge) × (¬ FitsBase base))) }
{
    Desk::rebuild(alloc, roster, base, desk.into_keeper())
}

/// Rebuilds what the keeper keeps with a first roster, and then with a last one.
///
/// The result is what rebuilding with the last roster alone promises: the same messages, and the
/// last roster's text.
///
/// The call is refused as `rebuild` refuses the first roster and base, or for a last base past the
/// limits, or for want of memory or of the storage. What is kept is then as it was, or the desk of
/// the first roster's text.
pub fn rebuild_twice<K: Keeper>(
    alloc: Global,
    first: (Roster, Policy),
    last: (Roster, Policy),
    keeper: K,
) -> Result<Desk<K>, (Refusal, K)>
    ensures handed_in { IfOk result (λ d. (d.roster ≡ last.0) × (d.base ≡ last.1)) }
    ensures keeps { IfOk result (λ d. K.is_up d.keeper → Rebuilds (K.is_empty keeper)
        (K.is_desk keeper) (K.is_old keeper) (K.holds keeper) (K.holds d.keeper)) }
    ensures durable { IfOk result (λ d. K.is_up d.keeper
        → LeavesOnly (K.may_leave d.keeper) (IsDeskOf last.0.text (K.holds d.keeper))) }
    ensures fits { IfOk result (λ d. FitsBase first.1 × FitsBase last.1) }
    ensures refused { IfErr result (λ r. K.is_up r.1 → IsWant r.0 ⊎ RefusesToRebuild
        (FitsBase first.1) (K.is_empty keeper) (K.is_desk keeper) (K.is_old keeper) r.0
        ⊎ ((r.0 ≡ refusal.BaseTooLarge) × FitsBase first.1 × (¬ FitsBase last.1))) }
    ensures unchanged { IfErr result (λ r. K.is_up r.1 → K.is_same keeper r.1
        ⊎ (FitsBase first.1 × K.is_desk r.1 × (K.roster r.1 ≡ first.0.text) × Rebuilds
        (K.is_empty keeper) (K.is_desk keeper) (K.is_old keeper) (K.holds keeper) (K.holds r.1))) }
{
    let (roster, base) = first;
    let (last_roster, last_base) = last;
    match Desk::rebuild(alloc, roster, base, keeper) {
        Ok(desk) => Desk::rebuild(alloc, last_roster, last_base, desk.into_keeper()),
        Err(refused) => {
            drop(last_base);
            drop(last_roster);
            Err(refused)
        }
    }
}
