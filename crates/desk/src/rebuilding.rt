//! A desk that is given another roster.

ghost use Rattle.std.specs.Prelude.{◌≡◌, ◌≢◌, ◌⊎◌, ◌↔◌, ⊤, IfOk, IfErr, OnOk, OnErr, MatchResult};
ghost use Rattle.grants.specs.Bases.{FitsBase};
ghost use Rattle.desk_store.specs.Left.{AddsOnly, IsDeskOf, LeavesOnly};
ghost use Rattle.desk_store.specs.Serves.{Serves};
ghost use Rattle.desk.specs.Crash.{IsAddedByRebuilding, IsLeftByRebuilding};
ghost use Rattle.desk.specs.Rebuilding.{Rebuilds, RefusesToRebuild};
ghost use Rattle.desk.specs.Refusals.{IsWant};
ghost use Rattle.desk.specs.Serving.{ServesAnswer};
ghost use Rattle.desk.specs.declared.refusal.Refusal.TheVariants as refusal;

use crate::desk::Desk;
use crate::refusal::Refusal;
use desk_store::{Found, Keeper};
use grants::fits_base;
use messages::MessageReader;
use outcomes::Base;
use roster::Roster;
use std::alloc::Global;
use sudo_policy::Policy;

/// Makes a desk of this roster's text where the keeper keeps no part of a desk, and else gives the
/// text to the desk that the keeper keeps.
pub(crate) fn make_or_replace<K: Keeper>(keeper: &mut K, text: &str) -> Result<(), Refusal>
    ensures desk { K.is_up keeper.new → OnOk result (K.is_desk keeper.new) }
    ensures roster { K.is_up keeper.new → OnOk result (K.roster keeper.new ≡ text.now) }
    ensures keeps { K.is_up keeper.new → OnOk result (Rebuilds (K.is_empty keeper.old)
        (K.is_desk keeper.old) (K.is_old keeper.old) (K.holds keeper.old) (K.holds keeper.new)) }
    ensures refused { K.is_up keeper.new → IfErr result (λ e. IsWant e ⊎ RefusesToRebuild ⊤
        (K.is_empty keeper.old) (K.is_desk keeper.old) (K.is_old keeper.old) e) }
    ensures err { IfErr result (λ e. IsWant e ⊎ (e ≡ refusal.NotADesk)) }
    ensures fits { IfErr result (λ e. e ≢ refusal.BaseTooLarge) }
    ensures unchanged { K.is_up keeper.new → OnErr result (K.is_same keeper.old keeper.new) }
    ensures live { K.is_clean keeper.new → OnOk result (K.is_up keeper.new) }
    ensures leaves { K.is_clean keeper.new → AddsOnly (K.may_leave keeper.old)
        (K.may_leave keeper.new) (IsAddedByRebuilding (K.is_up keeper.old)
        (K.is_empty keeper.old) text.now (K.holds keeper.old)) }
    ensures served { ServesAnswer K.Keeper keeper.old keeper.new result }
    ensures crash { K.is_up keeper.old → K.is_clean keeper.new → LeavesOnly (K.may_leave keeper.new)
        (IsLeftByRebuilding (K.is_empty keeper.old) (K.is_desk keeper.old)
        (K.is_old keeper.old) (K.roster keeper.old) text.now (K.holds keeper.old)) }
    ensures durable { K.is_up keeper.new → OnOk result (LeavesOnly (K.may_leave keeper.new)
        (IsDeskOf (K.roster keeper.new) (K.holds keeper.new))) }
{
    match keeper.look()? {
        Found::Empty => {
            keeper.make(text)?;
            Ok(())
        }
        Found::Desk(recorded) => {
            drop(recorded);
            keeper.replace(text)?;
            Ok(())
        }
        Found::OldDesk => {
            keeper.replace(text)?;
            Ok(())
        }
        Found::NotADesk => Err(Refusal::NotADesk),
    }
}

impl<K: Keeper> Desk<K> {
    /// Gives this roster to the desk that the keeper keeps, in one commit. Where the keeper keeps
    /// no part of a desk, the call makes a desk without messages.
    ///
    /// The messages stay, also those that the roster does not admit: the answers are those of the
    /// set under the new roster. A desk of an older form becomes one of today's.
    ///
    /// `BaseTooLarge` comes exactly where the base is past a limit of the desk. Else `NotADesk`
    /// comes where the keeper has something under a desk's names that is not a desk. `Storage` and
    /// `NoMemory` come wherever the storage or memory refuses. A refusal hands the keeper back, and
    /// what the keeper keeps stays as it was.
    ///
    /// Whenever the call ends, a crash leaves the whole desk as it was, or the whole desk with the
    /// new roster's text; if the keeper was empty, a crash leaves no part of a desk, or a whole
    /// desk without messages. After Ok a crash leaves the desk with the new roster's text.
    pub fn rebuild(
        alloc: Global,
        roster: Roster,
        base: Policy,
        keeper: K,
    ) -> Result<Desk<K>, (Refusal, K)>
        ensures handed_in { IfOk result (λ d. (d.roster ≡ roster) × (d.base ≡ base)) }
        ensures fits { IfOk result (λ d. FitsBase base) }
        ensures keeps { IfOk result (λ d. K.is_up d.keeper → Rebuilds (K.is_empty keeper)
            (K.is_desk keeper) (K.is_old keeper) (K.holds keeper) (K.holds d.keeper)) }
        ensures too_large { IfErr result (λ r. (r.0 ≡ refusal.BaseTooLarge) ↔ (¬ FitsBase base)) }
        ensures refused { IfErr result (λ r. K.is_up r.1 → IsWant r.0 ⊎ RefusesToRebuild
            (FitsBase base) (K.is_empty keeper) (K.is_desk keeper) (K.is_old keeper) r.0) }
        // So neither a desk of another roster's text nor a desk of an older form is refused.
        ensures err { IfErr result
            (λ r. IsWant r.0 ⊎ (r.0 ≡ refusal.NotADesk) ⊎ (r.0 ≡ refusal.BaseTooLarge)) }
        ensures unchanged { IfErr result (λ r. K.is_up r.1 → K.is_same keeper r.1) }
        // Over an honest disk the keeper is up after Ok.
        ensures live { IfOk result (λ d. K.is_clean d.keeper → K.is_up d.keeper) }
        ensures served { MatchResult result (λ d. Serves K.Keeper keeper d.keeper ⊥ ⊥)
            (λ r. Serves K.Keeper keeper r.1 (r.0 ≡ refusal.Storage) (IsWant r.0)) }
        // A base past the limits is refused before the keeper is asked.
        ensures unasked { IfErr result (λ r. r.0 ≡ refusal.BaseTooLarge → r.1 ≡ keeper) }
        ensures crash { K.is_up keeper → MatchResult result (λ d. K.is_clean d.keeper
            → LeavesOnly (K.may_leave d.keeper) (IsLeftByRebuilding (K.is_empty keeper)
            (K.is_desk keeper) (K.is_old keeper) (K.roster keeper) roster.text (K.holds keeper)))
            (λ r. r.0 ≢ refusal.BaseTooLarge → K.is_clean r.1
            → LeavesOnly (K.may_leave r.1) (IsLeftByRebuilding (K.is_empty keeper)
            (K.is_desk keeper) (K.is_old keeper) (K.roster keeper) roster.text (K.holds keeper))) }
        ensures leaves { MatchResult result (λ d. K.is_clean d.keeper
            → AddsOnly (K.may_leave keeper) (K.may_leave d.keeper) (IsAddedByRebuilding
            (K.is_up keeper) (K.is_empty keeper) roster.text (K.holds keeper)))
            (λ r. K.is_clean r.1 → AddsOnly (K.may_leave keeper) (K.may_leave r.1)
            (IsAddedByRebuilding (K.is_up keeper) (K.is_empty keeper) roster.text
            (K.holds keeper))) }
        ensures lasting { K.is_up keeper → IfOk result (λ d. K.is_clean d.keeper
            → LeavesOnly (K.may_leave d.keeper) (IsDeskOf roster.text (K.holds d.keeper))) }
        ensures durable { IfOk result (λ d. K.is_up d.keeper
            → LeavesOnly (K.may_leave d.keeper) (IsDeskOf roster.text (K.holds d.keeper))) }
    {
        // Calls drop what a refusal does not hand back: at an exit that drops a value in line, each
        // of the value's fields would be proved again.
        if !fits_base(&base) {
            drop(base);
            drop(roster);
            return Err((Refusal::BaseTooLarge, keeper));
        }
        let mut keeper = keeper;
        match make_or_replace(&mut keeper, roster.text()) {
            Ok(()) => Ok(Desk {
                alloc,
                roster,
                base: Base::new(base),
                digests: None,
                history: String::new(alloc),
                keeper,
                known: None,
                reader: MessageReader::new(alloc),
            }),
            Err(refusal) => {
                drop(base);
                drop(roster);
                Err((refusal, keeper))
            }
        }
    }
}
