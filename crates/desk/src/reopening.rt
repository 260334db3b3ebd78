//! A restart.

ghost use Rattle.std.specs.Prelude.{◌≡◌, ◌≢◌, ◌⊎◌, IfOk, IfErr};
ghost use Rattle.sqlite.specs.Held.{state};
ghost use Rattle.grants.specs.Bases.{FitsBase};
ghost use Rattle.store_tables.specs.Sets.{SameSet};
ghost use Rattle.store_tables.specs.SqliteStates.{IsUp};
ghost use Rattle.store_tables.specs.Kept.{HoldsText};
ghost use Rattle.desk.specs.Refusals.{IsWant};
ghost use Rattle.desk.specs.Same.{AnswerAlike};
ghost use Rattle.desk.specs.declared.refusal.Refusal.TheVariants as refusal;

use crate::desk::Desk;
use crate::refusal::Refusal;
use desk_store::{Keeper, SqliteKeeper};
use roster::Roster;
use sqlite::Alter;
use std::alloc::Global;
use sudo_policy::Policy;

/// Gives the desk's keeper up, and opens a desk over it again.
///
/// The new desk holds what the desk held, and over the same base answers every question alike.
/// Where the roster's text is the one that the desk had, and the base is within the limits, the
/// call is refused only for want of memory or of the storage; and a refusal leaves what was held.
pub fn restart<K: Keeper>(
    alloc: Global,
    desk: Desk<K>,
    roster: Roster,
    base: Policy,
) -> Result<Desk<K>, (Refusal, K)>
    ensures held { IfOk result
        (λ d. K.is_up d.keeper → SameSet (K.holds desk.keeper) (K.holds d.keeper)) }
    ensures alike { IfOk result (λ d. K.is_up d.keeper
        → AnswerAlike desk.roster.says (K.holds desk.keeper) (K.holds d.keeper)) }
    ensures roster { IfOk result (λ d. K.is_up d.keeper → desk.roster.text ≡ roster.text) }
    ensures unchanged { IfErr result
        (λ r. K.is_up r.1 → SameSet (K.holds desk.keeper) (K.holds r.1)) }
    ensures refused { IfErr result (λ r. K.is_up r.1 → IsWant r.0 ⊎ ((r.0 ≡ refusal.BaseTooLarge)
        × (¬ FitsBase base)) ⊎ ((r.0 ≡ refusal.RosterChanged) × (desk.roster.text ≢ roster.text))) }
{
    Desk::open(alloc, roster, base, desk.into_keeper())
}

/// Gives a desk and its keeper up, and opens a desk over the same connection again: another keeper
/// finds what this one kept.
///
/// The new desk holds what the desk held, and over the same base answers every question alike.
/// Where the roster's text is the one that the desk had, and the base is within the limits, the
/// call is refused only for want of memory or of the storage; and a refusal leaves what was held.
pub fn restart_over<S: Alter>(
    alloc: Global,
    desk: Desk<SqliteKeeper<S>>,
    roster: Roster,
    base: Policy,
) -> Result<Desk<SqliteKeeper<S>>, (Refusal, SqliteKeeper<S>)>
    ensures held { IfOk result (λ d. IsUp (state S.Store d.keeper.conn) → SameSet (HoldsText
        (state S.Store desk.keeper.conn).now) (HoldsText (state S.Store d.keeper.conn).now)) }
    ensures alike { IfOk result (λ d. IsUp (state S.Store d.keeper.conn)
        → AnswerAlike desk.roster.says (HoldsText (state S.Store desk.keeper.conn).now)
        (HoldsText (state S.Store d.keeper.conn).now)) }
    ensures roster { IfOk result
        (λ d. IsUp (state S.Store d.keeper.conn) → desk.roster.text ≡ roster.text) }
    ensures unchanged { IfErr result (λ r. IsUp (state S.Store r.1.conn)
        → (state S.Store r.1.conn).now ≡ (state S.Store desk.keeper.conn).now) }
    ensures refused { IfErr result (λ r. IsUp (state S.Store r.1.conn)
        → IsWant r.0 ⊎ ((r.0 ≡ refusal.BaseTooLarge) × (¬ FitsBase base))
        ⊎ ((r.0 ≡ refusal.RosterChanged) × (desk.roster.text ≢ roster.text))) }
{
    let keeper = desk.into_keeper();
    Desk::open(alloc, roster, base, keeper.renewed())
}
