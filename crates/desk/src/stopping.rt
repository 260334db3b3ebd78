//! A desk opened over what a stop left.

ghost use Rattle.std.specs.Prelude.{◌≡◌, ◌⊎◌, List, ℕ, Contains, IfOk, IfErr, Result};
ghost use Rattle.messages.specs.declared.message.Message.{Message as AnyMessage};
ghost use Rattle.grants.specs.Bases.{FitsBase};
ghost use Rattle.store_tables.specs.Sets.{IsNothing, SameSet, With};
ghost use Rattle.desk_store.specs.Left.{IsDeskOf, IsFoundAs, IsNothingOrFresh, LeavesOnly, MayBe};
ghost use Rattle.desk.specs.Crash.{IsAcceptable, IsLeftByDeliveries, IsLeftByDelivery};
ghost use Rattle.desk.specs.Delivery.{AcknowledgesAmong, Delivery};
ghost use Rattle.desk.specs.Refusals.{IsWant};
ghost use Rattle.desk.specs.Same.{AnswerAlike};
ghost use Rattle.desk.specs.declared.ack.Ack.{Ack as AnyAck};
ghost use Rattle.desk.specs.declared.refusal.Refusal.{Refusal as AnyRefusal};
ghost use Rattle.desk.specs.declared.refusal.Refusal.TheVariants as refusal;

use crate::desk::Desk;
use crate::refusal::Refusal;
use desk_store::Keeper;
use roster::Roster;
use std::alloc::Global;
use sudo_policy::Policy;

/// Opens a desk over a keeper that keeps what a crash may leave of another keeper, which stopped.
/// The two keepers may be of different kinds; the one that stopped is an argument for the proof
/// alone.
///
/// The clauses `crash`, `lasting` and `durable` of the call that was stopped say what may be left.
/// So where that call had acknowledged, or the stop came between calls, the desk holds all that was
/// acknowledged, and over the same base answers every question alike; where the stop came in a
/// delivery, the desk holds what was held before, with the message or without it; where the stop
/// came in or after many deliveries, of which some failed, the desk holds all that was
/// acknowledged, and at most one message more; and where the stop came while a desk was made,
/// opened or rebuilt, nothing is lost. The opening is refused only for the base, or for want of
/// memory or of the storage.
pub fn open_after_stop<K: Keeper, L: Keeper>(
    alloc: Global,
    _stopped: &K,
    roster: Roster,
    base: Policy,
    found: L,
) -> Result<Desk<L>, (Refusal, L)>
    requires { L.is_up found → MayBe (K.may_leave _stopped.now) (IsFoundAs (L.is_empty found)
        (L.is_desk found) (L.is_old found) (L.roster found) (L.holds found)) }
    ensures held { (list : List AnyMessage)
        → LeavesOnly (K.may_leave _stopped.now) (IsDeskOf roster.text (λ m. Contains list m))
        → IfOk result (λ d. L.is_up d.keeper → SameSet (λ m. Contains list m) (L.holds d.keeper)) }
    ensures alike { (list : List AnyMessage) → LeavesOnly (K.may_leave _stopped.now)
        (IsDeskOf roster.text (λ m. Contains list m)) → IfOk result (λ d. L.is_up d.keeper
        → AnswerAlike roster.says (λ m. Contains list m) (L.holds d.keeper)) }
    ensures refused { (list : List AnyMessage) → LeavesOnly (K.may_leave _stopped.now)
        (IsDeskOf roster.text (λ m. Contains list m)) → IfErr result
        (λ r. L.is_up r.1 → IsWant r.0 ⊎ ((r.0 ≡ refusal.BaseTooLarge) × (¬ FitsBase base))) }
    ensures delivery { (list : List AnyMessage) (d : Delivery)
        → LeavesOnly (K.may_leave _stopped.now)
        (IsLeftByDelivery roster.says roster.text (λ m. Contains list m) d)
        → IfOk result (λ desk. L.is_up desk.keeper → SameSet (λ m. Contains list m)
        (L.holds desk.keeper) ⊎ ((m : AnyMessage) × IsAcceptable roster.says d m
        × SameSet (With (λ n. Contains list n) m) (L.holds desk.keeper))) }
    ensures deliveries { (list : List AnyMessage) (ds : List Delivery)
        (answers : List (Result AnyAck AnyRefusal)) → LeavesOnly (K.may_leave _stopped.now)
        (IsLeftByDeliveries roster.says roster.text (λ m. Contains list m) ds answers)
        → IfOk result (λ desk. L.is_up desk.keeper
        → SameSet (λ m. Contains list m ⊎ AcknowledgesAmong ds answers m) (L.holds desk.keeper)
        ⊎ ((d : Delivery) × Contains ds d × (m : AnyMessage) × IsAcceptable roster.says d m
        × SameSet (With (λ n. Contains list n ⊎ AcknowledgesAmong ds answers n) m)
        (L.holds desk.keeper))) }
    ensures making { LeavesOnly (K.may_leave _stopped.now) (IsNothingOrFresh roster.text)
        → IfOk result (λ d. L.is_up d.keeper → IsNothing (L.holds d.keeper)) }
    ensures rebuilding { (list : List AnyMessage) (recorded : List ℕ)
        → LeavesOnly (K.may_leave _stopped.now) (λ left. IsDeskOf recorded
        (λ m. Contains list m) left ⊎ IsDeskOf roster.text (λ m. Contains list m) left)
        → IfOk result (λ d. L.is_up d.keeper → SameSet (λ m. Contains list m) (L.holds d.keeper)) }
    ensures unchanged { IfErr result (λ r. L.is_up r.1 → L.is_same found r.1) }
{
    Desk::open(alloc, roster, base, found)
}
