//! A desk.

ghost use Rattle.std.specs.Prelude.{◌≡◌, ◌≢◌, ◌⊎◌, ◌↔◌, ◌≤◌, [], length, map, vec_capacity};
ghost use Rattle.std.specs.Prelude.{Contains, IfOk, IsOkAnd, IfErr, OnOk, OnErr, MatchResult, Err};
ghost use Rattle.messages.specs.declared.message.Message.{Message as AnyMessage};
ghost use Rattle.grants.specs.Bases.{FitsBase};
ghost use Rattle.desk_store.specs.Keeping.{HasFailed};
ghost use Rattle.desk_store.specs.Left.{AddsOnly, IsDeskOf, LeavesOnly};
ghost use Rattle.desk_store.specs.Serves.{Serves};
ghost use Rattle.desk.specs.Crash.{IsAddedByDelivery, IsLeftByDeliveries, IsLeftByDelivery};
ghost use Rattle.desk.specs.Crash.{IsLeftByOpening, IsMadeByOpening};
ghost use Rattle.desk.specs.Delivery.{Acknowledges, AcknowledgesAmong, AreAnswers, HaveFailed};
ghost use Rattle.desk.specs.Delivery.{HeldAfter, HeldAfterAll, IsBodyOf, IsDeliveryAnswer};
ghost use Rattle.desk.specs.Delivery.{WasWantingAmong, delivery_of, storage_failures};
ghost use Rattle.desk.specs.Opening.{IsOpeningRefusal, IsUnseen, Opens, Refuses};
ghost use Rattle.desk.specs.Refusals.{IsWant};
ghost use Rattle.desk.specs.Serving.{KeepsSettings, ServesAnswer};
ghost use Rattle.desk.specs.declared.refusal.Refusal.TheVariants as refusal;

use crate::ack::Ack;
use crate::delivery::{admitted, text_of};
use crate::loading::{Known, known_after};
use crate::opening::{find_or_make, known_at_first};
use crate::refusal::Refusal;
use desk_store::Keeper;
use grants::fits_base;
use messages::MessageReader;
use outcomes::Base;
use roster::Roster;
use std::alloc::Global;
use std::marker::Model;
use sudo_policy::Policy;

/// A desk, which contracts see as its roster, its base policy, the history of the site, and its
/// keeper, which holds the set of messages.
///
/// A base has at most 4,096 entries, a weight of at most 65,536, and a canonical text of at most 1
/// MiB.
#[derive(Drop)]
pub struct Desk<K: Keeper> {
    pub(crate) alloc: Global,
    pub(crate) roster: Roster,
    pub(crate) base: Base,
    /// The digests of the roster and the base, once they were asked for.
    pub(crate) digests: Option<String>,
    /// The history of the site; empty where none is known.
    pub(crate) history: String,
    pub(crate) keeper: K,
    pub(crate) known: Option<Known>,
    pub(crate) reader: MessageReader,
}

impl<K: Keeper> Model for Desk<K> {
    ghost use Rattle.std.specs.Prelude.{◌≡◌, IfSome, string_bytes};
    ghost use Rattle.grants.specs.Bases.{FitsBase};
    ghost use Rattle.desk_store.specs.Left.{IsDeskOf, LeavesOnly};
    ghost use Rattle.desk.specs.private.Known.{IsKnown, IsKnownOfUp};
    ghost use Rattle.desk.specs.Digests.{digests_text};
    ghost use Rattle.desk.specs.History.{IsHistory};
    ghost use Rattle.desk.specs.State.{DeskState};

    ghost Value = { DeskState K };

    ghost view = { λ d. record {
      roster = d.roster;
      base = d.base;
      history = string_bytes d.history;
      keeper = d.keeper;
    } };

    ghost invariant = { λ d. FitsBase d.base × (K.is_up d.keeper → K.is_desk d.keeper)
        × (K.is_up d.keeper → K.roster d.keeper ≡ d.roster.text) × (K.is_up d.keeper
        → LeavesOnly (K.may_leave d.keeper) (IsDeskOf (K.roster d.keeper) (K.holds d.keeper)))
        × IsKnown d.roster.says (K.is_up d.keeper) (K.holds d.keeper) d.known
        × IsKnownOfUp (K.is_clean d.keeper) (K.is_up d.keeper) d.known
        × IfSome d.digests (λ text. string_bytes text ≡ digests_text d.roster.text d.base)
        × IsHistory d.roster.text d.base (string_bytes d.history) };
}

impl<K: Keeper> Desk<K> {
    /// Opens the desk that the keeper keeps. Where the keeper keeps no part of a desk, the call
    /// makes a desk without messages.
    ///
    /// `BaseTooLarge` comes exactly where the base is past a limit of the desk. Else `NotADesk`
    /// comes where the keeper has something under a desk's names that is not a desk, `OldSchema`
    /// where the keeper has a desk of an older form, and `RosterChanged` where the keeper's desk
    /// has another roster's text. `Storage` and `NoMemory` come wherever the storage or memory
    /// refuses. A refusal hands the keeper back, and what the keeper keeps stays as it was.
    ///
    /// Whenever the call ends, a crash leaves the whole desk, if there was one. If the keeper was
    /// empty, a crash leaves no part of a desk, or a whole desk without messages. After Ok a crash
    /// leaves the desk.
    pub fn open(
        alloc: Global,
        roster: Roster,
        base: Policy,
        keeper: K,
    ) -> Result<Desk<K>, (Refusal, K)>
        ensures handed_in { IfOk result (λ d. (d.roster ≡ roster) × (d.base ≡ base)) }
        ensures fits { IfOk result (λ d. FitsBase base) }
        ensures opens { IfOk result
            (λ d. K.is_up d.keeper → Opens (K.is_empty keeper) (K.is_desk keeper)
            (K.is_old keeper) (K.roster keeper) roster.text (K.holds keeper) (K.holds d.keeper)) }
        ensures too_large { IfErr result (λ r. (r.0 ≡ refusal.BaseTooLarge) ↔ (¬ FitsBase base)) }
        ensures refused { IfErr result
            (λ r. K.is_up r.1 → IsWant r.0 ⊎ Refuses (FitsBase base) (K.is_empty keeper)
            (K.is_desk keeper) (K.is_old keeper) (K.roster keeper) roster.text r.0) }
        // So no other refusal comes, whatever the storage does.
        ensures err { IfErr result (λ r. IsWant r.0 ⊎ IsOpeningRefusal r.0) }
        ensures unchanged { IfErr result (λ r. K.is_up r.1 → K.is_same keeper r.1) }
        // Over an honest disk the keeper is up after Ok, and after each refusal that tells of a
        // desk.
        ensures live { MatchResult result (λ d. K.is_clean d.keeper → K.is_up d.keeper)
            (λ r. K.is_clean r.1 → IsWant r.0 ⊎ IsUnseen r.0 ⊎ K.is_up r.1) }
        ensures served { MatchResult result (λ d. Serves K.Keeper keeper d.keeper ⊥ ⊥)
            (λ r. Serves K.Keeper keeper r.1 (r.0 ≡ refusal.Storage) (IsWant r.0)) }
        // A base past the limits is refused before the keeper is asked.
        ensures unasked { IfErr result (λ r. r.0 ≡ refusal.BaseTooLarge → r.1 ≡ keeper) }
        ensures crash { K.is_up keeper → MatchResult result (λ d. K.is_clean d.keeper
            → LeavesOnly (K.may_leave d.keeper) (IsLeftByOpening (K.is_empty keeper)
            (K.is_desk keeper) (K.is_old keeper) (K.roster keeper) roster.text (K.holds keeper)))
            (λ r. r.0 ≢ refusal.BaseTooLarge → K.is_clean r.1
            → LeavesOnly (K.may_leave r.1) (IsLeftByOpening (K.is_empty keeper) (K.is_desk keeper)
            (K.is_old keeper) (K.roster keeper) roster.text (K.holds keeper))) }
        ensures leaves { MatchResult result (λ d. K.is_clean d.keeper → AddsOnly
            (K.may_leave keeper) (K.may_leave d.keeper)
            (IsMadeByOpening (K.is_up keeper) (K.is_empty keeper) roster.text))
            (λ r. K.is_clean r.1 → AddsOnly (K.may_leave keeper) (K.may_leave r.1)
            (IsMadeByOpening (K.is_up keeper) (K.is_empty keeper) roster.text)) }
        ensures lasting { K.is_up keeper → IfOk result (λ d. K.is_clean d.keeper
            → LeavesOnly (K.may_leave d.keeper) (IsDeskOf roster.text (K.holds d.keeper))) }
        ensures durable { IfOk result (λ d. K.is_up d.keeper
            → LeavesOnly (K.may_leave d.keeper) (IsDeskOf roster.text (K.holds d.keeper))) }
    {
        // Calls drop what a refusal does not hand back: at an exit that drops a value in line, each
        // of the value's fields would be proved again.
        if !fits_base(&base) {
            drop(base);
            drop(roster);
            return Err((Refusal::BaseTooLarge, keeper));
        }
        let mut keeper = keeper;
        match find_or_make(&mut keeper, roster.text()) {
            Ok(origin) => Ok(Desk {
                alloc,
                roster,
                base: Base::new(base),
                digests: None,
                history: String::new(alloc),
                keeper,
                known: known_at_first(alloc, origin),
                reader: MessageReader::new(alloc),
            }),
            Err(refusal) => {
                drop(base);
                drop(roster);
                Err((refusal, keeper))
            }
        }
    }

    /// Delivers the body that the relay brings.
    ///
    /// `UnknownRelay` comes where the roster has no such relay; else `TooLong`, `NotCanonical` or
    /// `BadField`, where the body is not a message; else the denial, where the roster does not
    /// admit the message: the first that applies. Want of memory anywhere is `NoMemory`, and a
    /// failure of the storage is `Storage`. An acknowledgement says that the message is kept; a
    /// message that was kept before changes nothing. After a refusal nothing changed.
    ///
    /// Whenever the call ends, a crash leaves the whole desk without the message, or the whole desk
    /// with it; after Ok only the latter. While the keeper is up, a crash leaves what the desk
    /// holds. Where a failure had shut the keeper before the call, a crash leaves only what it
    /// might have left when the call began.
    pub fn deliver(&mut self, relay: &str, body: &[u8]) -> Result<Ack, Refusal>
        ensures answer { IsDeliveryAnswer self.old.roster.says
            (record { relay = relay.now; body = body.now }) result }
        ensures held { K.is_up self.new.keeper → HeldAfter (K.holds self.old.keeper)
            (record { relay = relay.now; body = body.now }) result (K.holds self.new.keeper) }
        ensures repeated { K.is_up self.new.keeper → (m : AnyMessage) → IsBodyOf body.now m
            → K.holds self.old.keeper m → OnOk result (K.is_same self.old.keeper self.new.keeper) }
        ensures unchanged { K.is_up self.new.keeper
            → OnErr result (K.is_same self.old.keeper self.new.keeper) }
        ensures settings { KeepsSettings self.old self.new }
        // Over an honest disk the keeper is up after Ok. A refusal that tells of no want comes
        // before the keeper is asked.
        ensures live { K.is_clean self.new.keeper → OnOk result (K.is_up self.new.keeper) }
        ensures unasked { IfErr result
            (λ e. IsWant e ⊎ (self.new.keeper ≡ self.old.keeper)) }
        ensures served { ServesAnswer K.Keeper self.old.keeper self.new.keeper result }
        // For a message that the desk held, `Storage` comes only where the storage's own count of
        // failures rose or stands at the greatest number of 64 bits, or the steps of a query are
        // limited.
        ensures cause { K.is_up self.old.keeper → K.is_clean self.new.keeper → (m : AnyMessage)
            → IsBodyOf body.now m → K.holds self.old.keeper m → result ≡ Err refusal.Storage
            → HasFailed (K.faults self.old.keeper) (K.faults self.new.keeper)
            ⊎ K.is_limited self.old.keeper }
        ensures crash { K.is_up self.old.keeper → K.is_clean self.new.keeper
            → LeavesOnly (K.may_leave self.new.keeper)
            (IsLeftByDelivery self.old.roster.says self.old.roster.text
            (K.holds self.old.keeper) (record { relay = relay.now; body = body.now })) }
        ensures leaves { K.is_clean self.new.keeper → AddsOnly (K.may_leave self.old.keeper)
            (K.may_leave self.new.keeper) (IsAddedByDelivery (K.is_up self.old.keeper)
            self.old.roster.says self.old.roster.text (K.holds self.old.keeper)
            (record { relay = relay.now; body = body.now })) }
        ensures lasting { K.is_up self.old.keeper → K.is_clean self.new.keeper
            → OnOk result (LeavesOnly (K.may_leave self.new.keeper)
            (IsDeskOf self.old.roster.text (λ m. K.holds self.old.keeper m
            ⊎ Acknowledges (record { relay = relay.now; body = body.now }) result m))) }
        ensures durable { K.is_up self.new.keeper → LeavesOnly (K.may_leave self.new.keeper)
            (IsDeskOf self.new.roster.text (K.holds self.new.keeper)) }
    {
        if !self.roster.has_relay(relay) {
            return Err(Refusal::UnknownRelay);
        }
        let message = admitted(self.alloc, &mut self.reader, &self.roster, body)?;
        // What is known stays only where the message is kept.
        let known = self.known.take();
        let added = self.keeper.add(&message, text_of(body, &message));
        let known = known_after(known, &message, &added);
        // The message is dropped by a call: at an exit that drops it in line, each of its fields
        // would be proved again.
        drop(message);
        added?;
        self.known = known;
        Ok(Ack)
    }

    /// Delivers each body that a relay brings, in order, and answers for each as `deliver` does.
    ///
    /// The call is refused only with `NoMemory`, before anything is delivered: the room for the
    /// answers is taken first. While the keeper is up, a crash leaves what the desk holds: what it
    /// held, and all that was acknowledged. After a failure too, a crash leaves all that, in a
    /// whole desk, with at most one message more, which one of the deliveries brought.
    pub fn deliver_all(
        &mut self,
        list: &[(String, Vec<u8>)],
    ) -> Result<Vec<Result<Ack, Refusal>>, Refusal>
        ensures answers { IfOk result
            (λ answers. AreAnswers self.old.roster.says (map delivery_of list.now) answers.items) }
        ensures held { K.is_up self.new.keeper
            → IfOk result (λ answers. HeldAfterAll (K.holds self.old.keeper)
            (map delivery_of list.now) answers.items (K.holds self.new.keeper)) }
        ensures refused { OnErr result (self.new ≡ self.old) }
        ensures err { IfErr result (λ e. e ≡ refusal.NoMemory) }
        ensures settings { KeepsSettings self.old self.new }
        ensures served { Serves K.Keeper self.old.keeper self.new.keeper
            (IsOkAnd result (λ answers. Contains answers.items (Err refusal.Storage)))
            (IsOkAnd result (λ answers. WasWantingAmong answers.items)) }
        ensures causes { IfOk result (λ answers. HaveFailed (storage_failures answers.items)
            (K.failures self.old.keeper) (K.failures self.new.keeper)) }
        // If the desk held all that was acknowledged, or all was refused, nothing changed.
        ensures repeated { K.is_up self.new.keeper → IfOk result (λ answers. ((m : AnyMessage)
            → AcknowledgesAmong (map delivery_of list.now) answers.items m
            → K.holds self.old.keeper m) → K.is_same self.old.keeper self.new.keeper) }
        ensures live { K.is_clean self.new.keeper → IfOk result (λ answers. (m : AnyMessage)
            → AcknowledgesAmong (map delivery_of list.now) answers.items m
            → WasWantingAmong answers.items ⊎ K.is_up self.new.keeper) }
        ensures crash { K.is_up self.old.keeper → K.is_clean self.new.keeper → IfOk result
            (λ answers. LeavesOnly (K.may_leave self.new.keeper) (IsLeftByDeliveries
            self.old.roster.says self.old.roster.text (K.holds self.old.keeper)
            (map delivery_of list.now) answers.items)) }
        ensures leaves { K.is_clean self.new.keeper → IfOk result (λ answers. AddsOnly
            (K.may_leave self.old.keeper) (K.may_leave self.new.keeper) (λ left.
            K.is_up self.old.keeper × IsLeftByDeliveries self.old.roster.says self.old.roster.text
            (K.holds self.old.keeper) (map delivery_of list.now) answers.items left)) }
        ensures durable { K.is_up self.new.keeper → LeavesOnly (K.may_leave self.new.keeper)
            (IsDeskOf self.new.roster.text (K.holds self.new.keeper)) }
    {
        let mut answers = Vec::with_capacity(self.alloc, list.len())?;
        self.deliver_each(list, &mut answers);
        self.lasts();
        Ok(answers)
    }

    /// While the keeper is up, a crash leaves what the desk holds. The function does nothing: its
    /// contract is there for a proof.
    fn lasts(&self)
        ensures { K.is_up self.now.keeper → LeavesOnly (K.may_leave self.now.keeper)
            (IsDeskOf self.now.roster.text (K.holds self.now.keeper)) }
    {
        let _roster = &self.roster;
    }

    /// Delivers each body in order, and appends the answers, for which there is room.
    fn deliver_each(&mut self, list: &[(String, Vec<u8>)], answers: &mut Vec<Result<Ack, Refusal>>)
        requires none { answers.old.items ≡ [] }
        requires room { length list.now ≤ vec_capacity answers.old }
        ensures answers { AreAnswers self.old.roster.says
            (map delivery_of list.now) answers.new.items }
        ensures held { K.is_up self.new.keeper → HeldAfterAll (K.holds self.old.keeper)
            (map delivery_of list.now) answers.new.items (K.holds self.new.keeper) }
        ensures settings { KeepsSettings self.old self.new }
        ensures served { Serves K.Keeper self.old.keeper self.new.keeper
            (Contains answers.new.items (Err refusal.Storage)) (WasWantingAmong answers.new.items) }
        ensures causes { HaveFailed (storage_failures answers.new.items)
            (K.failures self.old.keeper) (K.failures self.new.keeper) }
        ensures repeated { K.is_up self.new.keeper → ((m : AnyMessage)
            → AcknowledgesAmong (map delivery_of list.now) answers.new.items m
            → K.holds self.old.keeper m) → K.is_same self.old.keeper self.new.keeper }
        ensures live { K.is_clean self.new.keeper → (m : AnyMessage)
            → AcknowledgesAmong (map delivery_of list.now) answers.new.items m
            → WasWantingAmong answers.new.items ⊎ K.is_up self.new.keeper }
        ensures crash { K.is_up self.old.keeper → K.is_clean self.new.keeper
            → LeavesOnly (K.may_leave self.new.keeper) (IsLeftByDeliveries self.old.roster.says
            self.old.roster.text (K.holds self.old.keeper)
            (map delivery_of list.now) answers.new.items) }
        ensures leaves { K.is_clean self.new.keeper → AddsOnly (K.may_leave self.old.keeper)
            (K.may_leave self.new.keeper) (λ left. K.is_up self.old.keeper × IsLeftByDeliveries
            self.old.roster.says self.old.roster.text (K.holds self.old.keeper)
            (map delivery_of list.now) answers.new.items left) }
    {
        self.lasts();
        for (relay, body) in list {
            let answer = self.deliver(relay.as_str(), body.as_slice());
            answers.push_reserved(answer);
        }
    }

    /// The roster, as it was handed in.
    pub fn roster(&self) -> &Roster
        ensures { result.now ≡ self.now.roster }
    {
        &self.roster
    }

    /// The base policy, as it was handed in.
    pub fn base(&self) -> &Policy
        ensures value { result.now ≡ self.now.base }
        ensures fits { FitsBase self.now.base }
    {
        self.base.policy()
    }

    /// Gives the keeper up as it is. The call takes no memory.
    ///
    /// While the keeper is up, a crash leaves what the desk held, whatever was called before.
    pub fn into_keeper(self) -> K
        ensures same { result ≡ self.keeper }
        ensures desk { K.is_up result → K.is_desk result }
        ensures roster { K.is_up result → K.roster result ≡ self.roster.text }
        ensures durable { K.is_up result
            → LeavesOnly (K.may_leave result) (IsDeskOf self.roster.text (K.holds result)) }
    {
        let Desk {
            alloc: _,
            roster,
            base,
            digests,
            history,
            keeper,
            known,
            reader,
        } = self;
        drop(reader);
        drop(known);
        drop(history);
        drop(digests);
        drop(base);
        drop(roster);
        keeper
    }
}
