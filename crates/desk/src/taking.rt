//! A desk that takes another roster while it is open.

ghost use Rattle.std.specs.Prelude.{◌≡◌, [], IfErr, OnErr, OnOk};
ghost use Rattle.store_tables.specs.Sets.{SameSet};
ghost use Rattle.desk_store.specs.Left.{AddsOnly, IsCommitted, IsDeskOf, LeavesOnly};
ghost use Rattle.desk.specs.Crash.{IsLeftByTaking};
ghost use Rattle.desk.specs.Refusals.{IsWant};
ghost use Rattle.desk.specs.Serving.{ServesAnswer};

use crate::desk::Desk;
use crate::loading::under_another;
use crate::refusal::Refusal;
use desk_store::Keeper;
use roster::Roster;

impl<K: Keeper> Desk<K> {
    /// Takes another roster, in one commit. The base stays, and so do the messages, also those that
    /// the roster does not admit: after Ok each answer is that of the same set under the new
    /// roster.
    ///
    /// The call is refused only for want of memory or of the storage, and then the roster and what
    /// is kept are as they were.
    ///
    /// Whenever the call ends, a crash leaves the whole desk as it was, or the whole desk with the
    /// new roster's text; after Ok only the latter.
    pub fn take_roster(&mut self, roster: Roster) -> Result<(), Refusal>
        ensures taken { OnOk result (self.new.roster ≡ roster) }
        ensures kept { OnErr result (self.new.roster ≡ self.old.roster) }
        ensures base { self.new.base ≡ self.old.base }
        // The history that was known ends with the roster that was there before.
        ensures history { OnOk result (self.new.history ≡ []) }
        ensures history_kept { OnErr result (self.new.history ≡ self.old.history) }
        ensures held { K.is_up self.new.keeper
            → OnOk result (SameSet (K.holds self.old.keeper) (K.holds self.new.keeper)) }
        ensures unchanged { K.is_up self.new.keeper
            → OnErr result (K.is_same self.old.keeper self.new.keeper) }
        ensures err { IfErr result IsWant }
        // Over an honest disk the keeper is up after Ok.
        ensures live { K.is_clean self.new.keeper → OnOk result (K.is_up self.new.keeper) }
        ensures served { ServesAnswer K.Keeper self.old.keeper self.new.keeper result }
        ensures crash { K.is_up self.old.keeper → K.is_clean self.new.keeper
            → LeavesOnly (K.may_leave self.new.keeper)
            (IsLeftByTaking self.old.roster.text roster.text (K.holds self.old.keeper)) }
        ensures leaves { K.is_clean self.new.keeper
            → AddsOnly (K.may_leave self.old.keeper) (K.may_leave self.new.keeper)
            (IsCommitted (K.is_up self.old.keeper) roster.text (K.holds self.old.keeper)) }
        ensures lasting { K.is_up self.old.keeper → K.is_clean self.new.keeper
            → OnOk result (LeavesOnly (K.may_leave self.new.keeper)
            (IsDeskOf roster.text (K.holds self.old.keeper))) }
        ensures durable { K.is_up self.new.keeper → LeavesOnly (K.may_leave self.new.keeper)
            (IsDeskOf self.new.roster.text (K.holds self.new.keeper)) }
    {
        // What is known stays only where the roster is recorded. The digests and the history name
        // the roster that was there before: the next question makes the digests anew, and the
        // history is nobody's until it is taken again.
        let known = self.known.take();
        match self.keeper.replace(roster.text()) {
            Ok(()) => {
                self.known = under_another(known);
                self.digests = None;
                self.history = String::new(self.alloc);
                self.roster = roster;
                Ok(())
            }
            Err(error) => {
                // What is known and the roster are dropped by calls: at an exit that drops them in
                // line, each of their fields would be proved again.
                drop(known);
                drop(roster);
                Err(Refusal::from(error))
            }
        }
    }
}
