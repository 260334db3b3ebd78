//! A keeper that fails from some call on.

ghost use Rattle.std.specs.Prelude.{◌≡◌, ◌≤◌, ◌-◌, ◌↔◌, IsErr, IsOk, IfErr};
ghost use Rattle.desk_store.specs.Keeping.{HasFailed, together};
ghost use Rattle.desk_store.specs.declared.error.KeeperError.TheVariants as errors;

use crate::error::KeeperError;
use crate::failing::storage;
use crate::found::Found;
use crate::keeper::Keeper;
use messages::Message;
use outcomes::Gathered;
use store_tables::Arrival;

/// A keeper around any other: the given number of calls succeed or fail as they would, and each
/// later one is refused before it reaches the keeper inside.
///
/// Such a keeper shows what a caller does when the storage fails at a given call. What is kept
/// stays as the last call that came through left it. Calls by `&self` are never refused, and are
/// not counted.
#[derive(Drop)]
pub struct FailingKeeper<K: Keeper> {
    kept: K,
    calls_left: u64,
    refused: u64,
}

impl<K: Keeper> FailingKeeper<K> {
    /// A keeper that passes this many calls on. The call takes no memory.
    pub fn new(kept: K, calls: u64) -> FailingKeeper<K>
        ensures same { result.kept ≡ kept }
        ensures calls { result.calls_left ≡ calls }
        ensures none { result.refused ≡ 0 }
    {
        FailingKeeper {
            kept,
            calls_left: calls,
            refused: 0,
        }
    }

    /// Gives the keeper back, with what it keeps.
    pub fn into_inner(self) -> K
        ensures { result ≡ self.kept }
    {
        let FailingKeeper {
            kept,
            calls_left: _,
            refused: _,
        } = self;
        kept
    }
}

/// Counts a call down, or refuses the call and counts the refusal.
fn spend(calls_left: &mut u64, refused: &mut u64) -> Result<(), KeeperError>
    ensures blown { IsErr result ↔ (calls_left.old ≡ 0) }
    ensures spent { calls_left.new ≡ calls_left.old - 1 }
    ensures passed { IsOk result → refused.new ≡ refused.old }
    ensures failed { IsErr result → HasFailed refused.old refused.new }
    ensures counts { refused.old ≤ refused.new }
    ensures cause { IfErr result (λ e. e ≡ errors.Storage) }
{
    if *calls_left == 0 {
        return Err(storage(refused));
    }
    *calls_left -= 1;
    Ok(())
}

impl<K: Keeper> Keeper for FailingKeeper<K> {
    ghost is_empty = { λ k. K.is_empty k.kept };

    ghost is_desk = { λ k. K.is_desk k.kept };

    ghost is_old = { λ k. K.is_old k.kept };

    ghost roster = { λ k. K.roster k.kept };

    ghost holds = { λ k. K.holds k.kept };

    ghost is_up = { λ k. K.is_up k.kept };

    ghost is_clean = { λ k. K.is_clean k.kept };

    ghost failures = { λ k. together (K.failures k.kept) k.refused };

    ghost faults = { λ k. together (K.faults k.kept) k.refused };

    ghost is_limited = { λ k. K.is_limited k.kept };

    ghost beside = { λ k. K.beside k.kept };

    ghost is_same = { λ a b. K.is_same a.kept b.kept };

    ghost may_leave = { λ k. K.may_leave k.kept };

    ghost holds_messages = { λ k m held. K.holds_messages k.kept m held };

    ghost up_is_clean = { λ k up. K.up_is_clean k.kept up };

    ghost same_itself = { λ a. K.same_itself a.kept };

    ghost same_back = { λ a b same. K.same_back a.kept b.kept same };

    ghost same_on = { λ a b c first second. K.same_on a.kept b.kept c.kept first second };

    ghost stays_empty = { λ a b same empty. K.stays_empty a.kept b.kept same empty };

    ghost stays_desk = { λ a b same desk. K.stays_desk a.kept b.kept same desk };

    ghost stays_old = { λ a b same old. K.stays_old a.kept b.kept same old };

    ghost stays_roster = { λ a b same desk. K.stays_roster a.kept b.kept same desk };

    ghost stays_set = { λ a b same desk. K.stays_set a.kept b.kept same desk };

    fn look(&mut self) -> Result<Found, KeeperError> {
        self.kept.lasts();
        spend(&mut self.calls_left, &mut self.refused)?;
        self.kept.look()
    }

    fn make(&mut self, text: &str) -> Result<(), KeeperError> {
        self.kept.lasts();
        spend(&mut self.calls_left, &mut self.refused)?;
        self.kept.make(text)
    }

    fn add(&mut self, message: &Message, text: &str) -> Result<Arrival, KeeperError> {
        self.kept.lasts();
        spend(&mut self.calls_left, &mut self.refused)?;
        self.kept.add(message, text)
    }

    fn replace(&mut self, text: &str) -> Result<(), KeeperError> {
        self.kept.lasts();
        spend(&mut self.calls_left, &mut self.refused)?;
        self.kept.replace(text)
    }

    fn gather(&mut self) -> Result<Gathered, KeeperError> {
        self.kept.lasts();
        spend(&mut self.calls_left, &mut self.refused)?;
        self.kept.gather()
    }

    fn messages(&mut self) -> Result<Vec<Message>, KeeperError> {
        self.kept.lasts();
        spend(&mut self.calls_left, &mut self.refused)?;
        self.kept.messages()
    }

    fn failures(&self) -> u64 {
        self.kept.failures().saturating_add(self.refused)
    }

    fn lasts(&self) {
        self.kept.lasts();
    }

    fn shows(&self) {
        self.kept.shows();
    }
}
