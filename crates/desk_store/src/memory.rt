//! A keeper in memory.

ghost use Rattle.std.specs.Prelude.{◌≡◌, ◌≢◌, ⊤, [], None, AllPairs, Err, IfOk, OnOk};
ghost use Rattle.std.specs.Prelude.{IsSome, unwrap_or};
ghost use Rattle.store_tables.specs.Sets.{Lists};
ghost use Rattle.desk_store.specs.Crash.{LeavesContent};
ghost use Rattle.desk_store.specs.Keeping.{HasFailed};
ghost use Rattle.desk_store.specs.Left.{AddsOnly, IsDeskOf, LeavesOnly};
ghost use Rattle.desk_store.specs.declared.error.KeeperError.TheVariants as errors;
ghost use Rattle.desk_store.specs.Memory as memory;

use crate::collected::Collected;
use crate::error::KeeperError;
use crate::found::{Found, FoundDesk};
use crate::keeper::Keeper;
use messages::Message;
use outcomes::Gathered;
use std::alloc::Global;
use std::marker::Model;
use store_tables::Arrival;

/// A desk in memory, or no part of one. A keeper in memory is always up, never answers `Storage`,
/// and keeps no desk of an older form.
#[derive(Drop)]
pub struct MemoryKeeper {
    alloc: Global,
    roster: Option<String>,
    messages: Collected,
}

impl Model for MemoryKeeper {
    ghost use Rattle.std.specs.Prelude.{string_bytes, option_map};
    ghost use Rattle.desk_store.specs.Memory.{MemoryContent};

    ghost Value = { MemoryContent };

    ghost view = { λ k. record {
      roster = option_map string_bytes k.roster;
      messages = k.messages;
    } };
}

impl MemoryKeeper {
    /// A keeper that keeps no part of a desk. The call takes no memory.
    pub fn new(alloc: Global) -> MemoryKeeper
        ensures { result ≡ memory.nothing }
    {
        MemoryKeeper {
            alloc,
            roster: None,
            messages: Collected::new(alloc),
        }
    }
}

impl Keeper for MemoryKeeper {
    ghost use Rattle.std.specs.Prelude.{◌≡◌, ⊤, IsSome, unwrap_or};
    ghost use Rattle.desk_store.specs.MemoryLaws as laws;
    ghost use Rattle.desk_store.specs.Crash.{LeavesContent};

    ghost is_empty = { λ k. k.roster ≡ None };

    ghost is_desk = { λ k. IsSome k.roster };

    ghost is_old = { λ k. ⊥ };

    ghost roster = { λ k. unwrap_or k.roster [] };

    ghost holds = { λ k. memory.MemoryHolds k };

    ghost is_up = { λ k. ⊤ };

    ghost is_clean = { λ k. ⊤ };

    ghost failures = { λ k. 0 };

    ghost faults = { λ k. 0 };

    ghost is_limited = { λ k. ⊥ };

    ghost beside = { λ k it. ⊥ };

    ghost is_same = { λ a b. b ≡ a };

    ghost may_leave = { LeavesContent };

    ghost holds_messages = { λ k m held. held.0 };

    ghost up_is_clean = { λ k up. up };

    ghost same_itself = { laws.same_itself };

    ghost same_back = { laws.same_back };

    ghost same_on = { laws.same_on };

    ghost stays_empty = { laws.stays_empty };

    ghost stays_desk = { laws.stays_desk };

    ghost stays_old = { laws.stays_old };

    ghost stays_roster = { laws.stays_roster };

    ghost stays_set = { laws.stays_set };

    fn look(&mut self) -> Result<Found, KeeperError> {
        let Some(text) = &self.roster else {
            return Ok(Found::Empty);
        };
        let copy = String::from_str(self.alloc, text.as_str())?;
        Ok(Found::Desk(FoundDesk {
            roster: copy,
            known: None,
            count: None,
        }))
    }

    fn make(&mut self, text: &str) -> Result<(), KeeperError> {
        let copy = String::from_str(self.alloc, text)?;
        self.messages = Collected::new(self.alloc);
        self.roster = Some(copy);
        Ok(())
    }

    fn add(&mut self, message: &Message, text: &str) -> Result<Arrival, KeeperError> {
        self.messages.put(message, text)
    }

    fn replace(&mut self, text: &str) -> Result<(), KeeperError> {
        let recorded = String::from_str(self.alloc, text)?;
        self.roster = Some(recorded);
        Ok(())
    }

    fn gather(&mut self) -> Result<Gathered, KeeperError> {
        Ok(Gathered::of(self.alloc, self.messages.as_slice())?)
    }

    /// The messages, each once, in the order in which they came.
    fn messages(&mut self) -> Result<Vec<Message>, KeeperError>
        requires { ⊤ → IsSome self.old.roster }
        ensures listed { IfOk result (λ list. Lists (memory.MemoryHolds self.old) list.items) }
        ensures once { IfOk result (λ list. AllPairs (λ m n. m ≢ n) list.items) }
        ensures same { self.new ≡ self.old }
        ensures cause { result ≡ Err errors.Storage → HasFailed 0 0 }
        ensures live { OnOk result ⊤ }
        ensures crash { LeavesOnly (LeavesContent self.new)
            (IsDeskOf (unwrap_or self.old.roster []) (memory.MemoryHolds self.old)) }
        ensures leaves { AddsOnly (LeavesContent self.old) (LeavesContent self.new) (λ _. ⊥) }
    {
        self.messages.copied()
    }

    fn failures(&self) -> u64 {
        0
    }

    fn lasts(&self) {}

    fn shows(&self) {
        let _messages = self.messages.as_slice();
    }
}
