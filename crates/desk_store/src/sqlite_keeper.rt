//! A keeper over a database.

ghost use Rattle.std.specs.Prelude.{◌≡◌, ◌↔◌, false, IfSome, IsSome};
ghost use Rattle.sqlite.specs.State.{HasCleanDisk};
ghost use Rattle.sqlite.specs.Held.{state};
ghost use Rattle.store_tables.specs.Kept.{HoldsText};
ghost use Rattle.store_tables.specs.Sets.{SameSet};
ghost use Rattle.store_tables.specs.SqliteStates.{IsUp, Rests};
ghost use Rattle.store_tables.specs.Stored.{content_of};
ghost use Rattle.store_schema.specs.Beside.{StandsBeside};
ghost use Rattle.store_schema.specs.Shapes.{IsVacant};
ghost use Rattle.store_opening.specs.Opened.{IsKept, IsOldDesk};
ghost use Rattle.outcomes.specs.Gathered.{AreGathered};
ghost use Rattle.desk_store.specs.Crash.{MayLeave};
ghost use Rattle.desk_store.specs.private.Props.{Rests-prop};
ghost use Rattle.desk_store.specs.Keeping.{IsCountIn};
ghost use Rattle.desk_store.specs.private.Showing.{IsShown};
ghost use Rattle.desk_store.specs.private.SqliteLaws as laws;

use crate::counting::count_of;
use crate::error::KeeperError;
use crate::failing::{storage, told};
use crate::found::{Found, FoundDesk};
use crate::gathering::{gather_in, known_of};
use crate::keeper::Keeper;
use crate::replacing::replace_in;
use crate::settled::{may_show, settles};
use messages::Message;
use outcomes::Gathered;
use sqlite::{Alter, Connection};
use std::alloc::Global;
use store_opening::{Contents, InDatabase, look, messages_of};
use store_schema::{is_ready, make};
use store_tables::{Arrival, Fault, arrive};

/// A desk in a database over any store, or a database without a desk. Between calls all that the
/// database shows is committed.
///
/// The keeper counts a failure for each call that it refuses, for whatever reason: also for a look
/// at a desk whose rows are not those that follow from its messages, and for want of memory.
///
/// A look reads all messages in any case. Where the keeper is made by `that_gathers`, a look also
/// tells what the messages come to, and how many there are, as far as memory suffices: whoever asks
/// the desk next need not read the messages again.
pub struct SqliteKeeper<S: Alter> {
    alloc: Global,
    conn: Connection<S>,
    failed: u64,
    gathers: bool,
    ghost rests: { Rests (state S.Store conn) } by { Rests-prop (state S.Store conn) },
}

impl<S: Alter> SqliteKeeper<S> {
    /// A keeper of what the database keeps. The connection is in no transaction, unless a failure
    /// has shut its store. The call takes no memory.
    pub fn new(alloc: Global, conn: Connection<S>) -> SqliteKeeper<S>
        requires { IsUp (state S.Store conn) → conn.in_transaction ≡ false }
        ensures same { result.conn ≡ conn }
        ensures none { result.failed ≡ 0 }
    {
        let _committed = conn.is_autocommit();
        SqliteKeeper {
            alloc,
            conn,
            failed: 0,
            gathers: false,
        }
    }

    /// A keeper of what the database keeps, for a desk that will be asked: a look tells what is
    /// known of the desk's messages, and how many there are.
    pub fn that_gathers(alloc: Global, conn: Connection<S>) -> SqliteKeeper<S>
        requires { IsUp (state S.Store conn) → conn.in_transaction ≡ false }
        ensures same { result.conn ≡ conn }
        ensures none { result.failed ≡ 0 }
    {
        let _committed = conn.is_autocommit();
        SqliteKeeper {
            alloc,
            conn,
            failed: 0,
            gathers: true,
        }
    }

    /// Gives the connection back, with what the database keeps.
    pub fn into_connection(self) -> Connection<S>
        ensures same { result ≡ self.conn }
        ensures rests { Rests (state S.Store result) }
    {
        let SqliteKeeper {
            alloc: _,
            conn,
            failed: _,
            gathers: _,
        } = self;
        conn
    }

    /// Gives up this keeper, and makes a new one over its connection: what another keeper finds
    /// over the same connection.
    ///
    /// The new keeper keeps what this keeper kept, and is up exactly where this keeper was up. The
    /// count of failures begins again.
    pub fn renewed(self) -> SqliteKeeper<S>
        ensures database { (state S.Store result.conn).now ≡ (state S.Store self.conn).now }
        ensures up { IsUp (state S.Store result.conn) ↔ IsUp (state S.Store self.conn) }
        ensures clean { HasCleanDisk (state S.Store result.conn)
            ↔ HasCleanDisk (state S.Store self.conn) }
        ensures empty { IsVacant (state S.Store result.conn).now.schema
            ↔ IsVacant (state S.Store self.conn).now.schema }
        ensures desk { IsKept (state S.Store result.conn).now
            ↔ IsKept (state S.Store self.conn).now }
        ensures old { IsOldDesk (state S.Store result.conn).now
            ↔ IsOldDesk (state S.Store self.conn).now }
        ensures roster { (content_of (state S.Store result.conn).now).roster
            ≡ (content_of (state S.Store self.conn).now).roster }
        ensures set { SameSet (HoldsText (state S.Store self.conn).now)
            (HoldsText (state S.Store result.conn).now) }
        ensures none { result.failed ≡ 0 }
    {
        let alloc = self.alloc;
        SqliteKeeper::new(alloc, self.into_connection())
    }
}

impl<S: Alter + Drop> Drop for SqliteKeeper<S> {
    fn drop(self) {
        let SqliteKeeper {
            alloc: _,
            conn: _,
            failed: _,
            gathers: _,
        } = self;
    }
}

/// What the keeper tells of a desk that was found. Where memory lacks, what is known of the
/// messages or their count is not told; the desk gathers or counts once it is asked.
fn shown_desk(alloc: Global, gathers: bool, contents: Contents) -> FoundDesk
    ensures roster { result.roster ≡ contents.roster }
    ensures known { IfSome result.known (AreGathered contents.messages.items) }
    ensures count { IfSome result.count (IsCountIn contents.messages.items) }
{
    let Contents { roster, messages } = contents;
    if !gathers {
        drop(messages);
        return FoundDesk {
            roster,
            known: None,
            count: None,
        };
    }
    // The messages are counted first, since gathering frees each of them.
    let count = count_of(alloc, messages.as_slice());
    let known = known_of(alloc, messages).ok();
    FoundDesk {
        roster,
        known,
        count,
    }
}

/// What the keeper tells of what was found.
fn shown(alloc: Global, gathers: bool, found: InDatabase) -> Found
    ensures { IsShown found result }
{
    match found {
        InDatabase::Empty => Found::Empty,
        InDatabase::Desk(contents) => Found::Desk(shown_desk(alloc, gathers, contents)),
        InDatabase::Old(contents) => {
            drop(contents);
            Found::OldDesk
        }
        InDatabase::NotADesk => Found::NotADesk,
    }
}

impl<S: Alter> Keeper for SqliteKeeper<S> {
    ghost is_empty = { λ k. IsVacant (state S.Store k.conn).now.schema };

    ghost is_desk = { λ k. IsKept (state S.Store k.conn).now };

    ghost is_old = { λ k. IsOldDesk (state S.Store k.conn).now };

    ghost roster = { λ k. (content_of (state S.Store k.conn).now).roster };

    ghost holds = { λ k. HoldsText (state S.Store k.conn).now };

    ghost is_up = { λ k. IsUp (state S.Store k.conn) };

    ghost is_clean = { λ k. HasCleanDisk (state S.Store k.conn) };

    ghost failures = { λ k. k.failed };

    ghost faults = { λ k. (state S.Store k.conn).faults };

    ghost is_limited = { λ k. IsSome k.conn.step_limit };

    ghost beside = { λ k. StandsBeside (state S.Store k.conn).now };

    ghost is_same = { λ a b. (state S.Store b.conn).now ≡ (state S.Store a.conn).now };

    ghost may_leave = { λ k. MayLeave (state S.Store k.conn) };

    ghost holds_messages = { λ k m held. held.0 };

    ghost up_is_clean = { λ k up. up.clean };

    ghost same_itself = { λ a. laws.same_itself _ };

    ghost same_back = { λ a b same. laws.same_back _ _ same };

    ghost same_on = { λ a b c first second. laws.same_on _ _ _ first second };

    ghost stays_empty = { λ a b same empty. laws.stays_empty _ _ same empty };

    ghost stays_desk = { λ a b same desk. laws.stays_desk _ _ same desk };

    ghost stays_old = { λ a b same old. laws.stays_old _ _ same old };

    ghost stays_roster = { λ a b same desk. laws.stays_roster _ _ same };

    ghost stays_set = { λ a b same desk. laws.stays_set _ _ same };

    /// A desk whose rows are not those that follow from its messages is refused, and counted as a
    /// failure.
    fn look(&mut self) -> Result<Found, KeeperError> {
        settles(&self.conn);
        match look(self.alloc, &mut self.conn) {
            Ok(found) => Ok(shown(self.alloc, self.gathers, found)),
            Err(fault) => Err(told(&mut self.failed, fault)),
        }
    }

    /// A database is refused, as `Storage` and with a failure counted, if a foreign key waits for a
    /// desk's tables, or if a table counts by AUTOINCREMENT without the table of the counts.
    fn make(&mut self, text: &str) -> Result<(), KeeperError> {
        settles(&self.conn);
        if !self.conn.is_autocommit() || !is_ready(self.conn.schema()) {
            return Err(storage(&mut self.failed));
        }
        let made = make(&mut self.conn, text);
        settles(&self.conn);
        match made {
            Ok(()) => Ok(()),
            Err(error) => Err(told(&mut self.failed, Fault::Database(error))),
        }
    }

    fn add(&mut self, message: &Message, text: &str) -> Result<Arrival, KeeperError> {
        settles(&self.conn);
        if !self.conn.is_autocommit() {
            return Err(storage(&mut self.failed));
        }
        let arrived = arrive(self.alloc, &mut self.conn, message, text);
        settles(&self.conn);
        match arrived {
            Ok(arrival) => Ok(arrival),
            Err(refused) => Err(told(&mut self.failed, refused)),
        }
    }

    fn replace(&mut self, text: &str) -> Result<(), KeeperError> {
        settles(&self.conn);
        let replaced = replace_in(self.alloc, &mut self.conn, text);
        settles(&self.conn);
        match replaced {
            Ok(()) => Ok(()),
            Err(undone) => Err(told(&mut self.failed, undone)),
        }
    }

    fn gather(&mut self) -> Result<Gathered, KeeperError> {
        settles(&self.conn);
        match gather_in(self.alloc, &mut self.conn) {
            Ok(gathered) => Ok(gathered),
            Err(fault) => Err(told(&mut self.failed, fault)),
        }
    }

    fn messages(&mut self) -> Result<Vec<Message>, KeeperError> {
        settles(&self.conn);
        match messages_of(self.alloc, &mut self.conn) {
            Ok(messages) => Ok(messages),
            Err(fault) => Err(told(&mut self.failed, fault)),
        }
    }

    fn failures(&self) -> u64 {
        self.failed
    }

    fn lasts(&self) {
        settles(&self.conn);
    }

    fn shows(&self) {
        may_show(&self.conn);
    }
}
