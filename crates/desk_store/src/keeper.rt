//! The keeper of a desk.

ghost use Rattle.std.specs.Prelude.{◌≡◌, ℕ, ◌≤◌, ◌⊎◌, List, length, IfOk, IsErr, OnOk, OnErr, Err};
ghost use Rattle.messages.specs.Wire.{IsMessage, wire};
ghost use Rattle.messages.specs.declared.message.Message.{Message as AnyMessage};
ghost use Rattle.store_schema.specs.Beside.{TableWithRows};
ghost use Rattle.store_tables.specs.Arrivals.{IsTold};
ghost use Rattle.store_tables.specs.Sets.{IsNothing, SameSet, IsWith, Lists, With};
ghost use Rattle.desk_store.specs.Keeping.{FindsSomeDesk, HasFailed, IsKnownOf, Tells};
ghost use Rattle.desk_store.specs.Keeping.{TellsCount, TellsKnown};
ghost use Rattle.desk_store.specs.Left.{Left, AddsOnly, IsAsKept, IsCommitted, IsDeskOf};
ghost use Rattle.desk_store.specs.Left.{IsNothingOrFresh, IsReplacedOrNot, IsWithOrWithout};
ghost use Rattle.desk_store.specs.Left.{LeavesOnly};
ghost use Rattle.desk_store.specs.Serving.{IsServed};

use crate::error::KeeperError;
use crate::found::Found;
use messages::Message;
use outcomes::Gathered;
use store_tables::Arrival;

/// What keeps a desk. A keeper has no part of a desk, or a desk's roster text and the set of the
/// desk's messages, or a desk of an older form, or something that is not a desk.
///
/// Each call that changes what is kept makes the whole change, in one commit, or none of it, and
/// takes the memory that it needs first. A clause about what is kept holds if the keeper is up when
/// the call ends: its storage has been honest, and no failure has shut it. A keeper in memory is
/// always up. `Storage` is answered only if the count of failures rose in that call, or stands at
/// the greatest number of 64 bits. The clause `served` of each call says this, says when the keeper
/// is up then, and says that whatever else its storage keeps stays as it was.
///
/// A clause `crash` holds at each exit of its call, also after a failure, as long as the storage
/// has been honest: what a crash may leave then, for the next opening, is all that was kept when
/// the call began, or all that the call was to commit. A clause `lasting` says that after Ok a
/// crash leaves only the latter, and a clause `durable` says that a crash leaves what the keeper
/// keeps, as long as the keeper is up.
///
/// The clauses `live` and `leaves` hold of a keeper that is not up as well, as long as its storage
/// has been honest: a keeper that a failure has shut answers Ok to no call but a look, and commits
/// nothing. So a crash then leaves nothing that it might not have left before.
pub trait Keeper {
    /// The keeper keeps no part of a desk.
    ghost is_empty: { Self → Type 0 };

    /// The keeper keeps a desk.
    ghost is_desk: { Self → Type 0 };

    /// The keeper keeps a desk of an older form, which is to be rebuilt.
    ghost is_old: { Self → Type 0 };

    /// The text of the desk's roster, also of a desk of an older form.
    ghost roster: { Self → List ℕ };

    /// The message is one of the desk's.
    ghost holds: { Self → AnyMessage → Type 0 };

    /// The storage has been honest, and no failure has shut it.
    ghost is_up: { Self → Type 0 };

    /// The storage has been honest.
    ghost is_clean: { Self → Type 0 };

    /// How many failures were counted.
    ghost failures: { Self → ℕ };

    /// How many failures the storage itself has counted.
    ghost faults: { Self → ℕ };

    /// The steps of a query are limited.
    ghost is_limited: { Self → Type 0 };

    /// The table is kept too, with these rows, and is not one of a desk's.
    ghost beside: { Self → TableWithRows → Type 0 };

    /// The second keeper keeps what the first keeps.
    ghost is_same: { Self → Self → Type 0 };

    /// A crash at this moment may leave this, for the next opening.
    ghost may_leave: { Self → Left → Type 0 };

    /// Tells what the keeper keeps, and, where the keeper sees fit, what is known of a desk's
    /// messages and how many they are. What is kept stays as it is.
    fn look(&mut self) -> Result<Found, KeeperError>
        ensures found { is_up self.new → IfOk result
            (Tells (is_empty self.old) (is_desk self.old) (is_old self.old) (roster self.old)) }
        // Where a look tells what is known of the messages, it is what `gather` gives; where it
        // tells how many they are, the set has so many.
        ensures known { is_up self.new → IfOk result (TellsKnown (holds self.old)) }
        ensures counted { is_up self.new → IfOk result (TellsCount (holds self.old)) }
        ensures same { is_up self.new → is_same self.old self.new }
        ensures served { IsServed is_up is_clean failures beside self.old self.new
            (result ≡ Err KeeperError.Storage) (IsErr result) }
        // A look that sees none of a desk's tables may run no statement: so `Empty` and `NotADesk`
        // do not say that the keeper is up.
        ensures live { is_clean self.new
            → IfOk result (λ found. FindsSomeDesk found → is_up self.new) }
        ensures crash { is_up self.old → is_clean self.new
            → LeavesOnly (may_leave self.new) (IsAsKept (is_empty self.old)
            (is_desk self.old) (is_old self.old) (roster self.old) (holds self.old)) }
        ensures leaves { is_clean self.new
            → AddsOnly (may_leave self.old) (may_leave self.new) (λ _. ⊥) };

    /// Makes a desk with this roster text and no messages, in one commit.
    fn make(&mut self, text: &str) -> Result<(), KeeperError>
        requires { is_up self.old → is_empty self.old }
        ensures made { is_up self.new → OnOk result (is_desk self.new) }
        ensures recorded { is_up self.new → OnOk result (roster self.new ≡ text.now) }
        ensures nothing { is_up self.new → OnOk result (IsNothing (holds self.new)) }
        ensures unmade { is_up self.new → OnErr result (is_same self.old self.new) }
        ensures served { IsServed is_up is_clean failures beside self.old self.new
            (result ≡ Err KeeperError.Storage) (IsErr result) }
        ensures live { is_clean self.new → OnOk result (is_up self.new) }
        ensures crash { is_up self.old → is_clean self.new
            → LeavesOnly (may_leave self.new) (IsNothingOrFresh text.now) }
        ensures leaves { is_clean self.new → AddsOnly (may_leave self.old) (may_leave self.new)
            (IsCommitted (is_up self.old) text.now (λ _. ⊥)) }
        ensures lasting { is_up self.old → is_clean self.new
            → OnOk result (LeavesOnly (may_leave self.new) (IsDeskOf text.now (λ _. ⊥))) }
        ensures durable { is_up self.new
            → LeavesOnly (may_leave self.new) (IsAsKept (is_empty self.new)
            (is_desk self.new) (is_old self.new) (roster self.new) (holds self.new)) };

    /// Adds the message, whose text this is, to the desk's messages, in one commit. A message that
    /// the desk has already changes nothing. The answer tells whether the message was new.
    fn add(&mut self, message: &Message, text: &str) -> Result<Arrival, KeeperError>
        requires desk { is_up self.old → is_desk self.old }
        requires message { IsMessage message.now }
        requires text { text.now ≡ wire message.now }
        requires short { length text.now ≤ 16_384 }
        ensures added { is_up self.new
            → OnOk result (IsWith (holds self.old) message.now (holds self.new)) }
        ensures told { is_up self.new → IfOk result (IsTold (holds self.old message.now)) }
        ensures repeated { is_up self.new → holds self.old message.now
            → OnOk result (is_same self.old self.new) }
        ensures unchanged { is_up self.new → OnErr result (is_same self.old self.new) }
        ensures desk { is_up self.new → is_desk self.new }
        ensures roster { is_up self.new → roster self.new ≡ roster self.old }
        ensures served { IsServed is_up is_clean failures beside self.old self.new
            (result ≡ Err KeeperError.Storage) (IsErr result) }
        // For a message that the desk has, `Storage` comes only where the storage's own count of
        // failures rose or stands at the greatest number of 64 bits, or the steps of a query are
        // limited.
        ensures cause { is_up self.old → is_clean self.new → holds self.old message.now
            → result ≡ Err KeeperError.Storage
            → HasFailed (faults self.old) (faults self.new) ⊎ is_limited self.old }
        ensures live { is_clean self.new → OnOk result (is_up self.new) }
        ensures crash { is_up self.old → is_clean self.new → LeavesOnly (may_leave self.new)
            (IsWithOrWithout (roster self.old) (holds self.old) message.now) }
        ensures leaves { is_clean self.new → AddsOnly (may_leave self.old) (may_leave self.new)
            (IsCommitted (is_up self.old) (roster self.old) (With (holds self.old) message.now)) }
        ensures lasting { is_up self.old → is_clean self.new → OnOk result (LeavesOnly
            (may_leave self.new) (IsDeskOf (roster self.old) (With (holds self.old) message.now))) }
        ensures durable { is_up self.new
            → LeavesOnly (may_leave self.new) (IsDeskOf (roster self.new) (holds self.new)) };

    /// Replaces the desk's roster text, in one commit. The messages stay, and so does what is kept
    /// beside them, which does not depend on the roster. A desk of an older form becomes one of
    /// today's: what is kept beside the messages is then made from them.
    fn replace(&mut self, text: &str) -> Result<(), KeeperError>
        requires { is_up self.old → is_desk self.old ⊎ is_old self.old }
        ensures desk { is_up self.new → OnOk result (is_desk self.new) }
        ensures recorded { is_up self.new → OnOk result (roster self.new ≡ text.now) }
        ensures held { is_up self.new → OnOk result (SameSet (holds self.old) (holds self.new)) }
        ensures unchanged { is_up self.new → OnErr result (is_same self.old self.new) }
        ensures served { IsServed is_up is_clean failures beside self.old self.new
            (result ≡ Err KeeperError.Storage) (IsErr result) }
        ensures live { is_clean self.new → OnOk result (is_up self.new) }
        ensures crash { is_up self.old → is_clean self.new
            → LeavesOnly (may_leave self.new) (IsReplacedOrNot (is_desk self.old)
            (is_old self.old) (roster self.old) text.now (holds self.old)) }
        ensures leaves { is_clean self.new → AddsOnly (may_leave self.old) (may_leave self.new)
            (IsCommitted (is_up self.old) text.now (holds self.old)) }
        ensures lasting { is_up self.old → is_clean self.new
            → OnOk result (LeavesOnly (may_leave self.new) (IsDeskOf text.now (holds self.old))) }
        ensures durable { is_up self.new
            → LeavesOnly (may_leave self.new) (IsAsKept (is_empty self.new)
            (is_desk self.new) (is_old self.new) (roster self.new) (holds self.new)) };

    /// What is known of the desk's messages: a summary for each name that somebody asks under, and
    /// the verdicts that wait for their request. What is kept stays as it is.
    fn gather(&mut self) -> Result<Gathered, KeeperError>
        requires { is_up self.old → is_desk self.old }
        ensures known { is_up self.new → IfOk result (IsKnownOf (holds self.old)) }
        ensures same { is_up self.new → is_same self.old self.new }
        ensures served { IsServed is_up is_clean failures beside self.old self.new
            (result ≡ Err KeeperError.Storage) (IsErr result) }
        ensures live { is_clean self.new → OnOk result (is_up self.new) }
        ensures crash { is_up self.old → is_clean self.new
            → LeavesOnly (may_leave self.new) (IsDeskOf (roster self.old) (holds self.old)) }
        ensures leaves { is_clean self.new
            → AddsOnly (may_leave self.old) (may_leave self.new) (λ _. ⊥) };

    /// The desk's messages, in an order of the keeper's own. What is kept stays as it is.
    fn messages(&mut self) -> Result<Vec<Message>, KeeperError>
        requires { is_up self.old → is_desk self.old }
        ensures listed { is_up self.new → IfOk result (λ list. Lists (holds self.old) list.items) }
        ensures same { is_up self.new → is_same self.old self.new }
        ensures served { IsServed is_up is_clean failures beside self.old self.new
            (result ≡ Err KeeperError.Storage) (IsErr result) }
        ensures live { is_clean self.new → OnOk result (is_up self.new) }
        ensures crash { is_up self.old → is_clean self.new
            → LeavesOnly (may_leave self.new) (IsDeskOf (roster self.old) (holds self.old)) }
        ensures leaves { is_clean self.new
            → AddsOnly (may_leave self.old) (may_leave self.new) (λ _. ⊥) };

    /// How many failures the keeper has counted, up to the greatest number of 64 bits.
    fn failures(&self) -> u64
        ensures { result ≡ Self.failures self.now };

    /// While the keeper is up, a crash leaves what it keeps, for the next opening. The function
    /// does nothing: a keeper around another one calls it for this contract.
    fn lasts(&self)
        ensures { is_up self.now → LeavesOnly (may_leave self.now) (IsAsKept (is_empty self.now)
            (is_desk self.now) (is_old self.now) (roster self.now) (holds self.now)) };

    /// While the keeper is up, a crash may leave something, and the messages of a desk are those of
    /// some list. So the clauses about all that may be left, and about each list of what is held,
    /// are about something. The function does nothing: it is called for this contract.
    fn shows(&self)
        ensures left { is_up self.now → is_empty self.now ⊎ (is_desk self.now ⊎ is_old self.now)
            → (left : Left) × may_leave self.now left }
        ensures listed { is_up self.now → is_desk self.now ⊎ is_old self.now
            → (list : List AnyMessage) × Lists (holds self.now) list };

    /// Each message that is held is valid (`IsMessage`).
    ghost holds_messages: { (k : Self) → (m : AnyMessage) → holds k m → IsMessage m };

    /// A keeper that is up has had honest storage.
    ghost up_is_clean: { (k : Self) → is_up k → is_clean k };

    /// What is kept is the same as itself.
    ghost same_itself: { (a : Self) → is_same a a };

    ghost same_back: { (a b : Self) → is_same a b → is_same b a };

    ghost same_on: { (a b c : Self) → is_same a b → is_same b c → is_same a c };

    /// A keeper that keeps the same as one without any part of a desk has no part of a desk either.
    ghost stays_empty: { (a b : Self) → is_same a b → is_empty a → is_empty b };

    /// A keeper that keeps the same as one with a desk keeps a desk.
    ghost stays_desk: { (a b : Self) → is_same a b → is_desk a → is_desk b };

    /// A keeper that keeps the same as one with a desk of an older form keeps such a desk, with the
    /// same messages and the same text of its roster.
    ghost stays_old: { (a b : Self) → is_same a b → is_old a
        → is_old b × SameSet (holds a) (holds b) × (roster b ≡ roster a) };

    ghost stays_roster: { (a b : Self) → is_same a b → is_desk a → roster b ≡ roster a };

    ghost stays_set: { (a b : Self) → is_same a b → is_desk a → SameSet (holds a) (holds b) };
}
