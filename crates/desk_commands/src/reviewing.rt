//! Printing the report of a desk.

ghost use Rattle.std.specs.Prelude.{◌≡◌, ◌∷◌, ℕ, List, map, IfErr, IfOk, IsErrAnd, string_bytes};
ghost use Rattle.std.specs.Io.KnownBytes.{Appends};
ghost use Rattle.desk_store.specs.Keeping.{HasFailed};
ghost use Rattle.desk_store.specs.Serves.{Serves};
ghost use Rattle.desk_commands.specs.Kept.{kept_by};
ghost use Rattle.desk_commands.specs.Leaving.{LeavesTaken, SaysTaking};
ghost use Rattle.desk_commands.specs.Reviewing.{ReviewsDesk};
ghost use Rattle.desk_commands.specs.Wanting.{IsWanting};
ghost use Rattle.desk_commands.specs.private.Outcomes.{EndsReport, IsLeft, IsOutcome, LivesAfter};
ghost use Rattle.desk_args.specs.declared.task.Job.TheVariants as jobs;
ghost use Rattle.desk_args.specs.declared.task.Store.TheVariants as stores;

use crate::answer::Answer;
use crate::opening::open_over;
use crate::refusal::JobRefusal;
use crate::taking::take_input;
use desk::{Desk, Keeper};
use desk_args::{ExitStatus, Places, Store};
use review::report;
use std::alloc::Global;
use std::io::{Read, Write};
use sudo_words::Moment;

/// The report of an open desk at the moment, once it has taken the lines of the input that it
/// takes.
fn review_of<K: Keeper, R: Read, E: Write>(
    alloc: Global,
    desk: &mut Desk<K>,
    store: &Store,
    at: Moment,
    input: &mut R,
    err: &mut E,
) -> Result<Answer, JobRefusal>
    ensures found { IfOk result (λ a. (said : List ℕ) × ReviewsDesk desk.old.roster.says
        desk.old.base store.now at (K.holds desk.old.keeper) (K.holds desk.new.keeper)
        (K.is_up desk.new.keeper × K.is_desk desk.new.keeper) (R.remaining input.old) a.status
        (string_bytes a.text) said × Appends (E.contents err.old) (E.contents err.new) said) }
    ensures cause { IfErr result (EndsReport store.now
        (HasFailed (K.failures desk.old.keeper) (K.failures desk.new.keeper))) }
    ensures said { IfErr result (λ _. SaysTaking store.now desk.old.roster.says
        (R.remaining input.old) (E.contents err.old) (E.contents err.new)) }
    ensures left { K.is_up desk.new.keeper → K.is_desk desk.new.keeper
        → LeavesTaken store.now desk.old.roster.says (R.remaining input.old)
        (K.holds desk.old.keeper) (K.holds desk.new.keeper) }
    ensures unread { (store.now ≡ stores.Memory → ⊥) → input.new ≡ input.old }
    ensures roster { desk.new.roster ≡ desk.old.roster }
    ensures served { Serves K.Keeper desk.old.keeper desk.new.keeper ⊥ (IsErrAnd result IsWanting) }
{
    take_input(alloc, store, desk, input, err)?;
    match report(desk, at) {
        Ok(text) => Ok(Answer {
            text,
            status: ExitStatus::Done,
        }),
        Err(refusal) => Err(JobRefusal::Desk(refusal)),
    }
}

/// The report of the desk that the files of the roster and the base make of what the keeper keeps.
/// The keeper is handed back.
fn review_over<K: Keeper, R: Read, E: Write>(
    alloc: Global,
    roster: &[u8],
    base: &[u8],
    keeper: K,
    places: &Places,
    at: Moment,
    input: &mut R,
    err: &mut E,
) -> (Result<Answer, JobRefusal>, K)
    ensures outcome { (more : List (List ℕ)) → IsOutcome (jobs.Review places.now at)
        (roster.now ∷ base.now ∷ more) (kept_by K.Keeper keeper result.1)
        (R.remaining input.old) result.0 (E.contents err.old) (E.contents err.new) }
    ensures left { (more : List (List ℕ)) → IfErr result.0 (λ _. IsLeft (jobs.Review places.now at)
        (roster.now ∷ base.now ∷ more) (kept_by K.Keeper keeper result.1) (K.is_same keeper
        result.1) (R.remaining input.old) (E.contents err.old) (E.contents err.new)) }
    ensures unread { (places.now.store ≡ stores.Memory → ⊥) → input.new ≡ input.old }
    ensures served { Serves K.Keeper keeper result.1 ⊥ (IsErrAnd result.0 IsWanting) }
    ensures live { LivesAfter K.Keeper result.1 (IsErrAnd result.0 IsWanting) result.0 }
{
    match open_over(alloc, roster, base, keeper) {
        Ok(mut desk) => {
            let answer = review_of(alloc, &mut desk, &places.store, at, input, err);
            (answer, desk.into_keeper())
        }
        Err((refusal, keeper)) => (Err(refusal), keeper),
    }
}

/// The same, over the job's files.
///
/// A line that the desk does not take is named on `err`, as by `print_host`, and has no other
/// effect. The job is refused where the files make no desk, where the input cannot be read or `err`
/// cannot be written, and where memory runs out.
pub fn review_desk<K: Keeper, R: Read, E: Write>(
    alloc: Global,
    files: &[Vec<u8>],
    keeper: K,
    places: &Places,
    at: Moment,
    input: &mut R,
    err: &mut E,
) -> (Result<Answer, JobRefusal>, K)
    ensures outcome { IsOutcome (jobs.Review places.now at) (map (λ f. f.items) files.now)
        (kept_by K.Keeper keeper result.1) (R.remaining input.old) result.0
        (E.contents err.old) (E.contents err.new) }
    ensures left { IfErr result.0 (λ _. IsLeft (jobs.Review places.now at)
        (map (λ f. f.items) files.now) (kept_by K.Keeper keeper result.1) (K.is_same keeper
        result.1) (R.remaining input.old) (E.contents err.old) (E.contents err.new)) }
    ensures unread { (places.now.store ≡ stores.Memory → ⊥) → input.new ≡ input.old }
    ensures served { Serves K.Keeper keeper result.1 ⊥ (IsErrAnd result.0 IsWanting) }
    ensures live { LivesAfter K.Keeper result.1 (IsErrAnd result.0 IsWanting) result.0 }
{
    match files {
        [roster, base, ..] => review_over(
            alloc,
            roster.as_slice(),
            base.as_slice(),
            keeper,
            places,
            at,
            input,
            err,
        ),
        _ => (Err(JobRefusal::FileFailed), keeper),
    }
}
