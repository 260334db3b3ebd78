//! Giving a desk another roster.

ghost use Rattle.std.specs.Prelude.{◌≡◌, ◌∷◌, ℕ, List, Option, IfOk, codes};
ghost use Rattle.std.specs.Prelude.{map, string_bytes, IfErr, IsErrAnd};
ghost use Rattle.desk_store.specs.Serves.{Serves};
ghost use Rattle.desk_commands.specs.Kept.{kept_by};
ghost use Rattle.desk_commands.specs.Wanting.{IsWanting};
ghost use Rattle.desk_commands.specs.private.Outcomes.{IsLeft, IsOutcome, LivesAfter};
ghost use Rattle.desk_args.specs.declared.status.ExitStatus.TheVariants.{Done};
ghost use Rattle.desk_args.specs.declared.task.Job.TheVariants as jobs;
ghost use Rattle.desk_args.specs.declared.task.Places.{Places as Parts};

use crate::answer::Answer;
use crate::opening::rebuild_over;
use crate::refusal::JobRefusal;
use desk::Keeper;
use desk_args::ExitStatus;
use std::alloc::{AllocError, Global};

/// The answer when the desk is rebuilt.
fn ok(alloc: Global) -> Result<Answer, AllocError>
    ensures { IfOk result (λ a. (a.status ≡ Done) × (string_bytes a.text ≡ codes "ok\n")) }
{
    Ok(Answer {
        text: String::from_str(alloc, "ok\n")?,
        status: ExitStatus::Done,
    })
}

/// Gives the roster of the first file to the desk that the keeper keeps, and returns the answer
/// `ok` and the keeper. The answer is made first: a rebuilt desk is not refused for want of memory.
fn rebuilt<K: Keeper>(
    alloc: Global,
    roster: &[u8],
    base: &[u8],
    keeper: K,
) -> (Result<Answer, JobRefusal>, K)
    ensures outcome { (places : Parts) (more : List (List ℕ)) (input err : Option (List ℕ))
        → IsOutcome (jobs.Rebuild places)
        (roster.now ∷ base.now ∷ more) (kept_by K.Keeper keeper result.1) input result.0 err err }
    ensures left { (places : Parts) (more : List (List ℕ)) (input err : Option (List ℕ))
        → IfErr result.0 (λ _. IsLeft (jobs.Rebuild places) (roster.now ∷ base.now ∷ more)
        (kept_by K.Keeper keeper result.1) (K.is_same keeper result.1) input err err) }
    ensures served { Serves K.Keeper keeper result.1 ⊥ (IsErrAnd result.0 IsWanting) }
    ensures live { LivesAfter K.Keeper result.1 (IsErrAnd result.0 IsWanting) result.0 }
{
    let Ok(answer) = ok(alloc) else {
        return (Err(JobRefusal::NoMemory), keeper);
    };
    match rebuild_over(alloc, roster, base, keeper) {
        Ok(desk) => (Ok(answer), desk.into_keeper()),
        Err((refusal, keeper)) => (Err(refusal), keeper),
    }
}

/// The same, over the job's files.
pub fn rebuild_desk<K: Keeper>(
    alloc: Global,
    files: &[Vec<u8>],
    keeper: K,
) -> (Result<Answer, JobRefusal>, K)
    ensures outcome { (places : Parts) (input err : Option (List ℕ))
        → IsOutcome (jobs.Rebuild places) (map (λ f. f.items) files.now)
        (kept_by K.Keeper keeper result.1) input result.0 err err }
    ensures left { (places : Parts) (input err : Option (List ℕ))
        → IfErr result.0 (λ _. IsLeft (jobs.Rebuild places) (map (λ f. f.items) files.now)
        (kept_by K.Keeper keeper result.1) (K.is_same keeper result.1) input err err) }
    ensures served { Serves K.Keeper keeper result.1 ⊥ (IsErrAnd result.0 IsWanting) }
    ensures live { LivesAfter K.Keeper result.1 (IsErrAnd result.0 IsWanting) result.0 }
{
    match files {
        [roster, base, ..] => rebuilt(alloc, roster.as_slice(), base.as_slice(), keeper),
        _ => (Err(JobRefusal::FileFailed), keeper),
    }
}
