//! Delivering the lines of the input, with an answer to each.

ghost use Rattle.std.specs.Prelude.{◌≡◌, ◌⊎◌, ◌++◌, ◌∷◌, ℕ, List, Option, IfErr};
ghost use Rattle.std.specs.Prelude.{IfOk, OnOk, is_ok, map, string_bytes};
ghost use Rattle.std.specs.List.{list_all};
ghost use Rattle.desk.specs.declared.refusal.Refusal.TheVariants as refusal;
ghost use Rattle.desk_store.specs.Keeping.{HasFailed};
ghost use Rattle.desk_store.specs.Serves.{Serves};
ghost use Rattle.desk_commands.specs.Delivering.{DeliversLines, answer_line};
ghost use Rattle.desk_commands.specs.Delivering.{answer_lines, status_after};
ghost use Rattle.desk_commands.specs.Kept.{kept_by};
ghost use Rattle.desk_commands.specs.Leaving.{LeavesDelivered};
ghost use Rattle.desk_commands.specs.declared.refusal.JobRefusal.TheVariants as reasons;
ghost use Rattle.desk_commands.specs.private.Outcomes.{IsLeft, IsOutcome, LivesAfter, ShowsWantIn};
ghost use Rattle.desk_args.specs.declared.task.Job.TheVariants as jobs;
ghost use Rattle.desk_args.specs.declared.task.Places.{Places as Parts};

use crate::answer::Answer;
use crate::lines::read_lines;
use crate::opening::open_over;
use crate::refusal::JobRefusal;
use desk::{Ack, Desk, Keeper};
use desk_args::ExitStatus;
use std::alloc::{AllocError, AllocFailed, Global};
use std::fmt::Write as _;
use std::io::Read;

/// Adds the line of an answer.
fn add_line(text: &mut String, answer: &Result<Ack, desk::Refusal>) -> Result<(), AllocError>
    ensures { OnOk result
        (string_bytes text.new ≡ string_bytes text.old ++ answer_line answer.now) }
{
    match answer {
        Ok(_) => Ok(text.push_str("ack\n")?),
        Err(refusal) => Ok(write!(text, "{refusal}\n")?),
    }
}

/// The answers, one a line: `ack`, or the refusal's code and name.
#[tactic(auto, using(crate::proofs::AnswerLines::one_written, crate::proofs::AnswerLines::none_written, crate::proofs::AnswerLines::all_written))]
fn text_of(alloc: Global, answers: &[Result<Ack, desk::Refusal>]) -> Result<String, AllocError>
    ensures { IfOk result (λ s. string_bytes s ≡ answer_lines answers.now) }
{
    let mut text = String::new(alloc);
    for answer in answers {
        add_line(&mut text, answer)?;
    }
    Ok(text)
}

/// Whether each line is acknowledged.
fn are_acknowledged(answers: &[Result<Ack, desk::Refusal>]) -> bool
    ensures { result ≡ list_all is_ok answers.now }
{
    answers.iter().all(|answer| answer.is_ok())
}

/// How the job ends: done where each line is acknowledged.
fn status_of(answers: &[Result<Ack, desk::Refusal>]) -> ExitStatus
    ensures { result ≡ status_after answers.now }
{
    if are_acknowledged(answers) {
        ExitStatus::Done
    } else {
        ExitStatus::LinesRefused
    }
}

/// What the desk answers to each line of the input, in order, as the relay brings them.
///
/// A line that the desk refuses is answered by the refusal's code and name, and has no other effect
/// but on the status. The job is refused as a whole where the input cannot be read, and where
/// memory runs out.
pub fn deliver_to<K: Keeper, R: Read>(
    alloc: Global,
    desk: &mut Desk<K>,
    relay: &str,
    input: &mut R,
) -> Result<Answer, JobRefusal>
    ensures found { IfOk result
        (λ a. DeliversLines desk.old.roster.says relay.now (K.holds desk.old.keeper)
        (K.holds desk.new.keeper) (K.is_up desk.new.keeper) (HasFailed (K.failures desk.old.keeper)
        (K.failures desk.new.keeper)) (R.remaining input.old) a.status (string_bytes a.text)) }
    ensures err { IfErr result (λ e. (e ≡ reasons.FileFailed)
        ⊎ (e ≡ reasons.NoMemory) ⊎ (e ≡ reasons.Desk refusal.NoMemory)) }
    ensures left { K.is_up desk.new.keeper → IfErr result (λ _. LeavesDelivered desk.old.roster.says
        relay.now (R.remaining input.old) (K.holds desk.old.keeper) (K.holds desk.new.keeper)) }
    ensures roster { desk.new.roster ≡ desk.old.roster }
    ensures served { Serves K.Keeper desk.old.keeper desk.new.keeper ⊥ (ShowsWantIn result) }
{
    let lines = read_lines(alloc, relay, input)?;
    let answers = desk.deliver_all(lines.as_slice())?;
    Ok(Answer {
        text: text_of(alloc, answers.as_slice())?,
        status: status_of(answers.as_slice()),
    })
}

/// The same, over the desk that the files of the roster and the base make of what the keeper keeps.
/// The keeper is handed back.
fn deliver_over<K: Keeper, R: Read>(
    alloc: Global,
    roster: &[u8],
    base: &[u8],
    keeper: K,
    relay: &str,
    input: &mut R,
) -> (Result<Answer, JobRefusal>, K)
    ensures outcome { (places : Parts) (more : List (List ℕ)) (err : Option (List ℕ))
        → IsOutcome (jobs.Deliver places relay.now) (roster.now ∷ base.now ∷ more)
        (kept_by K.Keeper keeper result.1) (R.remaining input.old) result.0 err err }
    ensures left { (places : Parts) (more : List (List ℕ)) (err : Option (List ℕ)) → IfErr result.0
        (λ _. IsLeft (jobs.Deliver places relay.now) (roster.now ∷ base.now ∷ more) (kept_by
        K.Keeper keeper result.1) (K.is_same keeper result.1) (R.remaining input.old) err err) }
    ensures served { Serves K.Keeper keeper result.1 ⊥ (ShowsWantIn result.0) }
    ensures live { LivesAfter K.Keeper result.1 (ShowsWantIn result.0) result.0 }
{
    match open_over(alloc, roster, base, keeper) {
        Ok(mut desk) => {
            let answer = deliver_to(alloc, &mut desk, relay, input);
            (answer, desk.into_keeper())
        }
        Err((refusal, keeper)) => (Err(refusal), keeper),
    }
}

/// The same, over the job's files. The job is also refused where the files make no desk.
pub fn deliver_lines<K: Keeper, R: Read>(
    alloc: Global,
    files: &[Vec<u8>],
    keeper: K,
    relay: &str,
    input: &mut R,
) -> (Result<Answer, JobRefusal>, K)
    ensures outcome { (places : Parts) (err : Option (List ℕ))
        → IsOutcome (jobs.Deliver places relay.now) (map (λ f. f.items) files.now)
        (kept_by K.Keeper keeper result.1) (R.remaining input.old) result.0 err err }
    ensures left { (places : Parts) (err : Option (List ℕ)) → IfErr result.0
        (λ _. IsLeft (jobs.Deliver places relay.now) (map (λ f. f.items) files.now) (kept_by
        K.Keeper keeper result.1) (K.is_same keeper result.1) (R.remaining input.old) err err) }
    ensures served { Serves K.Keeper keeper result.1 ⊥ (ShowsWantIn result.0) }
    ensures live { LivesAfter K.Keeper result.1 (ShowsWantIn result.0) result.0 }
{
    match files {
        [roster, base, ..] => deliver_over(
            alloc,
            roster.as_slice(),
            base.as_slice(),
            keeper,
            relay,
            input,
        ),
        _ => (Err(JobRefusal::FileFailed), keeper),
    }
}
