//! Doing a job. Its answer is made whole before any of it is written.

ghost use Rattle.std.specs.Prelude.{◌≡◌, ◌≢◌, ◌⊎◌, ℕ, List, [], IfErr, IfOk};
ghost use Rattle.std.specs.Prelude.{map, string_bytes, MatchResult, ⊤};
ghost use Rattle.std.specs.Io.Buffered.{writer_buffer, writer_contents};
ghost use Rattle.std.specs.Io.KnownBytes.{Appends, Keeps};
ghost use Rattle.sudo_policy.specs.Spelling.{Spells};
ghost use Rattle.sudo_decide.specs.Decision.{Decides};
ghost use Rattle.desk_store.specs.Serves.{Serves};
ghost use Rattle.desk_commands.specs.Answers.{CauseOfFile, CauseOfFiles, ChecksFile};
ghost use Rattle.desk_commands.specs.Answers.{DecidesByFile, EndsReading, HasAnswer};
ghost use Rattle.desk_commands.specs.Answers.{HasCause, IsAnswer, IsDecided, IsOnDesk};
ghost use Rattle.desk_commands.specs.Answers.{OfFile, OfFiles, ReadsInput, exit_of};
ghost use Rattle.desk_commands.specs.Comparing.{ComparesFiles, EndsComparing};
ghost use Rattle.desk_commands.specs.Kept.{kept_by};
ghost use Rattle.desk_commands.specs.Leaving.{BeganAnswer, KeepsAfterRefusal, TellsRefusal};
ghost use Rattle.desk_commands.specs.Telling.{AppendsFront, refusal_line};
ghost use Rattle.desk_commands.specs.Wanting.{TellsWant};
ghost use Rattle.desk_commands.specs.declared.refusal.JobRefusal.TheVariants.{FileFailed};
ghost use Rattle.desk_commands.specs.private.Outcomes.{IsLeft, IsOutcome, LivesAfter, WantsIn};

use crate::answer::Answer;
use crate::comparing::compare_files;
use crate::delivering::deliver_lines;
use crate::printing::print_host;
use crate::rebuilding::rebuild_desk;
use crate::refusal::JobRefusal;
use crate::reviewing::review_desk;
use crate::telling::{refuse, write_front};
use desk::Keeper;
use desk_args::{ExitStatus, Job};
use review::Scope;
use std::alloc::{AllocError, Global};
use std::io::{BufWriter, Read, Write};
use std::mem::forget;
use sudo_compiled::compile_owned;
use sudo_decide::{Decision, Invocation, decide};
use sudo_syntax::{Entry, Policy, print_policy, read_policy};
use sudo_words::NoMemory;

fn status_of(decision: Decision) -> ExitStatus
    ensures { result ≡ exit_of decision }
{
    match decision {
        Decision::Deny => ExitStatus::Denied,
        Decision::Allow => ExitStatus::Done,
        Decision::AllowNoPassword => ExitStatus::Done,
    }
}

fn decision_line(alloc: Global, decision: Decision) -> Result<Answer, AllocError>
    ensures { IfOk result (λ a. IsDecided decision a.status (string_bytes a.text)) }
{
    Ok(Answer {
        text: format!(in alloc; "{decision}\n")?,
        status: status_of(decision),
    })
}

/// The policy that a file spells. Nothing reads the file again, so its bytes are given back: what
/// is printed may have their room.
fn policy_of(alloc: Global, file: &mut Vec<u8>) -> Result<Policy, JobRefusal>
    ensures err { IfErr result (EndsReading file.old.items) }
    ensures found { IfOk result (λ p. Spells file.old.items p) }
{
    let policy = read_policy(alloc, file.as_slice())?;
    *file = Vec::new(alloc);
    Ok(policy)
}

/// The canonical text of the policy that a file spells. The policy is left in memory, since the
/// process ends with the job: to free each of its names takes a seventh of what the job takes.
fn check(alloc: Global, file: &mut Vec<u8>) -> Result<Answer, JobRefusal>
    ensures err { IfErr result (EndsReading file.old.items) }
    ensures found { IfOk result (λ a. ChecksFile file.old.items a.status (string_bytes a.text)) }
{
    let policy = policy_of(alloc, file)?;
    let text = print_policy(alloc, &policy)?;
    forget(policy);
    Ok(Answer {
        text,
        status: ExitStatus::Done,
    })
}

/// Whether an entry defines an alias.
fn is_definition(entry: &Entry) -> bool {
    !matches!(entry, Entry::Rule(_))
}

/// What the policy decides. The policy is asked once, so a policy without aliases is asked as it
/// is. A policy with aliases is compiled, which writes each alias out once, however often lists
/// lead to it; the policy's memory is given back on the way. What is left then stays in memory, as
/// in `check`.
fn decision_of(alloc: Global, policy: Policy, invocation: &Invocation) -> Result<Decision, NoMemory>
    ensures { IfOk result (λ d. Decides policy invocation.now d) }
{
    if policy.entries().iter().any(|entry| is_definition(entry)) {
        let compiled = compile_owned(alloc, policy)?;
        let decision = compiled.decide(invocation);
        forget(compiled);
        return Ok(decision);
    }
    let decision = decide(&policy, invocation);
    forget(policy);
    Ok(decision)
}

fn decided(alloc: Global, file: &mut Vec<u8>, invocation: &Invocation) -> Result<Answer, JobRefusal>
    ensures err { IfErr result (EndsReading file.old.items) }
    ensures found { IfOk result
        (λ a. DecidesByFile file.old.items invocation.now a.status (string_bytes a.text)) }
{
    let policy = policy_of(alloc, file)?;
    let decision = decision_of(alloc, policy, invocation)?;
    Ok(decision_line(alloc, decision)?)
}

fn check_first(alloc: Global, files: &mut [Vec<u8>]) -> Result<Answer, JobRefusal>
    ensures found { IfOk result (λ a. OfFile (map (λ f. f.items) files.old)
        (λ file. ChecksFile file a.status (string_bytes a.text))) }
    ensures cause { IfErr result (CauseOfFile (map (λ f. f.items) files.old) EndsReading) }
{
    match files {
        [file, ..] => check(alloc, file),
        _ => Err(JobRefusal::FileFailed),
    }
}

fn decide_by_first(
    alloc: Global,
    files: &mut [Vec<u8>],
    invocation: &Invocation,
) -> Result<Answer, JobRefusal>
    ensures found { IfOk result (λ a. OfFile (map (λ f. f.items) files.old)
        (λ file. DecidesByFile file invocation.now a.status (string_bytes a.text))) }
    ensures cause { IfErr result (CauseOfFile (map (λ f. f.items) files.old) EndsReading) }
{
    match files {
        [file, ..] => decided(alloc, file, invocation),
        _ => Err(JobRefusal::FileFailed),
    }
}

fn compared(alloc: Global, files: &[Vec<u8>], scope: &Scope) -> Result<Answer, JobRefusal>
    ensures found { IfOk result (λ r. OfFiles (map (λ f. f.items) files.now)
        (λ a b. ComparesFiles scope.now a b r.status (string_bytes r.text))) }
    ensures cause { IfErr result
        (CauseOfFiles (map (λ f. f.items) files.now) (EndsComparing scope.now)) }
{
    match files {
        [a, b, ..] => compare_files(alloc, a.as_slice(), b.as_slice(), scope),
        _ => Err(JobRefusal::FileFailed),
    }
}

/// What the job answers, or why it is refused, and the keeper. What else there is to say is said on
/// `err`.
fn answered<K: Keeper, R: Read, E: Write>(
    alloc: Global,
    job: &Job,
    files: &mut [Vec<u8>],
    keeper: K,
    input: &mut R,
    err: &mut E,
) -> (Result<Answer, JobRefusal>, K)
    ensures outcome { IsOutcome job.now (map (λ f. f.items) files.old) (kept_by K.Keeper keeper
        result.1) (R.remaining input.old) result.0 (E.contents err.old) (E.contents err.new) }
    ensures left { IfErr result.0 (λ _. IsLeft job.now (map (λ f. f.items) files.old)
        (kept_by K.Keeper keeper result.1) (K.is_same keeper result.1)
        (R.remaining input.old) (E.contents err.old) (E.contents err.new)) }
    ensures unasked { (IsOnDesk job.now → ⊥) → result.1 ≡ keeper }
    ensures unread { (ReadsInput job.now → ⊥) → input.new ≡ input.old }
    ensures served { Serves K.Keeper keeper result.1 ⊥ (WantsIn job.now result.0) }
    ensures live { IsOnDesk job.now
        → LivesAfter K.Keeper result.1 (WantsIn job.now result.0) result.0 }
{
    match job {
        Job::Check { .. } => (check_first(alloc, files), keeper),
        Job::Decide { invocation, .. } => (decide_by_first(alloc, files, invocation), keeper),
        Job::Beyond { scope, .. } => (compared(alloc, files, scope), keeper),
        Job::Deliver { relay, .. } => deliver_lines(alloc, files, keeper, relay.as_str(), input),
        Job::Print {
            places,
            host,
            after,
        } => print_host(alloc, files, keeper, places, host, *after, input, err),
        Job::Review { places, at } => { review_desk(alloc, files, keeper, places, *at, input, err) }
        Job::Rebuild { .. } => rebuild_desk(alloc, files, keeper),
        Job::Serve { .. } => (Err(JobRefusal::FileFailed), keeper),
    }
}

fn write_answer<W: Write, E: Write>(answer: &Answer, out: &mut W, err: &mut E) -> ExitStatus
    ensures status { result ≢ ExitStatus.Refused → result ≡ answer.now.status }
    ensures written { result ≢ ExitStatus.Refused
        → Appends (W.contents out.old) (W.contents out.new) (string_bytes answer.now.text) }
    ensures front { AppendsFront (W.contents out.old)
        (W.contents out.new) (string_bytes answer.now.text) }
    ensures quiet { result ≢ ExitStatus.Refused → E.contents err.new ≡ E.contents err.old }
    ensures told { AppendsFront (E.contents err.old)
        (E.contents err.new) (refusal_line FileFailed) }
{
    if write_front(answer.text.as_bytes(), out).is_err() {
        return refuse(JobRefusal::FileFailed, err).0;
    }
    answer.status
}

/// Writes the answer of a job on `out`, or says on `err` why there is none.
fn conclude<W: Write, E: Write>(
    answer: Result<Answer, JobRefusal>,
    out: &mut W,
    err: &mut E,
) -> ExitStatus
    ensures answered { IfOk answer (λ a. result ≢ ExitStatus.Refused → (result ≡ a.status)
        × Appends (W.contents out.old) (W.contents out.new) (string_bytes a.text)
        × (E.contents err.new ≡ E.contents err.old)) }
    ensures front { IfOk answer
        (λ a. AppendsFront (W.contents out.old) (W.contents out.new) (string_bytes a.text)) }
    ensures unanswered { IfErr answer
        (λ _. (result ≡ ExitStatus.Refused) × (W.contents out.new ≡ W.contents out.old)) }
    ensures told { MatchResult answer
        (λ _. AppendsFront (E.contents err.old) (E.contents err.new) (refusal_line FileFailed))
        (λ e. AppendsFront (E.contents err.old) (E.contents err.new) (refusal_line e)) }
{
    match answer {
        Ok(answer) => write_answer(&answer, out, err),
        Err(refusal) => refuse(refusal, err).0,
    }
}

/// Does the job over the bytes of the files that it names, in their order, what the keeper keeps,
/// and the input; and hands the keeper on. The answer goes to `out`. The reason why there is none
/// goes to `err`, as does what `print` and `review` say about lines of the input that they do not
/// take.
///
/// `files` has the bytes of each file that the job names; `check` and `decide` give theirs back
/// once they are read. A job whose STORE is left out or `-` wants a keeper in memory that is empty.
/// Where a file is missing, or where the input, `out` or what is to be said on `err` fails, the job
/// is refused. Nothing is written on `out` where the answer cannot be made.
pub fn run<K: Keeper, R: Read, W: Write, E: Write>(
    alloc: Global,
    job: &Job,
    files: &mut [Vec<u8>],
    keeper: K,
    input: &mut R,
    out: &mut W,
    err: &mut E,
) -> (ExitStatus, K)
    ensures answered { result.0 ≢ ExitStatus.Refused → (text : List ℕ) × (said : List ℕ)
        × IsAnswer job.now (map (λ f. f.items) files.old) (kept_by K.Keeper keeper result.1)
        (R.remaining input.old) result.0 text said × Appends (W.contents out.old)
        (W.contents out.new) text × Appends (E.contents err.old) (E.contents err.new) said
        × ((IsOnDesk job.now ⊎ K.is_up keeper) → K.is_clean result.1
        → TellsWant job.now text ⊎ K.is_up result.1) }
    // A job that is refused leaves `out` as it was, and there is a reason for the refusal; or the
    // job has an answer, and no more than a beginning of the answer was written.
    ensures refused { result.0 ≡ ExitStatus.Refused → ((W.contents out.new ≡ W.contents out.old)
        × HasCause job.now (map (λ f. f.items) files.old) (kept_by K.Keeper keeper result.1)
        (R.remaining input.old)) ⊎ BeganAnswer job.now (map (λ f. f.items) files.old)
        (kept_by K.Keeper keeper result.1) (R.remaining input.old)
        (W.contents out.old) (W.contents out.new) }
    // What a refused job leaves at the keeper, and what it says on `err`.
    ensures kept { result.0 ≡ ExitStatus.Refused → K.is_up result.1
        → KeepsAfterRefusal job.now (map (λ f. f.items) files.old) (kept_by K.Keeper keeper
        result.1) (K.is_same keeper result.1) (R.remaining input.old) ⊎ HasAnswer job.now
        (map (λ f. f.items) files.old) (kept_by K.Keeper keeper result.1) (R.remaining input.old) }
    ensures told { result.0 ≡ ExitStatus.Refused
        → TellsRefusal job.now (map (λ f. f.items) files.old)
        (kept_by K.Keeper keeper result.1) (K.is_up keeper × K.is_clean result.1)
        (R.remaining input.old) (E.contents err.old) (E.contents err.new) }
    // Only a job on a desk asks the keeper, and only one that takes lines reads the input.
    ensures unasked { (IsOnDesk job.now → ⊥) → result.1 ≡ keeper }
    ensures unread { (ReadsInput job.now → ⊥) → input.new ≡ input.old }
    ensures served { Serves K.Keeper keeper result.1 ⊥ ⊤ }
{
    let (answer, keeper) = answered(alloc, job, files, keeper, input, err);
    (conclude(answer, out, err), keeper)
}

/// The last step of a job, after `run`: writes out what the buffer of its output still holds.
///
/// A job whose output cannot be written out is refused, and `err` says so.
pub fn finish<W: Write + Drop, E: Write>(
    status: ExitStatus,
    out: &mut BufWriter<W>,
    err: &mut E,
) -> ExitStatus
    ensures status { result ≢ ExitStatus.Refused → result ≡ status }
    // Nothing of an answer is left in the buffer.
    ensures written_out { result ≢ ExitStatus.Refused → writer_buffer out.new ≡ [] }
    ensures kept { Keeps (writer_contents W.contents out.old) (writer_contents W.contents out.new) }
    ensures quiet { result ≢ ExitStatus.Refused → E.contents err.new ≡ E.contents err.old }
    ensures told { AppendsFront (E.contents err.old)
        (E.contents err.new) (refusal_line FileFailed) }
{
    if status == ExitStatus::Refused {
        return status;
    }
    if out.flush().is_err() {
        return refuse(JobRefusal::FileFailed, err).0;
    }
    status
}
