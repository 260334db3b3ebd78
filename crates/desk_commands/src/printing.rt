//! Printing a host's file.

ghost use Rattle.std.specs.Prelude.{◌≡◌, ◌⊎◌, ◌↔◌, ◌≤◌, ◌∷◌, ℕ, List, false, length};
ghost use Rattle.std.specs.Prelude.{map, Err, IfErr, IfOk, IsErrAnd, string_bytes};
ghost use Rattle.std.specs.Io.KnownBytes.{Appends};
ghost use Rattle.messages.specs.declared.message.Message.{Message};
ghost use Rattle.roster.specs.Rules.{is_among};
ghost use Rattle.grants.specs.HostFaults.{most_lines};
ghost use Rattle.desk_store.specs.Keeping.{HasFailed};
ghost use Rattle.desk_store.specs.Serves.{Serves};
ghost use Rattle.desk_store.specs.Sets.{Lists};
ghost use Rattle.outcomes.specs.HostFile.{AreLines, Line};
ghost use Rattle.desk.specs.Refusals.{IsWant};
ghost use Rattle.desk.specs.Serving.{OnlyAsks};
ghost use Rattle.desk.specs.declared.refusal.Refusal.TheVariants as refusal;
ghost use Rattle.desk_commands.specs.Kept.{kept_by};
ghost use Rattle.desk_commands.specs.Leaving.{LeavesTaken, SaysTaking};
ghost use Rattle.desk_commands.specs.Printing.{HasRights, IsPrinted, PrintsHost, lines_printed};
ghost use Rattle.desk_commands.specs.Wanting.{IsWanting};
ghost use Rattle.desk_commands.specs.private.Outcomes.{EndsFile, IsLeft, IsOutcome, LivesAfter};
ghost use Rattle.desk_args.specs.declared.task.Job.TheVariants as jobs;
ghost use Rattle.desk_args.specs.declared.task.Store.TheVariants as stores;

use crate::answer::Answer;
use crate::opening::open_over;
use crate::refusal::JobRefusal;
use crate::taking::take_input;
use desk::{Desk, Keeper};
use desk_args::{ExitStatus, Places, Store};
use std::alloc::Global;
use std::io::{Read, Write};
use sudo_words::{HostName, Moment};

/// The host's file, the whole of it, or without the lines that end before a moment.
fn file_of<K: Keeper>(
    desk: &mut Desk<K>,
    host: &HostName,
    after: Option<Moment>,
) -> Result<String, desk::Refusal>
    ensures printed { (set : List Message) → K.is_up desk.new.keeper
        → Lists (K.holds desk.old.keeper) set → IfOk result
        (λ s. IsPrinted desk.old.roster.says desk.old.base set host.now after (string_bytes s)) }
    ensures rights { (set : List Message) → K.is_up desk.new.keeper
        → Lists (K.holds desk.old.keeper) set → IfOk result
        (λ s. HasRights desk.old.roster.says desk.old.base set host.now after (string_bytes s)) }
    ensures asks { OnlyAsks K.Keeper desk.old desk.new result }
    ensures unknown { (result ≡ Err refusal.UnknownHost)
        ↔ (is_among desk.old.roster.says.hosts host.now ≡ false) }
    ensures few { (set : List Message) (lines : List Line) → K.is_up desk.new.keeper
        → Lists (K.holds desk.old.keeper) set → AreLines desk.old.roster.says set host.now lines
        → length (lines_printed after lines) ≤ most_lines
        → IfErr result (λ e. (e ≡ refusal.UnknownHost) ⊎ IsWant e) }
    ensures err { IfErr result
        (λ e. (e ≡ refusal.UnknownHost) ⊎ (e ≡ refusal.TooManyRules) ⊎ IsWant e) }
{
    match after {
        Some(moment) => desk.host_file_after(host, moment),
        None => desk.host_file(host),
    }
}

/// The host's file of an open desk, once it has taken the lines of the input that it takes.
fn print_of<K: Keeper, R: Read, E: Write>(
    alloc: Global,
    desk: &mut Desk<K>,
    store: &Store,
    host: &HostName,
    after: Option<Moment>,
    input: &mut R,
    err: &mut E,
) -> Result<Answer, JobRefusal>
    ensures found { IfOk result (λ a. (said : List ℕ) × PrintsHost desk.old.roster.says
        desk.old.base store.now host.now after (K.holds desk.old.keeper) (K.holds desk.new.keeper)
        (K.is_up desk.new.keeper × K.is_desk desk.new.keeper) (R.remaining input.old) a.status
        (string_bytes a.text) said × Appends (E.contents err.old) (E.contents err.new) said) }
    ensures cause { IfErr result (EndsFile desk.old.roster.says store.now host.now after
        (K.holds desk.old.keeper) (K.is_up desk.new.keeper) (HasFailed (K.failures desk.old.keeper)
        (K.failures desk.new.keeper)) (R.remaining input.old)) }
    ensures said { IfErr result (λ _. SaysTaking store.now desk.old.roster.says
        (R.remaining input.old) (E.contents err.old) (E.contents err.new)) }
    ensures left { K.is_up desk.new.keeper → K.is_desk desk.new.keeper
        → LeavesTaken store.now desk.old.roster.says (R.remaining input.old)
        (K.holds desk.old.keeper) (K.holds desk.new.keeper) }
    ensures unread { (store.now ≡ stores.Memory → ⊥) → input.new ≡ input.old }
    ensures roster { desk.new.roster ≡ desk.old.roster }
    ensures served { Serves K.Keeper desk.old.keeper desk.new.keeper ⊥ (IsErrAnd result IsWanting) }
{
    take_input(alloc, store, desk, input, err)?;
    match file_of(desk, host, after) {
        Ok(text) => Ok(Answer {
            text,
            status: ExitStatus::Done,
        }),
        Err(refusal) => Err(JobRefusal::Desk(refusal)),
    }
}

/// The host's file of the desk that the files of the roster and the base make of what the keeper
/// keeps. The keeper is handed back.
fn print_over<K: Keeper, R: Read, E: Write>(
    alloc: Global,
    roster: &[u8],
    base: &[u8],
    keeper: K,
    places: &Places,
    host: &HostName,
    after: Option<Moment>,
    input: &mut R,
    err: &mut E,
) -> (Result<Answer, JobRefusal>, K)
    ensures outcome { (more : List (List ℕ)) → IsOutcome (jobs.Print places.now host.now after)
        (roster.now ∷ base.now ∷ more) (kept_by K.Keeper keeper result.1)
        (R.remaining input.old) result.0 (E.contents err.old) (E.contents err.new) }
    ensures left { (more : List (List ℕ))
        → IfErr result.0 (λ _. IsLeft (jobs.Print places.now host.now after) (roster.now
        ∷ base.now ∷ more) (kept_by K.Keeper keeper result.1) (K.is_same keeper result.1)
        (R.remaining input.old) (E.contents err.old) (E.contents err.new)) }
    ensures unread { (places.now.store ≡ stores.Memory → ⊥) → input.new ≡ input.old }
    ensures served { Serves K.Keeper keeper result.1 ⊥ (IsErrAnd result.0 IsWanting) }
    ensures live { LivesAfter K.Keeper result.1 (IsErrAnd result.0 IsWanting) result.0 }
{
    match open_over(alloc, roster, base, keeper) {
        Ok(mut desk) => {
            let answer = print_of(alloc, &mut desk, &places.store, host, after, input, err);
            (answer, desk.into_keeper())
        }
        Err((refusal, keeper)) => (Err(refusal), keeper),
    }
}

/// The same, over the job's files.
///
/// A line that the desk does not take is named on `err`, as `line 3: M2 NotCanonical`, and has no
/// other effect. The job is refused where the files make no desk, where the input cannot be read or
/// `err` cannot be written, where the file would have too many lines, and where memory runs out.
pub fn print_host<K: Keeper, R: Read, E: Write>(
    alloc: Global,
    files: &[Vec<u8>],
    keeper: K,
    places: &Places,
    host: &HostName,
    after: Option<Moment>,
    input: &mut R,
    err: &mut E,
) -> (Result<Answer, JobRefusal>, K)
    ensures outcome { IsOutcome (jobs.Print places.now host.now after)
        (map (λ f. f.items) files.now) (kept_by K.Keeper keeper result.1)
        (R.remaining input.old) result.0 (E.contents err.old) (E.contents err.new) }
    ensures left { IfErr result.0 (λ _. IsLeft (jobs.Print places.now host.now after)
        (map (λ f. f.items) files.now) (kept_by K.Keeper keeper result.1) (K.is_same keeper
        result.1) (R.remaining input.old) (E.contents err.old) (E.contents err.new)) }
    ensures unread { (places.now.store ≡ stores.Memory → ⊥) → input.new ≡ input.old }
    ensures served { Serves K.Keeper keeper result.1 ⊥ (IsErrAnd result.0 IsWanting) }
    ensures live { LivesAfter K.Keeper result.1 (IsErrAnd result.0 IsWanting) result.0 }
{
    match files {
        [roster, base, ..] => print_over(
            alloc,
            roster.as_slice(),
            base.as_slice(),
            keeper,
            places,
            host,
            after,
            input,
            err,
        ),
        _ => (Err(JobRefusal::FileFailed), keeper),
    }
}
