//! Taking the lines of the input before a question: they are delivered to a desk that is kept in
//! memory alone.

ghost use Rattle.std.specs.Prelude.{◌≡◌, ◌++◌, ℕ, List, Contains, Err, IfErr};
ghost use Rattle.std.specs.Prelude.{IfOk, IsErrAnd, OnOk, string_bytes};
ghost use Rattle.std.specs.Io.KnownBytes.{Appends};
ghost use Rattle.desk.specs.Refusals.{IsWant};
ghost use Rattle.desk.specs.Serving.{KeepsSettings};
ghost use Rattle.desk.specs.declared.refusal.Refusal.TheVariants as refusals;
ghost use Rattle.desk_store.specs.Keeping.{HasFailed};
ghost use Rattle.desk_store.specs.Serves.{Serves};
ghost use Rattle.desk_store.specs.Sets.{SameSet};
ghost use Rattle.desk_commands.specs.Leaving.{AreSomeTaken, LeavesTaken, SaysTaking};
ghost use Rattle.desk_commands.specs.Telling.{AppendsFront};
ghost use Rattle.desk_commands.specs.Taking.{AreTaken, HadMemory, HeldWith};
ghost use Rattle.desk_commands.specs.Taking.{Takes, complaint, complaints};
ghost use Rattle.desk_commands.specs.Wanting.{IsWanting};
ghost use Rattle.desk_commands.specs.private.Outcomes.{EndsInput, EndsTaking};
ghost use Rattle.desk_args.specs.declared.task.Store.TheVariants as stores;

use crate::lines::read_lines;
use crate::refusal::JobRefusal;
use crate::telling::write_front;
use desk::{Ack, Desk, Keeper};
use desk_args::Store;
use std::alloc::{AllocError, Global};
use std::fmt::Write as _;
use std::io::{Read, Write};

/// Adds why a line is refused.
fn add_complaint(said: &mut String, number: usize, refusal: desk::Refusal) -> Result<(), AllocError>
    ensures { OnOk result
        (string_bytes said.new ≡ string_bytes said.old ++ complaint number refusal) }
{
    write!(said, "line {number}: {refusal}\n")
}

/// Adds why a line is refused, but fails where the desk could not take the line for want of memory
/// or storage: then nothing can be printed.
fn complain(said: &mut String, number: usize, refusal: desk::Refusal) -> Result<(), JobRefusal>
    ensures said { OnOk result
        (string_bytes said.new ≡ string_bytes said.old ++ complaint number refusal) }
    ensures memory { OnOk result (¬ IsWant refusal) }
    ensures err { IfErr result (EndsTaking (refusal ≡ refusals.Storage)) }
    ensures wanting { IfErr result IsWanting }
{
    match refusal {
        desk::Refusal::NoMemory | desk::Refusal::Storage => Err(JobRefusal::Desk(refusal)),
        _ => Ok(add_complaint(said, number, refusal)?),
    }
}

/// Why lines are refused, in their order, with the number of each from 1.
fn complaints_of(
    alloc: Global,
    answers: &[Result<Ack, desk::Refusal>],
) -> Result<String, JobRefusal>
    ensures said { IfOk result (λ s. string_bytes s ≡ complaints 1 answers.now) }
    ensures memory { OnOk result (HadMemory answers.now) }
    ensures err { IfErr result (EndsTaking (Contains answers.now (Err refusals.Storage))) }
    ensures wanting { IfErr result IsWanting }
{
    let mut said = String::new(alloc);
    for (index, answer) in answers.iter().enumerate() {
        if let Err(refusal) = answer {
            complain(&mut said, index + 1, *refusal)?;
        }
    }
    Ok(said)
}

/// Writes the whole text on `err`.
fn write_whole<E: Write>(said: &str, err: &mut E) -> Result<(), JobRefusal>
    ensures said { OnOk result (Appends (E.contents err.old) (E.contents err.new) said.now) }
    ensures front { AppendsFront (E.contents err.old) (E.contents err.new) said.now }
    ensures err { IfErr result (EndsTaking ⊥) }
{
    if write_front(said.as_bytes(), err).is_err() || err.flush().is_err() {
        return Err(JobRefusal::FileFailed);
    }
    Ok(())
}

/// Says the text on `err`, if it is not empty.
fn say<E: Write>(said: &str, err: &mut E) -> Result<(), JobRefusal>
    ensures said { OnOk result (Appends (E.contents err.old) (E.contents err.new) said.now) }
    ensures front { AppendsFront (E.contents err.old) (E.contents err.new) said.now }
    ensures err { IfErr result (EndsTaking ⊥) }
{
    if said.is_empty() {
        return Ok(());
    }
    write_whole(said, err)
}

/// Delivers the lines of the input as those of the roster's first relay in byte order, and says on
/// `err` which lines the desk does not take.
fn take_lines<K: Keeper, R: Read, E: Write>(
    alloc: Global,
    desk: &mut Desk<K>,
    input: &mut R,
    err: &mut E,
) -> Result<(), JobRefusal>
    ensures taken { OnOk result ((lines : List (List ℕ)) × (said : List ℕ)
        × AreTaken desk.old.roster.says (R.remaining input.old) lines said
        × Appends (E.contents err.old) (E.contents err.new) said
        × (K.is_up desk.new.keeper → SameSet (HeldWith desk.old.roster.says lines
        (K.holds desk.old.keeper)) (K.holds desk.new.keeper))) }
    ensures err { IfErr result
        (EndsTaking (HasFailed (K.failures desk.old.keeper) (K.failures desk.new.keeper))) }
    ensures said { IfErr result (λ _. SaysTaking stores.Memory desk.old.roster.says
        (R.remaining input.old) (E.contents err.old) (E.contents err.new)) }
    ensures left { K.is_up desk.new.keeper → AreSomeTaken desk.old.roster.says
        (R.remaining input.old) (K.holds desk.old.keeper) (K.holds desk.new.keeper) }
    ensures settings { KeepsSettings desk.old desk.new }
    ensures served { Serves K.Keeper desk.old.keeper desk.new.keeper ⊥ (IsErrAnd result IsWanting) }
{
    let lines = read_lines(alloc, desk.roster().first_relay().as_str(), input)?;
    let answers = desk.deliver_all(lines.as_slice())?;
    let said = complaints_of(alloc, answers.as_slice())?;
    say(said.as_str(), err)
}

/// The same for a desk that is kept in memory alone. A desk that a database keeps takes no line,
/// and nothing is said.
pub fn take_input<K: Keeper, R: Read, E: Write>(
    alloc: Global,
    store: &Store,
    desk: &mut Desk<K>,
    input: &mut R,
    err: &mut E,
) -> Result<(), JobRefusal>
    ensures taken { OnOk result ((lines : List (List ℕ)) × (said : List ℕ)
        × Takes store.now desk.old.roster.says (R.remaining input.old) lines said
        × Appends (E.contents err.old) (E.contents err.new) said
        × (K.is_up desk.new.keeper → SameSet (HeldWith desk.old.roster.says lines
        (K.holds desk.old.keeper)) (K.holds desk.new.keeper))) }
    ensures err { IfErr result (EndsInput store.now
        (HasFailed (K.failures desk.old.keeper) (K.failures desk.new.keeper))) }
    ensures said { IfErr result (λ _. SaysTaking store.now desk.old.roster.says
        (R.remaining input.old) (E.contents err.old) (E.contents err.new)) }
    ensures left { K.is_up desk.new.keeper → LeavesTaken store.now desk.old.roster.says
        (R.remaining input.old) (K.holds desk.old.keeper) (K.holds desk.new.keeper) }
    // For a desk that a database keeps, nothing is read.
    ensures unread { (store.now ≡ stores.Memory → ⊥) → input.new ≡ input.old }
    ensures settings { KeepsSettings desk.old desk.new }
    ensures served { Serves K.Keeper desk.old.keeper desk.new.keeper ⊥ (IsErrAnd result IsWanting) }
{
    match store {
        Store::Memory => take_lines(alloc, desk, input, err),
        Store::File(_) => Ok(()),
    }
}
