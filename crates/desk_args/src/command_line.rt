//! What the command line says to do.

ghost use Rattle.std.specs.Prelude.{◌≡◌, ◌≢◌, IfOk, IfErr, MatchResult};
ghost use Rattle.std.specs.Prelude.{Some, [], ◌∷◌, codes, map, string_bytes};
ghost use Rattle.clap.specs.Words.{fault_of, found_of, rows_of, subcommand_rows_of};
ghost use Rattle.sudo_decide.specs.declared.invocation.Invocation.{Invocation as Run};
ghost use Rattle.sudo_decide.specs.declared.scope.Scope.{Scope as Fixed};
ghost use Rattle.desk_args.specs.CommandLine as line;
ghost use Rattle.desk_args.specs.CommandLine.{ArePlaces, HasBadScope, HasBadSync, HasBadValue};
ghost use Rattle.desk_args.specs.CommandLine.{HasAllValues, HaveSome, IsBadLine, IsCommandLine};
ghost use Rattle.desk_args.specs.CommandLine.{IsScopeOf, SaysBadly, SaysJob, SaysRun, desk_app};
ghost use Rattle.desk_args.specs.Faults.{IsUsage};
ghost use Rattle.desk_args.specs.private.Readings.{IsReading};
ghost use Rattle.desk_args.specs.declared.fault.JobFault.TheVariants.{BadWord, NoMemory};
ghost use Rattle.desk_args.specs.declared.task.Job.{Job as Task};
ghost use Rattle.desk_args.specs.declared.task.Places.{Places as Parts};

use crate::command::parsed;
use crate::fault::JobFault;
use crate::task::{Job, Places};
use crate::values::{
    address, address_if_given, args, count_if_given, moment, moment_if_given, store, sync_if_given,
    text, word, word_if_given,
};
use clap::ArgMatches;
use std::alloc::Global;
use sudo_decide::{Invocation, Scope};

fn invocation(alloc: Global, matches: &ArgMatches<'_>) -> Result<Invocation, JobFault>
    requires { HaveSome line.decide_args (rows_of (found_of matches.now)) }
    ensures found { IfOk result (λ run. SaysRun (rows_of (found_of matches.now)) run) }
    ensures only { (run : Run) → SaysRun (rows_of (found_of matches.now)) run
        → MatchResult result (λ r. r ≡ run) (λ e. e ≡ NoMemory) }
    ensures word { IfErr result (λ e. e ≡ BadWord → HasBadValue (rows_of (found_of matches.now))) }
    ensures usage { IfErr result (λ e. IsUsage e → ⊥) }
{
    let at = moment(matches, "AT")?;
    let user = word(alloc, matches, "USER")?;
    let host = word(alloc, matches, "HOST")?;
    let runas = word(alloc, matches, "RUNAS")?;
    let path = word(alloc, matches, "PATH")?;
    let args = args(alloc, matches, "ARGS")?;
    Ok(Invocation {
        user,
        host,
        runas,
        path,
        args,
        at,
    })
}

fn check(alloc: Global, matches: &ArgMatches<'_>) -> Result<Job, JobFault>
    requires { HaveSome line.check_args (rows_of (found_of matches.now)) }
    ensures found { IfOk result
        (λ j. SaysJob (Some (codes "check", rows_of (found_of matches.now))) j) }
    ensures only { (j : Task) → SaysJob (Some (codes "check", rows_of (found_of matches.now))) j
        → MatchResult result (λ k. k ≡ j) (λ e. e ≡ NoMemory) }
    ensures word { IfErr result
        (λ e. e ≡ BadWord → SaysBadly (Some (codes "check", rows_of (found_of matches.now)))) }
    ensures usage { IfErr result (λ e. IsUsage e → ⊥) }
{
    Ok(Job::Check {
        file: text(alloc, matches, "FILE")?,
    })
}

fn decide(alloc: Global, matches: &ArgMatches<'_>) -> Result<Job, JobFault>
    requires { HaveSome line.decide_args (rows_of (found_of matches.now)) }
    ensures found { IfOk result
        (λ j. SaysJob (Some (codes "decide", rows_of (found_of matches.now))) j) }
    ensures only { (j : Task) → SaysJob (Some (codes "decide", rows_of (found_of matches.now))) j
        → MatchResult result (λ k. k ≡ j) (λ e. e ≡ NoMemory) }
    ensures word { IfErr result
        (λ e. e ≡ BadWord → SaysBadly (Some (codes "decide", rows_of (found_of matches.now)))) }
    ensures usage { IfErr result (λ e. IsUsage e → ⊥) }
{
    let file = text(alloc, matches, "FILE")?;
    let invocation = invocation(alloc, matches)?;
    Ok(Job::Decide { file, invocation })
}

/// What the options of `beyond` fix.
fn scope_of(alloc: Global, matches: &ArgMatches<'_>) -> Result<Scope, JobFault>
    ensures found { IfOk result (IsScopeOf (rows_of (found_of matches.now))) }
    ensures only { (s : Fixed) → IsScopeOf (rows_of (found_of matches.now)) s
        → MatchResult result (λ r. r ≡ s) (λ e. e ≡ NoMemory) }
    ensures word { IfErr result (λ e. e ≡ BadWord → HasBadScope (rows_of (found_of matches.now))) }
    ensures usage { IfErr result (λ e. IsUsage e → ⊥) }
{
    let user = word_if_given(alloc, matches, "USER")?;
    let host = word_if_given(alloc, matches, "HOST")?;
    let runas = word_if_given(alloc, matches, "RUNAS")?;
    Ok(Scope { user, host, runas })
}

fn beyond(alloc: Global, matches: &ArgMatches<'_>) -> Result<Job, JobFault>
    requires { HaveSome line.beyond_args (rows_of (found_of matches.now)) }
    ensures found { IfOk result
        (λ j. SaysJob (Some (codes "beyond", rows_of (found_of matches.now))) j) }
    ensures only { (j : Task) → SaysJob (Some (codes "beyond", rows_of (found_of matches.now))) j
        → MatchResult result (λ k. k ≡ j) (λ e. e ≡ NoMemory) }
    ensures word { IfErr result
        (λ e. e ≡ BadWord → SaysBadly (Some (codes "beyond", rows_of (found_of matches.now)))) }
    ensures usage { IfErr result (λ e. IsUsage e → ⊥) }
{
    let a = text(alloc, matches, "A")?;
    let b = text(alloc, matches, "B")?;
    let scope = scope_of(alloc, matches)?;
    Ok(Job::Beyond { a, b, scope })
}

/// The values of `ROSTER`, `BASE` and `STORE`, and of the option `--sync`.
fn places(alloc: Global, matches: &ArgMatches<'_>) -> Result<Places, JobFault>
    requires { HaveSome line.place_args (rows_of (found_of matches.now)) }
    ensures found { IfOk result (λ p. ArePlaces (rows_of (found_of matches.now)) p) }
    ensures only { (p : Parts) → ArePlaces (rows_of (found_of matches.now)) p
        → MatchResult result (λ q. q ≡ p) (λ e. e ≡ NoMemory) }
    ensures word { IfErr result
        (λ e. e ≡ BadWord → HasBadSync (codes "SYNC") (rows_of (found_of matches.now))) }
    ensures usage { IfErr result (λ e. IsUsage e → ⊥) }
{
    let sync = sync_if_given(matches, "SYNC")?;
    let roster = text(alloc, matches, "ROSTER")?;
    let base = text(alloc, matches, "BASE")?;
    let store = store(alloc, matches, "STORE")?;
    Ok(Places {
        roster,
        base,
        store,
        sync,
    })
}

fn deliver(alloc: Global, matches: &ArgMatches<'_>) -> Result<Job, JobFault>
    requires { HaveSome (line.desk_args (codes "RELAY")) (rows_of (found_of matches.now)) }
    ensures found { IfOk result
        (λ j. SaysJob (Some (codes "deliver", rows_of (found_of matches.now))) j) }
    ensures only { (j : Task) → SaysJob (Some (codes "deliver", rows_of (found_of matches.now))) j
        → MatchResult result (λ k. k ≡ j) (λ e. e ≡ NoMemory) }
    ensures word { IfErr result
        (λ e. e ≡ BadWord → SaysBadly (Some (codes "deliver", rows_of (found_of matches.now)))) }
    ensures usage { IfErr result (λ e. IsUsage e → ⊥) }
{
    let relay = text(alloc, matches, "RELAY")?;
    let places = places(alloc, matches)?;
    Ok(Job::Deliver { places, relay })
}

fn print(alloc: Global, matches: &ArgMatches<'_>) -> Result<Job, JobFault>
    requires { HaveSome (line.desk_args (codes "HOST")) (rows_of (found_of matches.now)) }
    ensures found { IfOk result
        (λ j. SaysJob (Some (codes "print", rows_of (found_of matches.now))) j) }
    ensures only { (j : Task) → SaysJob (Some (codes "print", rows_of (found_of matches.now))) j
        → MatchResult result (λ k. k ≡ j) (λ e. e ≡ NoMemory) }
    ensures word { IfErr result
        (λ e. e ≡ BadWord → SaysBadly (Some (codes "print", rows_of (found_of matches.now)))) }
    ensures usage { IfErr result (λ e. IsUsage e → ⊥) }
{
    let after = moment_if_given(matches, "AFTER")?;
    let host = word(alloc, matches, "HOST")?;
    let places = places(alloc, matches)?;
    Ok(Job::Print {
        places,
        host,
        after,
    })
}

fn review(alloc: Global, matches: &ArgMatches<'_>) -> Result<Job, JobFault>
    requires { HaveSome (line.desk_args (codes "AT")) (rows_of (found_of matches.now)) }
    ensures found { IfOk result
        (λ j. SaysJob (Some (codes "review", rows_of (found_of matches.now))) j) }
    ensures only { (j : Task) → SaysJob (Some (codes "review", rows_of (found_of matches.now))) j
        → MatchResult result (λ k. k ≡ j) (λ e. e ≡ NoMemory) }
    ensures word { IfErr result
        (λ e. e ≡ BadWord → SaysBadly (Some (codes "review", rows_of (found_of matches.now)))) }
    ensures usage { IfErr result (λ e. IsUsage e → ⊥) }
{
    let at = moment(matches, "AT")?;
    let places = places(alloc, matches)?;
    Ok(Job::Review { places, at })
}

fn rebuild(alloc: Global, matches: &ArgMatches<'_>) -> Result<Job, JobFault>
    requires { HaveSome line.place_args (rows_of (found_of matches.now)) }
    ensures found { IfOk result
        (λ j. SaysJob (Some (codes "rebuild", rows_of (found_of matches.now))) j) }
    ensures only { (j : Task) → SaysJob (Some (codes "rebuild", rows_of (found_of matches.now))) j
        → MatchResult result (λ k. k ≡ j) (λ e. e ≡ NoMemory) }
    ensures word { IfErr result
        (λ e. e ≡ BadWord → SaysBadly (Some (codes "rebuild", rows_of (found_of matches.now)))) }
    ensures usage { IfErr result (λ e. IsUsage e → ⊥) }
{
    Ok(Job::Rebuild {
        places: places(alloc, matches)?,
    })
}

fn serve(alloc: Global, matches: &ArgMatches<'_>) -> Result<Job, JobFault>
    requires { HaveSome (line.desk_args (codes "ADDR")) (rows_of (found_of matches.now)) }
    ensures found { IfOk result
        (λ j. SaysJob (Some (codes "serve", rows_of (found_of matches.now))) j) }
    ensures only { (j : Task) → SaysJob (Some (codes "serve", rows_of (found_of matches.now))) j
        → MatchResult result (λ k. k ≡ j) (λ e. e ≡ NoMemory) }
    ensures word { IfErr result
        (λ e. e ≡ BadWord → SaysBadly (Some (codes "serve", rows_of (found_of matches.now)))) }
    ensures usage { IfErr result (λ e. IsUsage e → ⊥) }
{
    let requests = count_if_given(matches, "REQUESTS")?;
    let questions = address_if_given(alloc, matches, "QUESTIONS")?;
    let addr = address(alloc, matches, "ADDR")?;
    let places = places(alloc, matches)?;
    Ok(Job::Serve {
        places,
        addr,
        questions,
        requests,
    })
}

fn by_name(alloc: Global, name: &str, matches: &ArgMatches<'_>) -> Result<Job, JobFault>
    requires { HasAllValues (Some (name.now, rows_of (found_of matches.now))) }
    ensures { IsReading (Some (name.now, rows_of (found_of matches.now))) result }
{
    if name == "check" {
        check(alloc, matches)
    } else if name == "decide" {
        decide(alloc, matches)
    } else if name == "beyond" {
        beyond(alloc, matches)
    } else if name == "deliver" {
        deliver(alloc, matches)
    } else if name == "print" {
        print(alloc, matches)
    } else if name == "review" {
        review(alloc, matches)
    } else if name == "rebuild" {
        rebuild(alloc, matches)
    } else {
        serve(alloc, matches)
    }
}

fn named(alloc: Global, matches: &ArgMatches<'_>) -> Result<Job, JobFault>
    requires { HasAllValues (subcommand_rows_of matches.now) }
    ensures { IsReading (subcommand_rows_of matches.now) result }
{
    match matches.subcommand() {
        Some((name, inner)) => by_name(alloc, name, inner),
        None => unreachable!(),
    }
}

/// What the words say to do, the program's own name first, by clap's rules for the program's
/// commands.
///
/// `BadWord` comes where a value does not have the form that its place asks for, and `Usage` where
/// the words are not a command, or ask for help.
pub fn job(alloc: Global, words: Vec<String>) -> Result<Job, JobFault>
    ensures found { IfOk result (λ j. IsCommandLine (map string_bytes words.items) j) }
    ensures only { (j : Task) → IsCommandLine (map string_bytes words.items) j
        → MatchResult result (λ k. k ≡ j) (λ e. e ≡ NoMemory) }
    ensures word { IfErr result (λ e. e ≡ BadWord → IsBadLine (map string_bytes words.items)) }
    ensures usage { IfErr result
        (λ e. IsUsage e → fault_of desk_app (map string_bytes words.items) ≢ []) }
{
    let matches = parsed(alloc, &words)?;
    named(alloc, &matches)
}
