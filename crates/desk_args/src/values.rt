//! The values of a command's arguments.

ghost use Rattle.std.specs.Prelude.{◌≡◌, ◌⊎◌, ◌<◌, ◌≤◌, ℕ, List, IfOk, IfErr, IfSome, MatchResult};
ghost use Rattle.std.specs.Prelude.{Option, None, Some, map, length, true, false, if◌then◌else◌};
ghost use Rattle.std.specs.List.{list_all};
ghost use Rattle.std.specs.Str.Parse.{digits_value};
ghost use Rattle.clap.specs.Words.{found_of, rows_of};
ghost use Rattle.sudo_words.specs.Word.{is_arg};
ghost use Rattle.desk_args.specs.CommandLine.{HasAddress, HasAddressIfGiven, HasBadAddress};
ghost use Rattle.desk_args.specs.CommandLine.{HasBadMoment, HasBadSync, HasBadWord, HasBadWords};
ghost use Rattle.desk_args.specs.CommandLine.{HasCount, HasMoment, HasMomentIfGiven, HasOption};
ghost use Rattle.desk_args.specs.CommandLine.{HasSome, HasStore};
ghost use Rattle.desk_args.specs.CommandLine.{HasSync, HasValue, HasWord, HasWords, SaysSync};
ghost use Rattle.desk_args.specs.CommandLine.{is_count, is_digits, given_values};
ghost use Rattle.desk_args.specs.Faults.{IsUsage};
ghost use Rattle.desk_args.specs.declared.fault.JobFault.TheVariants.{BadWord, NoMemory};
ghost use Rattle.desk_args.specs.declared.task.Address.{Address as Listened};
ghost use Rattle.desk_args.specs.declared.task.Store.{Store as Place};
ghost use Rattle.desk_args.specs.declared.task.Sync.{Sync as Often};

use crate::address::read_address;
use crate::fault::JobFault;
use crate::task::{Address, Store, Sync};
use crate::text::Text;
use clap::ArgMatches;
use std::alloc::{AllocError, Global};
use sudo_words::{Arg, Form, Items, Moment, Word, decimal_of};

/// The most digits of a count.
const MOST_DIGITS: usize = 7;

/// The greatest count.
const MOST_COUNT: u64 = 1_000_000;

/// The most arguments that a run has.
const MOST_ARGS: usize = 64;

/// The value of an argument that has one.
#[tactic(auto, using(crate::proofs::Rows::first_rows))]
fn value<'a>(matches: &ArgMatches<'a>, id: &str) -> &'a str
    requires { HasSome id.now (rows_of (found_of matches.now)) }
    ensures { HasValue id.now (rows_of (found_of matches.now)) result.now }
{
    match matches.get_str(id) {
        Some(text) => text,
        None => unreachable!(),
    }
}

/// The value of an argument that has one, whatever its form.
pub fn text(alloc: Global, matches: &ArgMatches<'_>, id: &str) -> Result<Text, AllocError>
    requires { HasSome id.now (rows_of (found_of matches.now)) }
    ensures { IfOk result (λ t. HasValue id.now (rows_of (found_of matches.now)) t) }
{
    Text::copy(alloc, value(matches, id))
}

/// The value of an argument that has one, a word of the form.
pub fn word<F: Form>(alloc: Global, matches: &ArgMatches<'_>, id: &str) -> Result<Word<F>, JobFault>
    requires { HasSome id.now (rows_of (found_of matches.now)) }
    ensures found { IfOk result (λ w. HasWord F.has id.now (rows_of (found_of matches.now)) w) }
    ensures only { (w : List ℕ) → HasWord F.has id.now (rows_of (found_of matches.now)) w
        → MatchResult result (λ r. r ≡ w) (λ e. e ≡ NoMemory) }
    ensures word { IfErr result
        (λ e. e ≡ BadWord → HasBadWord F.has id.now (rows_of (found_of matches.now))) }
    ensures usage { IfErr result (λ e. IsUsage e → ⊥) }
{
    Ok(Word::read(alloc, value(matches, id))?)
}

/// The value of an option, a word of the form, or none where it is left out.
pub fn word_if_given<F: Form>(
    alloc: Global,
    matches: &ArgMatches<'_>,
    id: &str,
) -> Result<Option<Word<F>>, JobFault>
    ensures found { IfOk result (HasOption F.has id.now (rows_of (found_of matches.now))) }
    ensures only { (w : Option (List ℕ)) → HasOption F.has id.now (rows_of (found_of matches.now)) w
        → MatchResult result (λ r. r ≡ w) (λ e. e ≡ NoMemory) }
    ensures word { IfErr result
        (λ e. e ≡ BadWord → HasBadWord F.has id.now (rows_of (found_of matches.now))) }
    ensures usage { IfErr result (λ e. IsUsage e → ⊥) }
{
    match matches.get_str(id) {
        Some(text) => Ok(Some(Word::read(alloc, text)?)),
        None => Ok(None),
    }
}

/// The number that 1 to 7 digits write.
fn number_of(value: &[u8]) -> Option<u64>
    ensures { result ≡ (if is_digits value.now then Some (digits_value 10 value.now) else None) }
{
    if value.len() > MOST_DIGITS {
        return None;
    }
    decimal_of(value)
}

/// The number that 1 to 7 digits write, from 1 to 1,000,000.
fn count_of(value: &[u8]) -> Option<u64>
    ensures found { IfSome result
        (λ n. (is_count value.now ≡ true) × (n ≡ digits_value 10 value.now)) }
    ensures only { is_count value.now ≡ true → result ≡ Some (digits_value 10 value.now) }
{
    let n = number_of(value)?;
    if n == 0 || n > MOST_COUNT {
        return None;
    }
    Some(n)
}

/// The value of an option, a number from 1 to 1,000,000, or none where it is left out.
pub fn count_if_given(matches: &ArgMatches<'_>, id: &str) -> Result<Option<u64>, JobFault>
    ensures found { IfOk result (HasCount id.now (rows_of (found_of matches.now))) }
    ensures only { (n : Option ℕ) → HasCount id.now (rows_of (found_of matches.now)) n
        → MatchResult result (λ r. r ≡ n) (λ e. ⊥) }
    ensures word { IfErr result
        (λ e. (e ≡ BadWord) × HasBadWord is_count id.now (rows_of (found_of matches.now))) }
{
    match matches.get_str(id) {
        Some(text) => match count_of(text.as_bytes()) {
            Some(n) => Ok(Some(n)),
            None => Err(JobFault::BadWord),
        },
        None => Ok(None),
    }
}

/// Where messages are kept, by the value of an argument that has one: `-` means in memory, and any
/// other value is the path of a database.
pub fn store(alloc: Global, matches: &ArgMatches<'_>, id: &str) -> Result<Store, AllocError>
    requires { HasSome id.now (rows_of (found_of matches.now)) }
    ensures found { IfOk result (HasStore id.now (rows_of (found_of matches.now))) }
    ensures only { (s : Place) → HasStore id.now (rows_of (found_of matches.now)) s
        → IfOk result (λ r. r ≡ s) }
{
    let text = value(matches, id);
    if text == "-" {
        Ok(Store::Memory)
    } else {
        Ok(Store::File(Text::copy(alloc, text)?))
    }
}

/// How often a commit syncs, as the text says it.
fn sync_of(text: &str) -> Option<Sync>
    ensures found { IfSome result (SaysSync (Some text.now)) }
    ensures only { (s : Often) → SaysSync (Some text.now) s → result ≡ Some s }
{
    match text {
        "once" => Some(Sync::Once),
        "twice" => Some(Sync::Twice),
        _ => None,
    }
}

/// How often a commit syncs, by the value of an option: once where it is left out.
pub fn sync_if_given(matches: &ArgMatches<'_>, id: &str) -> Result<Sync, JobFault>
    ensures found { IfOk result (HasSync id.now (rows_of (found_of matches.now))) }
    ensures only { (s : Often) → HasSync id.now (rows_of (found_of matches.now)) s
        → MatchResult result (λ r. r ≡ s) (λ e. ⊥) }
    ensures word { IfErr result
        (λ e. (e ≡ BadWord) × HasBadSync id.now (rows_of (found_of matches.now))) }
{
    match matches.get_str(id) {
        Some(text) => match sync_of(text) {
            Some(sync) => Ok(sync),
            None => Err(JobFault::BadWord),
        },
        None => Ok(Sync::Once),
    }
}

/// Where to listen, by the value of an argument that has one: a host and a port, or `unix:` and the
/// path of a socket.
pub fn address(alloc: Global, matches: &ArgMatches<'_>, id: &str) -> Result<Address, JobFault>
    requires { HasSome id.now (rows_of (found_of matches.now)) }
    ensures found { IfOk result (HasAddress id.now (rows_of (found_of matches.now))) }
    ensures only { (a : Listened) → HasAddress id.now (rows_of (found_of matches.now)) a
        → MatchResult result (λ r. r ≡ a) (λ e. e ≡ NoMemory) }
    ensures word { IfErr result
        (λ e. e ≡ BadWord → HasBadAddress id.now (rows_of (found_of matches.now))) }
    ensures usage { IfErr result (λ e. IsUsage e → ⊥) }
{
    read_address(alloc, value(matches, id))
}

/// Where to listen as well, by the value of an option, or none where it is left out.
pub fn address_if_given(
    alloc: Global,
    matches: &ArgMatches<'_>,
    id: &str,
) -> Result<Option<Address>, JobFault>
    ensures found { IfOk result (HasAddressIfGiven id.now (rows_of (found_of matches.now))) }
    ensures only { (a : Option Listened) → HasAddressIfGiven id.now
        (rows_of (found_of matches.now)) a → MatchResult result (λ r. r ≡ a) (λ e. e ≡ NoMemory) }
    ensures word { IfErr result
        (λ e. e ≡ BadWord → HasBadAddress id.now (rows_of (found_of matches.now))) }
    ensures usage { IfErr result (λ e. IsUsage e → ⊥) }
{
    match matches.get_str(id) {
        Some(text) => match read_address(alloc, text) {
            Ok(addr) => Ok(Some(addr)),
            Err(fault) => Err(fault),
        },
        None => Ok(None),
    }
}

/// The value of an argument that has one, a moment's canonical text.
pub fn moment(matches: &ArgMatches<'_>, id: &str) -> Result<Moment, JobFault>
    requires { HasSome id.now (rows_of (found_of matches.now)) }
    ensures found { IfOk result (λ m. HasMoment id.now (rows_of (found_of matches.now)) m) }
    ensures only { (m : ℕ) → HasMoment id.now (rows_of (found_of matches.now)) m
        → MatchResult result (λ r. r ≡ m) (λ e. ⊥) }
    ensures word { IfErr result
        (λ e. (e ≡ BadWord) × HasBadMoment id.now (rows_of (found_of matches.now))) }
{
    match Moment::read_stamp(value(matches, id)) {
        Some(moment) => Ok(moment),
        None => Err(JobFault::BadWord),
    }
}

/// The value of an option, a moment's canonical text, or none where it is left out.
pub fn moment_if_given(matches: &ArgMatches<'_>, id: &str) -> Result<Option<Moment>, JobFault>
    ensures found { IfOk result (HasMomentIfGiven id.now (rows_of (found_of matches.now))) }
    ensures only { (m : Option ℕ) → HasMomentIfGiven id.now (rows_of (found_of matches.now)) m
        → MatchResult result (λ r. r ≡ m) (λ e. ⊥) }
    ensures word { IfErr result
        (λ e. (e ≡ BadWord) × HasBadMoment id.now (rows_of (found_of matches.now))) }
{
    match matches.get_str(id) {
        Some(text) => match Moment::read_stamp(text) {
            Some(moment) => Ok(Some(moment)),
            None => Err(JobFault::BadWord),
        },
        None => Ok(None),
    }
}

/// Each text, read as an argument.
fn all_args(alloc: Global, texts: &[&str]) -> Result<Items<Arg>, JobFault>
    ensures found { IfOk result
        (λ v. (v ≡ map (λ t. t.now) texts.now) × (list_all is_arg v ≡ true)) }
    ensures word { IfErr result
        (λ e. e ≡ BadWord → list_all is_arg (map (λ t. t.now) texts.now) ≡ false) }
    ensures usage { IfErr result (λ e. IsUsage e → ⊥) }
{
    let mut args = Vec::new(alloc);
    for text in texts {
        args.push(Arg::read(alloc, text)?)?;
    }
    Ok(Items::new(args))
}

/// The values of an argument that may be left out, at most 64 of them.
#[tactic(auto, using(crate::proofs::Rows::some_values, crate::proofs::Rows::no_values))]
pub fn args(alloc: Global, matches: &ArgMatches<'_>, id: &str) -> Result<Items<Arg>, JobFault>
    ensures found { IfOk result
        (λ v. HasWords is_arg 64 id.now (rows_of (found_of matches.now)) v) }
    ensures only { (v : List (List ℕ)) → HasWords is_arg 64 id.now
        (rows_of (found_of matches.now)) v → MatchResult result (λ r. r ≡ v) (λ e. e ≡ NoMemory) }
    ensures word { IfErr result
        (λ e. e ≡ BadWord → HasBadWords is_arg 64 id.now (rows_of (found_of matches.now))) }
    ensures usage { IfErr result (λ e. IsUsage e → ⊥) }
{
    let Some(texts) = matches.get_raw(id) else {
        return Ok(Items::new(Vec::new(alloc)));
    };
    if texts.len() > MOST_ARGS {
        return Err(JobFault::BadWord);
    }
    all_args(alloc, texts)
}
