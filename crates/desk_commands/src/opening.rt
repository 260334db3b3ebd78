//! Opening a desk over the bytes of its files and what a keeper keeps.

ghost use Rattle.std.specs.Prelude.{◌≡◌, ◌⊎◌, [], IfErr, IfOk, IsErrAnd, MatchResult, OnErr, OnOk};
ghost use Rattle.sudo_policy.specs.Spelling.{Spells};
ghost use Rattle.desk_store.specs.Left.{AddsOnly, IsCommitted, IsDeskOf, LeavesOnly};
ghost use Rattle.desk_store.specs.Serves.{Serves};
ghost use Rattle.desk_store.specs.Sets.{SameSet};
ghost use Rattle.desk.specs.Crash.{IsLeftByTaking};
ghost use Rattle.desk_commands.specs.Files.{AreFilesOf, EndsMaking, EndsTakingFile, IsRosterFault};
ghost use Rattle.desk_commands.specs.Files.{IsRosterFile};
ghost use Rattle.desk_commands.specs.Kept.{held_in, keeps_by, kept_by};
ghost use Rattle.desk_commands.specs.Leaving.{WasOpened};
ghost use Rattle.desk_commands.specs.Rebuilding.{EndsRebuilding};
ghost use Rattle.desk_commands.specs.Wanting.{IsWanting};
ghost use Rattle.desk_commands.specs.private.Outcomes.{EndsParts};

use crate::refusal::JobRefusal;
use desk::{Desk, Keeper};
use roster::{Roster, RosterFault};
use std::alloc::Global;
use std::str;
use sudo_syntax::{Policy, read_policy};

/// The roster of a file. Bytes that are not UTF-8 are not TOML.
#[tactic(auto, using(crate::proofs::FileLemmas::no_text))]
fn roster_of(alloc: Global, file: &[u8]) -> Result<Roster, RosterFault>
    ensures found { IfOk result (λ r. IsRosterFile file.now r.says × (r.text ≡ file.now)) }
    ensures err { IfErr result (IsRosterFault file.now) }
{
    match str::from_utf8(file) {
        Ok(text) => Roster::read(alloc, text),
        Err(_) => Err(RosterFault::NotToml),
    }
}

/// The roster and the base that the files hold. The roster is read first.
fn parts(alloc: Global, roster: &[u8], base: &[u8]) -> Result<(Roster, Policy), JobRefusal>
    ensures roster { IfOk result (λ r. IsRosterFile roster.now r.0.says × (r.0.text ≡ roster.now)) }
    ensures base { IfOk result (λ r. Spells base.now r.1) }
    ensures err { IfErr result (EndsParts roster.now base.now) }
{
    let roster = roster_of(alloc, roster)?;
    let base = read_policy(alloc, base)?;
    Ok((roster, base))
}

/// The desk of the roster and the base that the files hold, over what the keeper keeps.
///
/// The call is refused with the roster's fault, the policy's, or the desk's; a refusal hands the
/// keeper back, and what the keeper keeps stays as it was.
pub fn open_over<K: Keeper>(
    alloc: Global,
    roster: &[u8],
    base: &[u8],
    keeper: K,
) -> Result<Desk<K>, (JobRefusal, K)>
    ensures found { IfOk result (λ d. AreFilesOf roster.now base.now d.roster.says d.base) }
    ensures recorded { IfOk result (λ d. d.roster.text ≡ roster.now) }
    ensures opens { IfOk result (λ d. K.is_up d.keeper → SameSet
        (held_in (K.is_desk keeper) (K.is_old keeper) (K.holds keeper)) (K.holds d.keeper)) }
    ensures was { IfOk result
        (λ d. K.is_up d.keeper → WasOpened roster.now (keeps_by K.Keeper keeper)) }
    ensures err { IfErr result
        (λ r. EndsMaking roster.now base.now (kept_by K.Keeper keeper r.1) r.0) }
    ensures unchanged { IfErr result (λ r. K.is_up r.1 → K.is_same keeper r.1) }
    ensures served { MatchResult result (λ d. Serves K.Keeper keeper d.keeper ⊥ ⊥)
        (λ r. Serves K.Keeper keeper r.1 ⊥ (IsWanting r.0)) }
    ensures live { IfOk result (λ d. K.is_clean d.keeper → K.is_up d.keeper) }
{
    match parts(alloc, roster, base) {
        Ok((roster, base)) => match Desk::open(alloc, roster, base, keeper) {
            Ok(desk) => Ok(desk),
            Err((refusal, keeper)) => Err((JobRefusal::Desk(refusal), keeper)),
        },
        Err(refusal) => Err((refusal, keeper)),
    }
}

/// The desk of the roster and the base that the files hold, over the messages that the keeper
/// keeps. The messages may have been kept under another roster.
///
/// The call is refused with the roster's fault, the policy's, or the desk's; a refusal hands the
/// keeper back, and what the keeper keeps stays as it was.
pub fn rebuild_over<K: Keeper>(
    alloc: Global,
    roster: &[u8],
    base: &[u8],
    keeper: K,
) -> Result<Desk<K>, (JobRefusal, K)>
    ensures found { IfOk result (λ d. AreFilesOf roster.now base.now d.roster.says d.base) }
    ensures recorded { IfOk result (λ d. d.roster.text ≡ roster.now) }
    ensures keeps { IfOk result (λ d. K.is_up d.keeper → SameSet
        (held_in (K.is_desk keeper) (K.is_old keeper) (K.holds keeper)) (K.holds d.keeper)) }
    ensures err { IfErr result
        (λ r. EndsRebuilding roster.now base.now (kept_by K.Keeper keeper r.1) r.0) }
    ensures unchanged { IfErr result (λ r. K.is_up r.1 → K.is_same keeper r.1) }
    ensures served { MatchResult result (λ d. Serves K.Keeper keeper d.keeper ⊥ ⊥)
        (λ r. Serves K.Keeper keeper r.1 ⊥ (IsWanting r.0)) }
    ensures live { IfOk result (λ d. K.is_clean d.keeper → K.is_up d.keeper) }
{
    match parts(alloc, roster, base) {
        Ok((roster, base)) => match Desk::rebuild(alloc, roster, base, keeper) {
            Ok(desk) => Ok(desk),
            Err((refusal, keeper)) => Err((JobRefusal::Desk(refusal), keeper)),
        },
        Err(refusal) => Err((refusal, keeper)),
    }
}

/// Has the desk take the roster that the file holds, and go on with it over its base and its
/// messages.
///
/// A file that holds no roster is refused before the desk is asked. After a refusal the desk has
/// the roster that it had. Whenever the call ends, a crash leaves the whole desk as it was, or the
/// whole desk with the file's bytes as its roster's text; after Ok only the latter.
pub fn take_file<K: Keeper>(
    alloc: Global,
    desk: &mut Desk<K>,
    file: &[u8],
) -> Result<(), JobRefusal>
    ensures taken { OnOk result (IsRosterFile file.now desk.new.roster.says) }
    ensures recorded { OnOk result (desk.new.roster.text ≡ file.now) }
    ensures kept { OnErr result (desk.new.roster ≡ desk.old.roster) }
    ensures base { desk.new.base ≡ desk.old.base }
    ensures history { OnOk result (desk.new.history ≡ []) }
    ensures history_kept { OnErr result (desk.new.history ≡ desk.old.history) }
    ensures held { K.is_up desk.new.keeper
        → OnOk result (SameSet (K.holds desk.old.keeper) (K.holds desk.new.keeper)) }
    ensures unchanged { K.is_up desk.new.keeper
        → OnErr result (K.is_same desk.old.keeper desk.new.keeper) }
    ensures err { IfErr result (EndsTakingFile file.now) }
    ensures served { Serves K.Keeper desk.old.keeper desk.new.keeper
        ⊥ (IsErrAnd result IsWanting) }
    ensures live { K.is_clean desk.new.keeper → OnOk result (K.is_up desk.new.keeper) }
    // Where the file holds no roster, nothing was done.
    ensures crash { K.is_up desk.old.keeper → K.is_clean desk.new.keeper
        → (desk.new ≡ desk.old) ⊎ LeavesOnly (K.may_leave desk.new.keeper)
        (IsLeftByTaking desk.old.roster.text file.now (K.holds desk.old.keeper)) }
    ensures leaves { K.is_clean desk.new.keeper
        → AddsOnly (K.may_leave desk.old.keeper) (K.may_leave desk.new.keeper)
        (IsCommitted (K.is_up desk.old.keeper) file.now (K.holds desk.old.keeper)) }
    ensures lasting { K.is_up desk.old.keeper → K.is_clean desk.new.keeper
        → OnOk result (LeavesOnly (K.may_leave desk.new.keeper)
        (IsDeskOf file.now (K.holds desk.old.keeper))) }
{
    match roster_of(alloc, file) {
        Ok(roster) => match desk.take_roster(roster) {
            Ok(()) => Ok(()),
            Err(refusal) => Err(JobRefusal::Desk(refusal)),
        },
        Err(fault) => Err(JobRefusal::Roster(fault)),
    }
}
